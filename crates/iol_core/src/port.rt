//! What ports and clients can read of a port.

ghost use Rattle.std.specs.Prelude.{◌≡◌, IsSome, IfOk, OnOk, OnErr};
ghost use mathlib.Core.List.{IsPrefix};
ghost use Rattle.iol_core.specs.Standing.{Stands};
ghost use Rattle.std.specs.Option.{option_map};
ghost use Rattle.iol_types.specs.Port.{stored_of};
ghost use Rattle.iol_types.specs.State.{port_numbered};
ghost use Rattle.iol_core.specs.Downloads.{durable_set, stored_at};
ghost use Rattle.iol_core.specs.Ports.{work_at, view_at};

use crate::core_value::Core;
use iol_front::{Name, Pass};
use iol_types::{MasterState, PortConfig, PortId, PortState, StoredSet};
use std::alloc::AllocError;

/// What a port works with: its live configuration and revision, and the checksum of its durable set, if there is one.
#[derive(Clone, Copy, Debug, PartialEq, Eq)]
pub struct Work {
    pub config: PortConfig,
    pub revision: u64,
    pub checksum: Option<u32>,
}

/// The durable state of a port, and the number of the last durable command.
#[derive(Debug, Drop)]
pub struct View {
    pub port: PortState,
    pub number: u64,
}

impl<F: Name> Core<F> {
    /// Returns what a port works with; `None` if there is no such port.
    pub fn attend(&self, port: PortId) -> Option<Work>
        ensures { result ≡ work_at self.now port }
    {
        match self.live().port(port) {
            Some(live) => Some(Work {
                config: live.config(),
                revision: live.revision(),
                checksum: self.stored(port).map(|stored| stored.set.checksum()),
            }),
            None => None,
        }
    }

    // The set that is stored for a port in the durable state.
    pub(crate) fn stored(&self, port: PortId) -> Option<&StoredSet>
        ensures { option_map (λ stored. stored_of stored.now) result ≡ durable_set self.now port }
    {
        self.durable.port(port)?.stored()
    }

    /// Returns the durable state of a port, its set shared, or `None` if there is no such port. The given pass meets
    /// the core's own, and has then seen each durable command.
    ///
    /// # Errors
    /// `AllocError` if out of memory; nothing changes. A port without a durable set needs no memory.
    pub fn view(&mut self, port: PortId, pass: &mut Pass<F>) -> Result<Option<View>, AllocError>
        ensures view { IfOk result (λ view. view ≡ view_at self.old port) }
        ensures others { self.new ≡ record self.old { seen = self.new.seen } }
        ensures kept { IsPrefix self.old.seen self.new.seen × IsPrefix pass.old pass.new }
        ensures met { OnOk result (IsPrefix self.new.seen pass.new) }
        ensures stands { Stands F.front.start self.new.seen self.new.number self.new.durable }
        ensures unchanged { OnErr result ((self.new ≡ self.old) × (pass.new ≡ pass.old)) }
        ensures memory { OnErr result (IsSome (durable_set self.old port)) }
    {
        let view = view_of(&self.durable, self.number, port)?;
        self.meet(pass);
        Ok(view)
    }

    /// Lets the pass meet the core's own, so that it has seen each durable command. Returns the number of the last
    /// one. It allocates no memory.
    pub fn meet(&mut self, pass: &mut Pass<F>) -> u64
        ensures number { result ≡ self.old.number }
        ensures others { self.new ≡ record self.old { seen = self.new.seen } }
        ensures kept { IsPrefix self.old.seen self.new.seen × IsPrefix pass.old pass.new }
        ensures met { IsPrefix self.new.seen pass.new }
        ensures stands { Stands F.front.start self.new.seen self.new.number self.new.durable }
    {
        pass.meet(&mut self.pass);
        self.number
    }
}

// Copies the port from the durable state, its set shared; `number` is that of the last durable command.
fn view_of(durable: &MasterState, number: u64, port: PortId) -> Result<Option<View>, AllocError>
    ensures view { IfOk result (λ view.
        view ≡ option_map (λ p. record { port = p; number = number }) (port_numbered durable.now port)) }
    ensures memory { OnErr result (IsSome (stored_at (port_numbered durable.now port))) }
{
    match durable.port(port) {
        Some(state) => Ok(Some(View {
            port: state.copy()?,
            number,
        })),
        None => Ok(None),
    }
}
