//! What a master keeps for one port.
ghost use Rattle.std.specs.Prelude.{◌≡◌, ◌<◌, ◌↔◌, None, true, IsSome, IfSome, IfOk, OnErr};
ghost use Rattle.std.specs.Option.{option_map};
ghost use Rattle.iol_types.specs.Config.{may_store_set};
ghost use Rattle.iol_types.specs.Port.{stored_of};
ghost use Rattle.iol_types.specs.declared.port_state.TheConstants.{LAST_REVISION};

use crate::command::CommandFault;
use crate::config::{PortConfig, PortMode, Validation, keeps_set};
use crate::data_set::DataSet;
use crate::device_id::DeviceId;
use crate::label::Label;
use std::alloc::AllocError;
use std::marker::Model;
use std::mem::swap;
use std::sync::Arc;

/// The last revision of a port, at which it accepts no further configuration.
pub const LAST_REVISION: u64 = u64::MAX;

/// A parameter set that is stored for a port, and the configuration that it was taken under. A
/// contract sees the record `Stored` of `specs/State.antt`.
#[derive(Debug, Drop)]
pub struct StoredSet {
    pub set: Arc<DataSet>,
    pub recorded: PortConfig,
}

impl StoredSet {
    ghost use Rattle.iol_types.specs.State.{may_have};
    ghost use Rattle.iol_types.specs.Port.{stored_of};

    // Whether a port with this configuration may have the set.
    fn may_stay(&self, config: &PortConfig) -> bool
        ensures { result ≡ may_have config.now (stored_of self.now) }
    {
        self.recorded.may_store_set()
            && self.set.vendor() == self.recorded.vendor
            && self.set.device() == self.recorded.device
            && keeps_set(&self.recorded, config)
    }

    // An equal stored set, which shares the parameter set.
    fn copy(&self) -> Result<StoredSet, AllocError>
        ensures { IfOk result (λ stored. stored_of stored ≡ stored_of self.now) }
    {
        Ok(StoredSet {
            set: Arc::try_clone(&self.set)?,
            recorded: self.recorded,
        })
    }
}

// An equal stored set, if there is one; it shares the parameter set.
fn copied(stored: &Option<StoredSet>) -> Result<Option<StoredSet>, AllocError>
    ensures copy { IfOk result (λ copy. option_map stored_of copy ≡ option_map stored_of stored.now) }
    ensures memory { OnErr result (IsSome (option_map stored_of stored.now)) }
{
    match stored {
        Some(stored) => Ok(Some(stored.copy()?)),
        None => Ok(None),
    }
}

/// The configuration of a port, its revision, which counts the configurations so far, the parameter
/// set that is stored for it, if any, and the one that was stored before that, if any. A contract sees
/// the record `Port` of `specs/State.antt`.
///
/// Each of these sets was taken under a configuration that is IOL_MANUAL with Backup and Restore and
/// names the set's device, and [`keeps_set`](crate::keeps_set) holds from that configuration to the
/// present one. There is a previous set only if there is a present one.
#[derive(Debug, Drop)]
pub struct PortState {
    config: PortConfig,
    revision: u64,
    stored: Option<StoredSet>,
    previous: Option<StoredSet>,
}

impl Model for PortState {
    ghost use Rattle.std.specs.Prelude.{◌≡◌, true};
    ghost use Rattle.std.specs.Option.{option_map};
    ghost use Rattle.iol_types.specs.State.{Port, may_stand};

    ghost Value = { Port };

    ghost use Rattle.iol_types.specs.Port.{port_of, stored_of};

    ghost view = { port_of };

    ghost invariant = { λ p.
        may_stand p.config (option_map stored_of p.stored) (option_map stored_of p.previous) ≡ true };
}

impl PortState {
    ghost use Rattle.iol_types.specs.DataSet.{SetValue};
    ghost use Rattle.iol_types.specs.State.{Port, may_have, may_stand, blank, configured, cleared, with_set, exchanged};
    ghost use Rattle.iol_types.specs.State.{store_fault, rollback_fault};
    ghost use Rattle.iol_types.specs.Port.{stored_of};

    /// A port with this configuration at this revision, the set that is stored for it, and the previous
    /// one. It is `None` if a port with this configuration may not have one of them, or if there is only
    /// a previous one.
    pub fn new(
        config: PortConfig,
        revision: u64,
        stored: Option<StoredSet>,
        previous: Option<StoredSet>,
    ) -> Option<PortState>
        ensures port { IfSome result (λ port. port
            ≡ record {
              config = config;
              revision = revision;
              stored = option_map stored_of stored;
              previous = option_map stored_of previous;
            }) }
        ensures exactly { IsSome result
            ↔ (may_stand config (option_map stored_of stored) (option_map stored_of previous) ≡ true) }
    {
        let stand = match (&stored, &previous) {
            (None, None) => true,
            (None, Some(_)) => false,
            (Some(stored), None) => stored.may_stay(&config),
            (Some(stored), Some(previous)) => {
                stored.may_stay(&config) && previous.may_stay(&config)
            }
        };
        if stand {
            Some(PortState {
                config,
                revision,
                stored,
                previous,
            })
        } else {
            None
        }
    }

    // A port that was never configured.
    pub(crate) fn blank() -> PortState
        ensures { result ≡ blank }
    {
        PortState {
            config: PortConfig {
                mode: PortMode::Deactivated,
                validation: Validation::NoCheck,
                vendor: 0,
                device: DeviceId::new(0).unwrap(),
                label: Label::empty(),
            },
            revision: 0,
            stored: None,
            previous: None,
        }
    }

    /// The configuration of the port.
    pub fn config(&self) -> PortConfig
        ensures { result ≡ self.now.config }
    {
        self.config
    }

    /// The revision of the port.
    pub fn revision(&self) -> u64
        ensures { result ≡ self.now.revision }
    {
        self.revision
    }

    /// The parameter set that is stored for the port, if any.
    pub fn stored(&self) -> Option<&StoredSet>
        ensures stored { option_map (λ stored. stored_of stored.now) result ≡ self.now.stored }
        ensures may_have { IfSome self.now.stored (λ stored. may_have self.now.config stored ≡ true) }
    {
        self.stored.as_ref()
    }

    /// The parameter set that was stored for the port before that one, if any.
    pub fn previous(&self) -> Option<&StoredSet>
        ensures previous { option_map (λ stored. stored_of stored.now) result ≡ self.now.previous }
        ensures may_have { IfSome self.now.previous (λ stored. may_have self.now.config stored ≡ true) }
        ensures stored { IfSome self.now.previous (λ _. IsSome self.now.stored) }
    {
        self.previous.as_ref()
    }

    /// An equal port, which shares the sets.
    ///
    /// # Errors
    /// `AllocError` if out of memory; a port without a set needs none.
    pub fn copy(&self) -> Result<PortState, AllocError>
        ensures copy { IfOk result (λ port. port ≡ self.now) }
        ensures memory { OnErr result (IsSome self.now.stored) }
    {
        Ok(PortState {
            config: self.config,
            revision: self.revision,
            stored: copied(&self.stored)?,
            previous: copied(&self.previous)?,
        })
    }

    // Why a set may not be stored for the port.
    pub(crate) fn store_fault(&self, revision: u64, set: &DataSet) -> Option<CommandFault>
        ensures { result ≡ store_fault self.now revision set.now }
    {
        if !self.config.may_store_set() {
            Some(CommandFault::NotAllowed)
        } else if revision != self.revision {
            Some(CommandFault::StaleRevision)
        } else if !(set.vendor() == self.config.vendor && set.device() == self.config.device) {
            Some(CommandFault::WrongDevice)
        } else {
            None
        }
    }

    // Why the sets of the port may not be exchanged.
    pub(crate) fn rollback_fault(&self) -> Option<CommandFault>
        ensures { result ≡ rollback_fault self.now }
    {
        if self.previous.is_none() {
            Some(CommandFault::NoPrevious)
        } else {
            None
        }
    }

    // Gives the port its next configuration; sets that may not stay are deleted.
    pub(crate) fn configure(&mut self, config: PortConfig)
        requires { self.old.revision < LAST_REVISION }
        ensures { self.new ≡ configured self.old config }
    {
        if !keeps_set(&self.config, &config) {
            self.stored = None;
            self.previous = None;
        }
        self.config = config;
        self.revision += 1;
    }

    // Deletes the sets of the port.
    pub(crate) fn clear(&mut self)
        ensures { self.new ≡ cleared self.old }
    {
        self.stored = None;
        self.previous = None;
    }

    // Exchanges the sets of the port.
    pub(crate) fn roll_back(&mut self)
        requires { rollback_fault self.old ≡ None }
        ensures { self.new ≡ exchanged self.old }
    {
        swap(&mut self.stored, &mut self.previous);
    }

    // Stores a set for the port; the one that it has becomes its previous one.
    pub(crate) fn store(&mut self, set: Arc<DataSet>)
        requires may_store { may_store_set self.old.config ≡ true }
        requires vendor { set.value.vendor ≡ self.old.config.vendor }
        requires device { set.value.device ≡ self.old.config.device }
        ensures { self.new ≡ with_set self.old set.value }
    {
        self.previous = self.stored.replace(StoredSet {
            set,
            recorded: self.config,
        });
    }
}
