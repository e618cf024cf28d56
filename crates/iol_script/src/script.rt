//! The text of a script (docs/FORMATS.md, "Scripts").
ghost use Rattle.std.specs.Prelude.{◌≡◌};
ghost use Rattle.iol_script.specs.declared.script.ScriptFault.TheVariants.{Memory};

use crate::device::Device;
use crate::devices::read_devices;
use crate::fail::{FailingCall, fail_in};
use crate::step::Step;
use crate::steps::{before_stop, read_steps};
use crate::table::{has_only_keys, integer_at, values_at};
use crate::text::read_table;
use iol_disk::Pick;
use iol_types::PortId;
use std::alloc::{AllocError, AllocFailed, Global};
use thiserror::Error;
use toml::Table;

/// The greatest number of octets of a script.
pub const SCRIPT_OCTETS: usize = 65_536;

// The keys of a script.
pub(crate) const TOP_KEYS: [&str; 5] = ["ports", "slots", "fail", "device", "step"];

/// What a script says.
#[derive(Drop)]
pub struct Script {
    /// The number of ports, as written in the text.
    pub ports: i64,
    /// The number of slots in each area, as written in the text.
    pub slots: i64,
    /// The disk call that fails, if one does.
    pub fail: Option<FailingCall>,
    /// The simulated devices, in order.
    pub devices: Vec<Device>,
    /// The steps, in order.
    pub steps: Vec<Step>,
    /// What the stop at the end leaves of the sectors that were written since the last sync.
    pub keep: Pick,
}

/// Why a text is not read as a script.
#[derive(Clone, Copy, Debug, Error)]
pub enum ScriptFault {
    /// The text is longer than [`SCRIPT_OCTETS`], not UTF-8, not TOML, or not a script.
    #[error("the script is not valid")]
    NotValid,
    /// Out of memory.
    #[error("out of memory")]
    Memory,
}

impl<T: Drop> From<AllocFailed<T>> for ScriptFault {
    ghost from_gives = { λ _ fault. fault ≡ Memory };

    fn from(_error: AllocFailed<T>) -> ScriptFault {
        ScriptFault::Memory
    }
}

impl From<AllocError> for ScriptFault {
    ghost from_gives = { λ _ fault. fault ≡ Memory };

    fn from(_error: AllocError) -> ScriptFault {
        ScriptFault::Memory
    }
}

impl Script {
    ghost use Rattle.std.specs.Prelude.{None, Some, IfOk, OnOk};
    ghost use Rattle.toml.specs.View.{table_view};
    ghost use Rattle.iol_script.specs.Script.{IsText, said_by, said_in, said_of, fits_ports, is_port_of, step_fits};

    /// Reads a script from a text of at most 65,536 octets: TOML with the whole numbers `ports` and `slots`, of any size
    /// that fits 64 bits. It may name a disk call that fails, simulated devices and steps. The last step may be a stop;
    /// if it is not, a stop that keeps what is new is added.
    ///
    /// # Errors
    /// `NotValid` if the text is not a script; `Memory` if reading the text runs out of memory.
    pub fn read(alloc: Global, text: &[u8]) -> Result<Script, ScriptFault>
        ensures text { OnOk result (IsText text.now) }
        ensures script { IfOk result (λ script. said_in text.now ≡ Some (said_of script)) }
        ensures not_valid { result ≡ Err ScriptFault.NotValid → IsText text.now → said_in text.now ≡ None }
        ensures memory { result ≡ Err ScriptFault.Memory → IsText text.now }
    {
        let table = read_table(alloc, text)?;
        Script::from_table(alloc, &table)
    }

    fn from_table(alloc: Global, table: &Table) -> Result<Script, ScriptFault>
        ensures script { IfOk result (λ script. said_by (table_view table.now) ≡ Some (said_of script)) }
        ensures not_valid { result ≡ Err ScriptFault.NotValid → said_by (table_view table.now) ≡ None }
    {
        if !has_only_keys(table, &TOP_KEYS) {
            return Err(ScriptFault::NotValid);
        }
        let ports = integer_at(table, "ports").ok_or(ScriptFault::NotValid)?;
        let slots = integer_at(table, "slots").ok_or(ScriptFault::NotValid)?;
        let fail = fail_in(table).ok_or(ScriptFault::NotValid)?;
        let devices = values_at(table, "device").ok_or(ScriptFault::NotValid)?;
        let devices = read_devices(alloc, devices)?;
        let values = values_at(table, "step").ok_or(ScriptFault::NotValid)?;
        let (values, keep) = before_stop(values);
        let steps = read_steps(alloc, values)?;
        Ok(Script {
            ports,
            slots,
            fail,
            devices,
            steps,
            keep,
        })
    }

    /// Returns whether each device, and each step of a port itself, is at one of the script's `ports`. A run requires this, and
    /// checks it after the text and before the geometry. A command for another port is no fault of the script: it is refused
    /// when it comes.
    pub fn fits_ports(&self) -> bool
        ensures { result ≡ fits_ports (said_of self.now) }
    {
        self.devices.iter().all(|device| self.has_port(device.port))
            && self.steps.iter().all(|step| self.fits_step(*step))
    }

    fn fits_step(&self, step: Step) -> bool
        ensures { result ≡ step_fits self.now.ports step }
    {
        match step {
            Step::Port { port, .. } => self.has_port(port),
            _ => true,
        }
    }

    fn has_port(&self, port: PortId) -> bool
        ensures { result ≡ is_port_of self.now.ports port }
    {
        i64::from(port.number()) <= self.ports
    }
}
