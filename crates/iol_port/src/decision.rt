//! The decision what to do with the parameters of a device.

ghost use Rattle.std.specs.Prelude.{◌≡◌};
ghost use Rattle.iol_port.specs.Decision.{decide};

use iol_transfer::State;
use iol_types::Validation;

/// What to do with the parameters of a device that fits its port's configuration.
#[derive(Clone, Copy)]
pub enum Decision {
    /// Nothing: the device has the stored parameters, or none are kept for it.
    Ready,
    /// Nothing: the device's Data Storage is locked.
    ReadyLocked,
    /// Nothing: there is no set to restore.
    ReadyEmpty,
    /// Read the device's parameters and store them.
    Upload,
    /// Write the stored parameters to the device.
    Download,
}

/// Decides from the port's validation, the state, flag and checksum of the device's Data Storage, and the checksum of the
/// stored set, if there is one (IO-Link V1.1, Data Storage). It allocates no memory.
pub fn decide(
    validation: Validation,
    state: State,
    flag: bool,
    checksum: u32,
    stored: Option<u32>,
) -> Decision
    ensures { result ≡ decide validation state flag checksum stored }
{
    let backs_up = matches!(validation, Validation::BackupAndRestore);
    if !backs_up && !matches!(validation, Validation::Restore) {
        return Decision::Ready;
    }
    if matches!(state, State::Locked) {
        return Decision::ReadyLocked;
    }
    match stored {
        None => {
            if backs_up {
                Decision::Upload
            } else {
                Decision::ReadyEmpty
            }
        }
        Some(stored) => {
            if backs_up && flag {
                Decision::Upload
            } else if stored == checksum {
                Decision::Ready
            } else {
                Decision::Download
            }
        }
    }
}
