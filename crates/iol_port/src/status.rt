//! The status of a port.

use crate::fault::PortFault;
use crate::same_status::is_same_status;
use iol_link::IdentFault;

/// The status of a port.
#[derive(Clone, Copy, Debug)]
pub enum PortStatus {
    /// The port has no device to work with.
    Off,
    /// The device was lost.
    Lost,
    /// The device is being examined.
    Starting,
    /// The device fits the configuration, and has the stored parameters, if any are kept for it.
    Ready,
    /// As `Ready`, but the device's Data Storage is locked.
    ReadyLocked,
    /// As `Ready`, but there is no stored set to restore.
    ReadyEmpty,
    /// The device's parameters are being read.
    Uploading,
    /// The device's parameters were read, and are being stored.
    Storing,
    /// The stored parameters are being written to the device.
    Downloading,
    /// The device does not fit the configuration.
    Mismatch(IdentFault),
    /// What the port had begun has failed.
    Failed(PortFault),
}

/// This is written by hand, since the contract of a derived `eq` does not say when two faults are equal.
impl PartialEq for PortStatus {
    ghost use Rattle.std.specs.Prelude.{◌≡◌, ◌↔◌, IsTrue};
    ghost use Rattle.std.specs.Cmp.{partial_equiv_from_equiv};
    ghost use Rattle.iol_port.specs.Sameness.{same_status, same_status-laws};

    ghost eq = { same_status };

    ghost laws = { partial_equiv_from_equiv same_status-laws };

    fn eq(&self, other: &PortStatus) -> bool
        ensures test { result ≡ same_status self.now other.now }
        ensures exactly { IsTrue result ↔ (self.now ≡ other.now) }
    {
        is_same_status(*self, *other)
    }
}

impl Eq for PortStatus {
    ghost use Rattle.iol_port.specs.Sameness.{same_status-laws};

    ghost laws = { same_status-laws };
}
