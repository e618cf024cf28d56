//! Checks whether a device is the one that its port is configured for.
ghost use Rattle.std.specs.Prelude.{◌≡◌};
ghost use Rattle.std.specs.Result.{result_err};
ghost use Rattle.iol_link.specs.Validation.{ident_fault};

use crate::page::Page;
use iol_types::{PortConfig, Validation};
use thiserror::Error;

// The RevisionID of V1.1.
const REVISION_V11: u8 = 0x11;

/// The reasons why a device is not the one that its port is configured for, in the order of the checks.
#[derive(Clone, Copy, Debug, PartialEq, Eq, Error)]
pub enum IdentFault {
    /// The VendorID differs.
    #[error("another vendor")]
    Vendor,
    /// The DeviceID differs.
    #[error("another device")]
    Device,
    /// The RevisionID is below V1.1, and validation 2, 3 or 4 is configured.
    #[error("a revision below V1.1")]
    Revision,
    /// The device does not support ISDUs, and validation 3 or 4 is configured.
    #[error("no ISDU support")]
    NoIsdu,
}

/// Checks whether the device with this page is the one that this configuration requires (IO-Link V1.1, port
/// configuration, Validation&Backup). Under NoCheck every device is accepted. The mode of the port is
/// ignored.
pub fn validate(config: &PortConfig, page: &Page) -> Result<(), IdentFault>
    ensures { result_err result ≡ ident_fault config.now page.now }
{
    let validation = config.validation;
    if matches!(validation, Validation::NoCheck) {
        return Ok(());
    }
    if page.vendor() != config.vendor {
        return Err(IdentFault::Vendor);
    }
    if page.device() != config.device {
        return Err(IdentFault::Device);
    }
    if matches!(validation, Validation::TypeCompatibleV10) {
        return Ok(());
    }
    if page.revision() < REVISION_V11 {
        return Err(IdentFault::Revision);
    }
    if matches!(validation, Validation::TypeCompatibleV11) || page.has_isdu() {
        Ok(())
    } else {
        Err(IdentFault::NoIsdu)
    }
}
