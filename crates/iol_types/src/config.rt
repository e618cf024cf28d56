//! The configuration of a port.
ghost use Rattle.std.specs.Prelude.{◌≡◌};
ghost use Rattle.iol_types.specs.Config.{mode_octet, mode_of, validation_octet, validation_of, keeps_set, may_keep_set, may_store_set};

use crate::device_id::DeviceId;
use crate::label::Label;

/// What a port is used for (IO-Link V1.1, port configuration, PortMode).
#[derive(Clone, Copy, Debug, PartialEq, Eq)]
pub enum PortMode {
    /// DEACTIVATED, octet 0.
    Deactivated,
    /// IOL_MANUAL, octet 1: an IO-Link device that is checked against the configuration.
    IolManual,
    /// IOL_AUTOSTART, octet 2: any IO-Link device.
    IolAutostart,
    /// DI_C/Q, octet 3.
    DigitalInput,
    /// DO_C/Q, octet 4.
    DigitalOutput,
}

impl PortMode {
    /// The mode with this octet, or `None` above 4.
    pub fn from_octet(octet: u8) -> Option<PortMode>
        ensures { result ≡ mode_of octet }
    {
        match octet {
            0 => Some(PortMode::Deactivated),
            1 => Some(PortMode::IolManual),
            2 => Some(PortMode::IolAutostart),
            3 => Some(PortMode::DigitalInput),
            4 => Some(PortMode::DigitalOutput),
            _ => None,
        }
    }

    /// The octet of the mode, 0 to 4.
    pub fn to_octet(self) -> u8
        ensures { result ≡ mode_octet self }
    {
        match self {
            PortMode::Deactivated => 0,
            PortMode::IolManual => 1,
            PortMode::IolAutostart => 2,
            PortMode::DigitalInput => 3,
            PortMode::DigitalOutput => 4,
        }
    }
}

/// How a device is checked, and whether its parameters are kept (IO-Link V1.1, port configuration,
/// Validation&Backup).
#[derive(Clone, Copy, Debug, PartialEq, Eq)]
pub enum Validation {
    /// No check, octet 0.
    NoCheck,
    /// Type compatible, V1.0, octet 1.
    TypeCompatibleV10,
    /// Type compatible, V1.1, octet 2.
    TypeCompatibleV11,
    /// Type compatible, V1.1, with Backup and Restore, octet 3.
    BackupAndRestore,
    /// Type compatible, V1.1, with Restore, octet 4.
    Restore,
}

impl Validation {
    /// The validation with this octet, or `None` above 4.
    pub fn from_octet(octet: u8) -> Option<Validation>
        ensures { result ≡ validation_of octet }
    {
        match octet {
            0 => Some(Validation::NoCheck),
            1 => Some(Validation::TypeCompatibleV10),
            2 => Some(Validation::TypeCompatibleV11),
            3 => Some(Validation::BackupAndRestore),
            4 => Some(Validation::Restore),
            _ => None,
        }
    }

    /// The octet of the validation, 0 to 4.
    pub fn to_octet(self) -> u8
        ensures { result ≡ validation_octet self }
    {
        match self {
            Validation::NoCheck => 0,
            Validation::TypeCompatibleV10 => 1,
            Validation::TypeCompatibleV11 => 2,
            Validation::BackupAndRestore => 3,
            Validation::Restore => 4,
        }
    }
}

/// The configuration of a port, with the VendorID and the DeviceID of the device that it expects, and the
/// label of the port.
#[derive(Clone, Copy, Debug, PartialEq, Eq)]
pub struct PortConfig {
    pub mode: PortMode,
    pub validation: Validation,
    pub vendor: u16,
    pub device: DeviceId,
    pub label: Label,
}

impl PortConfig {
    /// Whether a port may store a parameter set of its device: IOL_MANUAL with Backup and Restore.
    pub fn may_store_set(&self) -> bool
        ensures { result ≡ may_store_set self.now }
    {
        matches!(self.mode, PortMode::IolManual)
            && matches!(self.validation, Validation::BackupAndRestore)
    }

    /// Whether a port may have a parameter set of its device: IOL_MANUAL with Backup and Restore, or with Restore.
    pub fn may_keep_set(&self) -> bool
        ensures { result ≡ may_keep_set self.now }
    {
        matches!(self.mode, PortMode::IolManual)
            && matches!(
                self.validation,
                Validation::BackupAndRestore | Validation::Restore
            )
    }
}

/// Whether a port's parameter set stays when the configuration `old` is replaced by `new`: both are
/// IOL_MANUAL with validation 3 or 4, and they name the same vendor and device (IO-Link V1.1, Data Storage,
/// change of the port configuration). The labels do not matter.
pub fn keeps_set(old: &PortConfig, new: &PortConfig) -> bool
    ensures { result ≡ keeps_set old.now new.now }
{
    old.may_keep_set() && new.may_keep_set() && old.vendor == new.vendor && old.device == new.device
}
