//! The names that parameters have within a device.
ghost use Rattle.std.specs.Prelude.{◌≡◌};
ghost use Rattle.iol_types.specs.Key.{IsKey, is_reserved};

/// The Index of Direct Parameter page 1.
pub const DIRECT_PARAMETER_PAGE: u16 = 0x0000;
/// The Index of the System Command.
pub const SYSTEM_COMMAND: u16 = 0x0002;
/// The Index of the Data Storage object.
pub const DATA_STORAGE: u16 = 0x0003;

/// The name of a parameter: an Index and a Subindex; Subindex 0 is the whole object (IO-Link V1.1,
/// ISDU).
#[derive(Clone, Copy, Debug, PartialEq, Eq, Hash)]
pub struct Key {
    pub index: u16,
    pub subindex: u8,
}

impl Key {
    /// Whether the key is excluded from parameter sets, whatever its Subindex: Direct Parameter page 1,
    /// the System Command and the Data Storage object are not a device's parameters.
    pub fn is_reserved(self) -> bool
        ensures reserved { result ≡ is_reserved self }
        ensures range { IsKey self }
    {
        self.index == DIRECT_PARAMETER_PAGE
            || self.index == SYSTEM_COMMAND
            || self.index == DATA_STORAGE
    }
}
