//! The reasons why a simulated device refuses a request.

ghost use Rattle.std.specs.Prelude.{◌≡◌};
ghost use Rattle.iol_sim.specs.Refusal.{code_of};

/// The ErrorCode of every refusal: an error of the device's application.
pub const DEVICE_APPLICATION_ERROR: u8 = 0x80;

/// The reason why a simulated device refuses a request (IO-Link V1.1, ErrorTypes).
#[derive(Clone, Copy, PartialEq, Eq)]
pub enum Refusal {
    /// No object has this Index and Subindex, 0x11.
    NoIndex,
    /// The Data Storage object has no such Subindex, 0x12.
    NoSubindex,
    /// The object cannot be read, or cannot be written, ever or in the present state, 0x23.
    AccessDenied,
    /// The octet is not a DS_Command, or there is not exactly one octet, 0x30.
    OutOfRange,
    /// The octets are more than the parameter has, 0x33.
    TooLong,
    /// The octets are fewer than the parameter has, 0x34.
    TooShort,
}

impl Refusal {
    /// The AdditionalCode.
    pub fn code(self) -> u8
        ensures { result ≡ code_of self }
    {
        match self {
            Refusal::NoIndex => 0x11,
            Refusal::NoSubindex => 0x12,
            Refusal::AccessDenied => 0x23,
            Refusal::OutOfRange => 0x30,
            Refusal::TooLong => 0x33,
            Refusal::TooShort => 0x34,
        }
    }
}
