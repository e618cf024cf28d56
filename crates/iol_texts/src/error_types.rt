//! The ErrorTypes with which a device refuses a request (IO-Link V1.1, ISDU error codes).
ghost use Rattle.std.specs.Prelude.{◌≡◌};
ghost use Rattle.iol_texts.specs.ErrorTypes.{error_name, object_error, service_error, set_error, value_error};

use std::fmt;

/// An ErrorCode and an AdditionalCode. They are printed with the name of the error, if the standard has one.
#[derive(Clone, Copy)]
pub struct ErrorType {
    pub error: u8,
    pub additional: u8,
}

impl fmt::Display for ErrorType {
    ghost use Rattle.std.specs.Prelude.{Some};
    ghost use Rattle.iol_texts.specs.ErrorTypes.{error_text};

    ghost output = { λ refusal. Some (error_text refusal.error refusal.additional) };

    #[tactic(auto, using(std::proofs::lemmas::Fmt::hex_byte))]
    fn fmt<W: fmt::Write>(&self, f: &mut fmt::Formatter<W>) -> fmt::Result {
        let error = self.error;
        let additional = self.additional;
        let name = error_name(error, additional);
        write!(f, "ErrorCode {error:02X} {additional:02X}{name}")
    }
}

// The name of an ErrorType after a comma, or nothing if the standard has none.
fn error_name(error: u8, additional: u8) -> &'static str
    ensures { result.now ≡ error_name error additional }
{
    match error {
        0x80 => object_error(additional),
        0x81 => ", vendor specific",
        _ => "",
    }
}

// The errors of an object; any other code is looked up among those of a service.
fn object_error(additional: u8) -> &'static str
    ensures { result.now ≡ object_error additional }
{
    match additional {
        0x00 => ", device application error",
        0x11 => ", Index not available",
        0x12 => ", Subindex not available",
        0x23 => ", access denied",
        _ => service_error(additional),
    }
}

// The errors of a service; any other code is looked up among those of a value.
fn service_error(additional: u8) -> &'static str
    ensures { result.now ≡ service_error additional }
{
    match additional {
        0x20 => ", service temporarily not available",
        0x21 => ", service temporarily not available, local control",
        0x22 => ", service temporarily not available, device control",
        0x35 => ", function not available",
        0x36 => ", function temporarily not available",
        _ => value_error(additional),
    }
}

// The errors of a value; any other code is looked up among those of a set.
fn value_error(additional: u8) -> &'static str
    ensures { result.now ≡ value_error additional }
{
    match additional {
        0x30 => ", parameter value out of range",
        0x31 => ", parameter value above limit",
        0x32 => ", parameter value below limit",
        0x33 => ", parameter length overrun",
        0x34 => ", parameter length underrun",
        _ => set_error(additional),
    }
}

// The errors of a parameter set.
fn set_error(additional: u8) -> &'static str
    ensures { result.now ≡ set_error additional }
{
    match additional {
        0x40 => ", invalid parameter set",
        0x41 => ", inconsistent parameter set",
        0x82 => ", application not ready",
        _ => "",
    }
}
