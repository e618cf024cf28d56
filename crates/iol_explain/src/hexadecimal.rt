//! Numbers in hexadecimal digits, upper case.

use iol_types::{DeviceId, Key};
use std::fmt;

// An octet, in two digits.
#[derive(Clone, Copy)]
pub(crate) struct TwoDigits(pub(crate) u8);

impl fmt::Display for TwoDigits {
    ghost use Rattle.std.specs.Prelude.{Some};
    ghost use Rattle.iol_texts.specs.Texts.{hex_of};

    ghost output = { λ digits. Some (hex_of digits.0) };

    #[tactic(auto, using(std::proofs::lemmas::Fmt::hex_byte))]
    fn fmt<W: fmt::Write>(&self, f: &mut fmt::Formatter<W>) -> fmt::Result {
        let octet = self.0;
        write!(f, "{octet:02X}")
    }
}

// A number of two octets, in four digits.
#[derive(Clone, Copy)]
pub(crate) struct FourDigits(pub(crate) u16);

impl fmt::Display for FourDigits {
    ghost use Rattle.std.specs.Prelude.{Some};
    ghost use Rattle.iol_texts.specs.Texts.{hex_digits};

    ghost output = { λ digits. Some (hex_digits 4 digits.0) };

    #[tactic(auto, using(iol_texts::proofs::Hexadecimal::hex_four))]
    fn fmt<W: fmt::Write>(&self, f: &mut fmt::Formatter<W>) -> fmt::Result {
        let number = self.0;
        write!(f, "{number:04X}")
    }
}

// A DeviceID, in six digits.
#[derive(Clone, Copy)]
pub(crate) struct SixDigits(pub(crate) DeviceId);

impl fmt::Display for SixDigits {
    ghost use Rattle.std.specs.Prelude.{Some};
    ghost use Rattle.iol_texts.specs.Texts.{hex_digits};

    ghost output = { λ digits. Some (hex_digits 6 digits.0) };

    #[tactic(auto, using(iol_texts::proofs::Hexadecimal::hex_six))]
    fn fmt<W: fmt::Write>(&self, f: &mut fmt::Formatter<W>) -> fmt::Result {
        let number = self.0.number();
        write!(f, "{number:06X}")
    }
}

// A number of four octets, in eight digits.
#[derive(Clone, Copy)]
pub(crate) struct EightDigits(pub(crate) u32);

impl fmt::Display for EightDigits {
    ghost use Rattle.std.specs.Prelude.{Some};
    ghost use Rattle.iol_texts.specs.Texts.{hex_digits};

    ghost output = { λ digits. Some (hex_digits 8 digits.0) };

    #[tactic(auto, using(iol_texts::proofs::Hexadecimal::hex_eight))]
    fn fmt<W: fmt::Write>(&self, f: &mut fmt::Formatter<W>) -> fmt::Result {
        let number = self.0;
        write!(f, "{number:08X}")
    }
}

// The key of a parameter: its Index in four digits, its Subindex in two.
#[derive(Clone, Copy)]
pub(crate) struct KeyText(pub(crate) Key);

impl fmt::Display for KeyText {
    ghost use Rattle.std.specs.Prelude.{Some};
    ghost use Rattle.iol_explain.specs.Objects.{key_text};

    ghost output = { λ text. Some (key_text text.0) };

    fn fmt<W: fmt::Write>(&self, f: &mut fmt::Formatter<W>) -> fmt::Result {
        let index = FourDigits(self.0.index);
        let subindex = TwoDigits(self.0.subindex);
        write!(f, "{index}.{subindex}")
    }
}
