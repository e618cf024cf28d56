//! The numbers that words spell.

ghost use Rattle.std.specs.Prelude.{◌≡◌, ◌≤◌, ◌<◌, ◌^◌, length, IfSome};
ghost use Rattle.iol_wire.specs.Numeral.{numeral, hexadecimal};

/// The radix of a request's number.
pub(crate) const DECIMAL: u32 = 10;

/// The radix of octets and EventCodes.
pub(crate) const HEXADECIMAL: u32 = 16;

// The number that these digits spell in this radix; `None` if an octet is no digit, or if the
// number is 2^64 or more.
pub(crate) fn numeral(radix: u32, digits: &[u8]) -> Option<u64>
    requires low { 2 ≤ radix }
    requires high { radix ≤ 36 }
    ensures value { result ≡ numeral radix digits.now }
    ensures below { IfSome result (λ value. value < radix ^ length digits.now) }
{
    let mut value = 0u64;
    for octet in digits {
        let digit = char::from(*octet).to_digit(radix)?;
        value = value
            .checked_mul(u64::from(radix))?
            .checked_add(u64::from(digit))?;
    }
    Some(value)
}

// The octet that two hexadecimal digits of either case spell.
pub(crate) fn octet(word: &[u8]) -> Option<u8>
    ensures { result ≡ hexadecimal 2 word.now }
{
    if word.len() != 2 {
        return None;
    }
    match numeral(HEXADECIMAL, word) {
        Some(value) => Some(value as u8),
        None => None,
    }
}

// The EventCode that four hexadecimal digits of either case spell.
pub(crate) fn event_code(word: &[u8]) -> Option<u16>
    ensures { result ≡ hexadecimal 4 word.now }
{
    if word.len() != 4 {
        return None;
    }
    match numeral(HEXADECIMAL, word) {
        Some(value) => Some(value as u16),
        None => None,
    }
}
