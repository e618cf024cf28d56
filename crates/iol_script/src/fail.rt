//! The disk call that a script makes fail.
ghost use Rattle.std.specs.Prelude.{◌≡◌};
ghost use Rattle.toml.specs.View.{table_view};
ghost use Rattle.iol_script.specs.Fail.{kind_of, number_in, call_in, fail_in, has_first_digit};

use crate::table::value_at;
use iol_disk::DiskFault;
use toml::Table;

/// The greatest number of a call that a script can make fail.
pub const LAST_FAILING_CALL: u32 = 1_000_000;

/// The disk call of a run that fails.
#[derive(Clone, Copy)]
pub struct FailingCall {
    /// The kind of call.
    pub kind: DiskFault,
    /// Which call of this kind, counted from 1 to [`LAST_FAILING_CALL`].
    pub number: u32,
}

// Returns the failing call at the key `fail`: `Some(None)` if the key is missing, `None` if the value is not a call.
pub(crate) fn fail_in(table: &Table) -> Option<Option<FailingCall>>
    ensures { result ≡ fail_in (table_view table.now) }
{
    match value_at(table, "fail") {
        Some(value) => Some(Some(call_in(value.as_str()?)?)),
        None => Some(None),
    }
}

// Returns the call that a text names: its kind, a space and its number.
fn call_in(text: &str) -> Option<FailingCall>
    ensures { result ≡ call_in text.now }
{
    let (word, digits) = text.split_once(' ')?;
    Some(FailingCall {
        kind: kind_of(word)?,
        number: number_in(digits)?,
    })
}

fn kind_of(word: &str) -> Option<DiskFault>
    ensures { result ≡ kind_of word.now }
{
    match word {
        "read" => Some(DiskFault::Read),
        "write" => Some(DiskFault::Write),
        "sync" => Some(DiskFault::Sync),
        _ => None,
    }
}

// Returns the number of 1 to 1,000,000 that digits write, without sign or leading zero.
fn number_in(digits: &str) -> Option<u32>
    ensures { result ≡ number_in digits.now }
{
    if !has_first_digit(digits) {
        return None;
    }
    let number = digits.parse().ok()?;
    if LAST_FAILING_CALL < number {
        return None;
    }
    Some(number)
}

// Returns whether a text begins with a digit of 1 to 9.
fn has_first_digit(text: &str) -> bool
    ensures { result ≡ has_first_digit text.now }
{
    matches!(text.as_bytes().first(), Some(b'1'..=b'9'))
}
