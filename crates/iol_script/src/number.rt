//! The numbers in a script.
ghost use Rattle.std.specs.Prelude.{◌≡◌, ◌^◌};
ghost use Rattle.toml.specs.View.{view, table_view};
ghost use Rattle.iol_script.specs.Number.{number_of, number_below, port_in, vendor_in, device_in, octet_or, calls_at, times_in};

use crate::table::{integer_at, value_at};
use iol_types::{DeviceId, PortId};
use toml::{Table, Value};

/// The greatest number of times that one step is made.
pub const MOST_TIMES: u16 = 10_000;

/// Returns the port of a step or a device, at the key `port`: a whole number of 1 to 32.
pub fn port_in(table: &Table) -> Option<PortId>
    ensures { result ≡ port_in (table_view table.now) }
{
    PortId::new(octet_at(table, "port")?)
}

/// Returns the VendorID at the key `vendor`: a whole number of 0 to 65,535.
pub fn vendor_in(table: &Table) -> Option<u16>
    ensures { result ≡ vendor_in (table_view table.now) }
{
    u16::try_from(integer_at(table, "vendor")?).ok()
}

/// Returns the DeviceID at the key `device`: a whole number of 0 to 16,777,215.
pub fn device_in(table: &Table) -> Option<DeviceId>
    ensures { result ≡ device_in (table_view table.now) }
{
    DeviceId::new(u32::try_from(integer_at(table, "device")?).ok()?)
}

// Returns the whole number of 0 to 255 at a key.
pub(crate) fn octet_at(table: &Table, key: &str) -> Option<u8>
    ensures { result ≡ number_below (2 ^ 8) key.now (table_view table.now) }
{
    u8::try_from(integer_at(table, key)?).ok()
}

// Returns the whole number of 0 to 255 at a key, or `absent` if the key is missing.
pub(crate) fn octet_or(table: &Table, key: &str, absent: u8) -> Option<u8>
    ensures { result ≡ octet_or absent key.now (table_view table.now) }
{
    match value_at(table, key) {
        Some(value) => octet_of(value),
        None => Some(absent),
    }
}

// Returns the whole number of 0 to 255 in a value.
pub(crate) fn octet_of(value: &Value) -> Option<u8>
    ensures { result ≡ number_of (2 ^ 8) (view value.now) }
{
    u8::try_from(value.as_integer()?).ok()
}

// Returns the whole number of 0 to 65,535 in a value.
pub(crate) fn word_of(value: &Value) -> Option<u16>
    ensures { result ≡ number_of (2 ^ 16) (view value.now) }
{
    u16::try_from(value.as_integer()?).ok()
}

// Returns the number of calls at a key, a whole number from 0 on: `Some(None)` if the key is missing, `None` if the value is no
// such number.
pub(crate) fn calls_at(table: &Table, key: &str) -> Option<Option<u64>>
    ensures { result ≡ calls_at key.now (table_view table.now) }
{
    match value_at(table, key) {
        Some(value) => Some(Some(count_of(value)?)),
        None => Some(None),
    }
}

// Returns the whole number from 0 on in a value.
fn count_of(value: &Value) -> Option<u64>
    ensures { result ≡ number_of (2 ^ 63) (view value.now) }
{
    u64::try_from(value.as_integer()?).ok()
}

// Returns the number of times that a step is made, at the key `times`: 1 to 10,000, or 1 if the key is missing.
pub(crate) fn times_in(table: &Table) -> Option<u16>
    ensures { result ≡ times_in (table_view table.now) }
{
    let Some(value) = value_at(table, "times") else {
        return Some(1);
    };
    let times = word_of(value)?;
    if 1 <= times && times <= MOST_TIMES {
        Some(times)
    } else {
        None
    }
}
