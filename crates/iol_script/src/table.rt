//! What a TOML table holds at its keys.
ghost use Rattle.std.specs.Prelude.{◌≡◌, map, option_map};
ghost use Rattle.toml.specs.Data.{get_member};
ghost use Rattle.toml.specs.View.{view, items_view, table_view};
ghost use Rattle.iol_script.specs.Table.{has_only_keys, is_among, integer_at, text_at, values_at, truth_or};

use toml::{Table, Value};

/// Returns whether the table has only these keys.
pub fn has_only_keys(table: &Table, keys: &[&str]) -> bool
    ensures { result ≡ has_only_keys (map (λ key. key.now) keys.now) (table_view table.now) }
{
    for key in table.keys() {
        if !is_among(key.as_str(), keys) {
            return false;
        }
    }
    true
}

fn is_among(key: &str, keys: &[&str]) -> bool
    ensures { result ≡ is_among (map (λ key. key.now) keys.now) key.now }
{
    keys.contains(&key)
}

/// Returns the value at a key, if there is one.
pub fn value_at<'a>(table: &'a Table, key: &str) -> Option<&'a Value>
    ensures { option_map (λ value. view value.now) result ≡ get_member key.now (table_view table.now) }
{
    table.get(key)
}

/// Returns the text at a key, if there is one.
pub fn text_at<'a>(table: &'a Table, key: &str) -> Option<&'a str>
    ensures { option_map (λ text. text.now) result ≡ text_at key.now (table_view table.now) }
{
    value_at(table, key)?.as_str()
}

// Returns the whole number at a key, if there is one. A float or a boolean does not count as one.
pub(crate) fn integer_at(table: &Table, key: &str) -> Option<i64>
    ensures { result ≡ integer_at key.now (table_view table.now) }
{
    value_at(table, key)?.as_integer()
}

// Returns the values of the array at a key: empty if the key is missing, `None` if the value is not an array.
pub(crate) fn values_at<'a>(table: &'a Table, key: &str) -> Option<&'a [Value]>
    ensures { option_map (λ values. items_view values.now) result ≡ values_at key.now (table_view table.now) }
{
    match value_at(table, key) {
        Some(value) => Some(value.as_array()?.as_slice()),
        None => Some(&[]),
    }
}

// Returns the boolean at a key, or `absent` if the key is missing; `None` if the value is not a boolean.
pub(crate) fn truth_or(table: &Table, key: &str, absent: bool) -> Option<bool>
    ensures { result ≡ truth_or absent key.now (table_view table.now) }
{
    match value_at(table, key) {
        Some(value) => value.as_bool(),
        None => Some(absent),
    }
}
