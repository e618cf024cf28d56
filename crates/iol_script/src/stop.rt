//! The stop that ends a script.
ghost use Rattle.std.specs.Prelude.{◌≡◌};
ghost use Rattle.toml.specs.View.{view, table_view};
ghost use Rattle.iol_script.specs.Stop.{stop_in, stop_of};

use crate::table::{has_only_keys, text_at};
use iol_disk::Pick;
use toml::{Table, Value};

// Reads what a stop keeps from a value: `{ do = "stop", keep = ".." }`.
pub(crate) fn read_stop(value: &Value) -> Option<Pick>
    ensures { result ≡ stop_of (view value.now) }
{
    let table = value.as_table()?;
    match text_at(table, "do")? {
        "stop" => stop_in(table),
        _ => None,
    }
}

fn stop_in(table: &Table) -> Option<Pick>
    ensures { result ≡ stop_in (table_view table.now) }
{
    if !has_only_keys(table, &["do", "keep"]) {
        return None;
    }
    match text_at(table, "keep")? {
        "old" => Some(Pick::Old),
        "new" => Some(Pick::New),
        "zero" => Some(Pick::Zero),
        "pattern" => Some(Pick::Pattern),
        _ => None,
    }
}
