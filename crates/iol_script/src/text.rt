//! Reads the text of a script as a table of TOML (docs/FORMATS.md, "Scripts").
ghost use Rattle.std.specs.Prelude.{◌≡◌, None, Some, IfOk, OnOk};
ghost use Rattle.toml.specs.Parse.{parse_document};
ghost use Rattle.toml.specs.View.{table_view};
ghost use Rattle.iol_script.specs.Script.{IsText};

use crate::script::{SCRIPT_OCTETS, ScriptFault};
use std::alloc::Global;
use std::str;
use toml::Table;

// Reads the table in a text of at most 65,536 octets.
//
// # Errors
// `NotValid` if the text is too long, not UTF-8 or not TOML; `Memory` if reading the text runs out of memory.
pub(crate) fn read_table(alloc: Global, text: &[u8]) -> Result<Table, ScriptFault>
    ensures text { OnOk result (IsText text.now) }
    ensures table { IfOk result (λ table. parse_document text.now ≡ Some (table_view table)) }
    ensures not_valid { result ≡ Err ScriptFault.NotValid → IsText text.now → parse_document text.now ≡ None }
    ensures memory { result ≡ Err ScriptFault.Memory → IsText text.now }
{
    if SCRIPT_OCTETS < text.len() {
        return Err(ScriptFault::NotValid);
    }
    let Ok(text) = str::from_utf8(text) else {
        return Err(ScriptFault::NotValid);
    };
    match toml::table_from_str(alloc, text) {
        Ok(table) => Ok(table),
        Err(error) if error.is_memory() => Err(ScriptFault::Memory),
        Err(_) => Err(ScriptFault::NotValid),
    }
}
