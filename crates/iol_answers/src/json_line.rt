//! A JSON value on one line.
ghost use Rattle.std.specs.Prelude.{◌≡◌, ◌≤◌, false, IfOk, string_bytes};
ghost use Rattle.serde_json.specs.Data.{depth};
ghost use Rattle.serde_json.specs.Read.{max_depth};
ghost use Rattle.serde_json.specs.View.{view};
ghost use Rattle.serde_json.specs.Written.{has_float};
ghost use Rattle.iol_answers.specs.JsonLines.{IsJsonLine};

use serde_json::Value;
use std::alloc::{AllocError, Global};

// The line of a value, which has no float and nests no deeper than a reader accepts.
pub(crate) fn json_line(alloc: Global, value: &Value) -> Result<String, AllocError>
    requires plain { has_float (view value.now) ≡ false }
    requires shallow { depth (view value.now) ≤ max_depth }
    ensures { IfOk result (λ text. IsJsonLine (view value.now) (string_bytes text)) }
{
    let mut text = value.to_string(alloc)?;
    text.push('\n')?;
    Ok(text)
}
