//! The lines of a text that cannot be run.
ghost use Rattle.std.specs.Prelude.{◌<◌, IfOk, string_len};

use crate::mistakes::write_mistakes;
use std::alloc::{AllocError, Global};

// The line of a text that cannot be run though no mistake was found in it.
const NOT_FOUND: &str = "line 1, column 1: script: not valid\n";

// Returns the lines of the mistakes of a text that cannot be run: at least one.
pub(crate) fn mistakes_of(alloc: Global, text: &[u8]) -> Result<String, AllocError>
    ensures { IfOk result (λ lines. 0 < string_len lines) }
{
    let mut lines = String::new(alloc);
    write_mistakes(alloc, text, &mut lines)?;
    if lines.is_empty() {
        lines.push_str(NOT_FOUND)?;
        return Ok(lines);
    }
    Ok(lines)
}
