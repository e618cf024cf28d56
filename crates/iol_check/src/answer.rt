//! The answer to a text.
ghost use Rattle.std.specs.Prelude.{◌≡◌, IfOk, Some, string_bytes};
ghost use Rattle.iol_script.specs.Script.{said_in, said_of};
ghost use Rattle.iol_check.specs.Answer.{IsAnswer};
ghost use Rattle.iol_check.specs.Fine.{TellsFine};

use crate::fine::fine_line;
use crate::listing::mistakes_of;
use crate::notes::notes_of;
use iol_commands::{Fault, read_playable};
use iol_script::Script;
use std::alloc::{AllocError, Global};

// The answer to a text: the lines that are printed for it.
#[derive(Drop)]
pub enum CheckAnswer {
    // The text can be run: its line, and notes.
    Fine(String),
    // The text cannot be run: a line for each mistake.
    Mistakes(String),
}

// Returns the answer to a text. The same call that a run makes decides whether it can be run.
pub(crate) fn answer_to(alloc: Global, text: &[u8]) -> Result<CheckAnswer, AllocError>
    ensures { IfOk result (IsAnswer text.now) }
{
    match read_playable(alloc, text) {
        Ok(playable) => Ok(CheckAnswer::Fine(fine_text(alloc, text, &playable.script)?)),
        Err(Fault::Script | Fault::Geometry) => Ok(CheckAnswer::Mistakes(mistakes_of(
            alloc, text,
        )?)),
        // No other fault is a fault of the text.
        Err(_) => Err(AllocError),
    }
}

// Returns the line of the script of a text, and the notes on it.
fn fine_text(alloc: Global, text: &[u8], script: &Script) -> Result<String, AllocError>
    requires { said_in text.now ≡ Some (said_of script.now) }
    ensures { IfOk result (λ printed. TellsFine text.now (string_bytes printed)) }
{
    let mut printed = fine_line(alloc, script)?;
    let notes = notes_of(alloc, text, script)?;
    printed.push_str(notes.as_str())?;
    Ok(printed)
}
