//! The command `check`, over a writer for its output and one for its faults.
ghost use Rattle.std.specs.Prelude.{◌≡◌, ◌<◌, ◌≤◌, ◌⊎◌, ℕ, List, length};
ghost use Rattle.std.specs.Io.KnownBytes.{Appends};
ghost use Rattle.iol_commands.specs.Runs.{CanRun};
ghost use Rattle.iol_check.specs.Fine.{TellsFine};

use crate::answer::{CheckAnswer, answer_to};
use iol_commands::{Fault, print, report};
use std::alloc::Global;
use std::io::Write;

/// Writes to `out` what is wrong in a script, and where, and returns the exit status: 0 if the script can be run, 2 if it
/// cannot, and 1 if memory runs out or writing to `out` fails (docs/FORMATS.md, "Check").
///
/// For a script that can be run, a line is written, and notes after it; for any other, a line for each mistake, in the order of
/// the text. If memory runs out, a line on `err` says so, and nothing is written to `out`. If writing to `out` fails,
/// nothing is written to `err`.
pub fn check_text<W: Write, E: Write>(alloc: Global, script: &[u8], out: &mut W, err: &mut E) -> u8
    ensures statuses { result ≤ 2 }
    ensures one_writer { (out.new ≡ out.old) ⊎ (err.new ≡ err.old) }
    ensures fine { result ≡ 0 → CanRun script.now }
    ensures mistaken { result ≡ 2 → CanRun script.now → ⊥ }
    ensures quiet { (result ≡ 1 → ⊥) → err.new ≡ err.old }
    ensures printed { result ≡ 0 → (text : List ℕ) × TellsFine script.now text × Appends (W.contents out.old) (W.contents out.new) text }
    // Lines are written for a script that cannot be run, too; tests cover which mistakes they report.
    ensures listed { result ≡ 2 → (text : List ℕ) × (0 < length text) × Appends (W.contents out.old) (W.contents out.new) text }
{
    match answer_to(alloc, script) {
        Ok(CheckAnswer::Fine(text)) => print(out, text.as_bytes()),
        Ok(CheckAnswer::Mistakes(lines)) => print_mistakes(out, lines.as_bytes()),
        Err(_) => report(err, &Fault::Memory),
    }
}

// Writes the lines of mistakes, and returns the exit status: 2, or 1 if writing fails.
fn print_mistakes<W: Write>(out: &mut W, lines: &[u8]) -> u8
    ensures status { (result ≡ 2) ⊎ (result ≡ 1) }
    ensures written { result ≡ 2 → Appends (W.contents out.old) (W.contents out.new) lines.now }
{
    match print(out, lines) {
        0 => 2,
        _ => 1,
    }
}
