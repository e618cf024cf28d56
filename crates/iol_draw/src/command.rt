//! The command that draws the run of a script.
ghost use Rattle.std.specs.Prelude.{◌≡◌, ◌≤◌, ◌⊎◌, ℕ, List, IfErr, IfOk, OnOk, length, string_bytes};
ghost use Rattle.std.specs.Io.KnownBytes.{Appends};
ghost use Rattle.iol_commands.specs.Runs.{CanRun, IsCause, IsSilentOver};
ghost use Rattle.iol_draw.specs.Drawn.{TellsDrawn, drawn_text};

use crate::numbers::numbers_of;
use crate::picture::picture_of;
use crate::stop_text::Numbers;
use iol_commands::{Fault, print, read_playable, report, write_picture};
use iol_disk::LockFile;
use iol_explain::{Explained, explained_run};
use iol_script::Script;
use std::alloc::{AllocError, Global};
use std::fs::OpenFile;
use std::io::Write;
use std::os::unix::fs::FileExt;
use std::rt::Files;

/// Draws the run of the script of this name in SVG into the file at `picture`, which is created if there is none. Then writes a line
/// to `out` (docs/FORMATS.md, "Pictures of runs"), and returns the exit status: 0 once that is done; 2 if the script or its geometry
/// is not valid, and otherwise 1.
///
/// If the script is not valid, the run fails, memory runs out, or the picture cannot be opened, created or written, or is in use, a
/// line on `err` says why, and nothing is written to `out`. If writing to `out` fails, nothing is written to `err`.
pub fn draw_text<
    F: FileExt + OpenFile + LockFile + Drop,
    R: Files<File = F> + AllocGlobal,
    W: Write,
    E: Write,
>(rt: &R, name: &str, script: &[u8], picture: &str, out: &mut W, err: &mut E) -> u8
    ensures statuses { result ≤ 2 }
    ensures one_writer { (out.new ≡ out.old) ⊎ (err.new ≡ err.old) }
    ensures ran { result ≡ 0 → CanRun script.now }
    ensures quiet { result ≡ 0 → err.new ≡ err.old }
    ensures not_valid { result ≡ 2 → CanRun script.now → ⊥ }
    ensures untouched { result ≡ 2 → out.new ≡ out.old }
    ensures printed { result ≡ 0
        → (text : List ℕ) × TellsDrawn script.now text × Appends (W.contents out.old) (W.contents out.new) text }
    // Otherwise a fault is why, and nothing is written to `out`; or writing to `out` failed.
    ensures silent { (result ≡ 0 → ⊥) → IsSilentOver TellsDrawn script.now result out.old out.new err.old err.new }
{
    match draw(rt, name, script, picture) {
        Ok(line) => print(out, line.as_bytes()),
        Err(fault) => report(err, &fault),
    }
}

// Draws the run of a script into the file at `picture`, and returns the line to print. All memory is allocated before the file is
// opened.
fn draw<'a, F: FileExt + OpenFile + LockFile + Drop, R: Files<File = F> + AllocGlobal>(
    rt: &R,
    name: &str,
    script: &[u8],
    picture: &'a str,
) -> Result<String, Fault<'a>>
    ensures ran { OnOk result (CanRun script.now) }
    ensures printed { IfOk result (λ text. TellsDrawn script.now (string_bytes text)) }
    ensures cause { IfErr result (IsCause script.now) }
{
    let Drawn {
        line,
        picture: text,
    } = drawn_run(rt.alloc(), name, script)?;
    write_picture(rt, picture, text.as_str())?;
    Ok(line)
}

// The line that is printed for a picture, and the picture.
#[derive(Drop)]
struct Drawn {
    line: String,
    picture: String,
}

// Makes the run of a script, and draws it.
fn drawn_run(alloc: Global, name: &str, script: &[u8]) -> Result<Drawn, Fault<'static>>
    ensures ran { OnOk result (CanRun script.now) }
    ensures printed { IfOk result (λ drawn. TellsDrawn script.now (string_bytes drawn.line)) }
    ensures cause { IfErr result (IsCause script.now) }
{
    let ready = read_playable(alloc, script)?;
    let explained = explained_run(alloc, ready.geometry, &ready.script)?;
    let numbers = numbers_of(alloc, ready.geometry, &ready.script)?;
    drawing_of(alloc, name, &explained, &ready.script, numbers)
}

// Makes the picture of a script's run, and the line to print.
fn drawing_of(
    alloc: Global,
    name: &str,
    explained: &Explained,
    script: &Script,
    numbers: Numbers,
) -> Result<Drawn, Fault<'static>>
    ensures printed { IfOk result (λ drawn. string_bytes drawn.line ≡ drawn_text (length explained.now.events.items)) }
    ensures cause { IfErr result (λ fault. fault ≡ Fault.Memory) }
{
    Ok(Drawn {
        line: line_of(alloc, explained.events.len())?,
        picture: picture_of(alloc, name, explained, script, numbers)?,
    })
}

// Returns the line that is printed for a picture of this number of events.
fn line_of(alloc: Global, events: usize) -> Result<String, AllocError>
    ensures { IfOk result (λ text. string_bytes text ≡ drawn_text events) }
{
    format!(in alloc; "drawn {events} events\n")
}
