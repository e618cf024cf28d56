//! The command `live`, over a writer for its output, and one for receipts and faults.
ghost use Rattle.std.specs.Prelude.{◌≡◌, ◌≤◌, ℕ, List, IfErr, IfOk, None, string_bytes};
ghost use Rattle.std.specs.Io.KnownBytes.{Appends};
ghost use Rattle.iol_script.specs.LiveScript.{live_in};
ghost use Rattle.iol_script.specs.Script.{IsText};
ghost use Rattle.iol_live.specs.Lived.{IsScriptCause, IsSilent, TellsRun};

use crate::running::live_on_disk;
use crate::telling::Telling;
use iol_commands::{Fault, opened, print, report};
use iol_disk::LockFile;
use iol_script::LiveScript;
use std::fs::OpenFile;
use std::io::Write;
use std::os::unix::fs::FileExt;
use std::rt::Files;
use std::sync::Wait;
use std::thread::Threads;
use std::time::Clock;

/// Runs a master on the image file at `path`, with the devices and the clients of a script, and returns the exit status. It is
/// 0 once the number of receipts and the recovered state are written to `out`, 2 if the script is not valid, and otherwise 1.
///
/// If the command fails, a line on `err` says why, and nothing is written to `out`. If writing to `out` fails, nothing is
/// written to `err` after the reports of receipts. The command handles no signal: a program that is killed is a power stop, and
/// the image then holds each change whose receipt was reported.
pub fn live_image<
    F: FileExt + OpenFile + LockFile + Drop + Send + 'static,
    R: Files<File = F> + AllocGlobal + Threads + Wait + Clock + Copy + Send + 'static,
    W: Write,
    E: Write,
>(rt: &R, path: &str, script: &[u8], telling: Telling, out: &mut W, err: &mut E) -> u8
    ensures statuses { result ≤ 2 }
    ensures not_valid { result ≡ 2 → IsText script.now → live_in script.now ≡ None }
    ensures untouched { result ≡ 2 → out.new ≡ out.old }
    ensures printed { result ≡ 0 → (text : List ℕ) × TellsRun script.now text × Appends (W.contents out.old) (W.contents out.new) text }
    // Otherwise a fault is why, and nothing is written to `out`; or the status is 1, as when writing to `out` failed.
    ensures silent { (result ≡ 0 → ⊥) → IsSilent script.now result out.old out.new }
    ensures quiet { telling ≡ Telling.Nothing → result ≡ 0 → err.new ≡ err.old }
{
    match text_of_live(rt, path, script, telling, err) {
        Ok(text) => print(out, text.as_bytes()),
        Err(fault) => report(err, &fault),
    }
}

// Returns the text to print. The script is checked before the image is opened.
fn text_of_live<
    'a,
    F: FileExt + OpenFile + LockFile + Drop + Send + 'static,
    R: Files<File = F> + AllocGlobal + Threads + Wait + Clock + Copy + Send + 'static,
    E: Write,
>(rt: &R, path: &'a str, script: &[u8], telling: Telling, err: &mut E) -> Result<String, Fault<'a>>
    ensures printed { IfOk result (λ text. TellsRun script.now (string_bytes text)) }
    ensures silent { telling ≡ Telling.Nothing → err.new ≡ err.old }
    ensures cause { IfErr result (IsScriptCause script.now) }
{
    let script = LiveScript::read(rt.alloc(), script)?;
    let disk = opened(rt, path)?;
    live_on_disk(rt, rt.alloc(), disk, &script, telling, err)
}
