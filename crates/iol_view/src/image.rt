//! The state on an image file, shown as JSON.
ghost use Rattle.std.specs.Prelude.{◌≡◌, ◌≤◌, ◌⊎◌, IfErr, IfOk, ℕ, List, Some, string_bytes};
ghost use Rattle.std.specs.Io.KnownBytes.{Appends};
ghost use Rattle.iol_journal.specs.Meaning.{standing_in};
ghost use Rattle.iol_disk.specs.Disk.{Shows};
ghost use Rattle.iol_types.specs.State.{State};
ghost use Rattle.iol_commands.specs.Fault.{status_of};
ghost use Rattle.iol_commands.specs.Images.{TellsWhy};
ghost use Rattle.iol_view.specs.Json.{IsSomeState, ReadsAs, TellsStateAsJson};

use iol_commands::{Fault, Shown, opened, print, report, show_disk};
use iol_disk::{LockFile, SectorDisk};
use iol_json::json_text;
use iol_texts::Recovered;
use std::alloc::Global;
use std::fs::OpenFile;
use std::io::Write;
use std::os::unix::fs::FileExt;
use std::rt::Files;

/// Recovers the state on the image file at `path`, and returns the exit status: 0 if the state is written to `out` as one JSON
/// object, and 1 otherwise. If the recovery fails, a line on `err` says why, and nothing is written to `out`. If writing to
/// `out` fails, nothing is written to `err`.
pub fn json_image<
    F: FileExt + OpenFile + LockFile + Drop,
    R: Files<File = F> + AllocGlobal,
    W: Write,
    E: Write,
>(rt: &R, path: &str, out: &mut W, err: &mut E) -> u8
    ensures statuses { result ≤ 1 }
    ensures one_writer { (out.new ≡ out.old) ⊎ (err.new ≡ err.old) }
    ensures quiet { result ≡ 0 → err.new ≡ err.old }
    ensures printed { result ≡ 0 → (text : List ℕ) × IsSomeState text × Appends (W.contents out.old) (W.contents out.new) text }
{
    match text_of_image(rt, path) {
        Ok(text) => print(out, text.as_bytes()),
        Err(fault) => report(err, &fault),
    }
}

// Returns the text that is printed for the state on an image file.
fn text_of_image<'a, F: FileExt + OpenFile + LockFile + Drop, R: Files<File = F> + AllocGlobal>(
    rt: &R,
    path: &'a str,
) -> Result<String, Fault<'a>>
    ensures text { IfOk result (λ text. IsSomeState (string_bytes text)) }
    ensures status { IfErr result (λ fault. status_of fault ≡ 1) }
{
    json_of_disk(rt.alloc(), opened(rt, path)?)
}

/// Returns the text that is printed for the state on a disk.
///
/// # Errors
/// Those of `iol_commands::show_disk`, then `Memory` for the text.
pub fn json_of_disk<D: SectorDisk + Drop>(alloc: Global, disk: D) -> Result<String, Fault<'static>>
    ensures text { IfOk result (λ text. TellsStateAsJson (D.disk disk) (string_bytes text)) }
    ensures cause { IfErr result (λ fault. Shows (D.disk disk) (λ image. TellsWhy (standing_in (D.disk disk).sectors image) fault)) }
    ensures status { IfErr result (λ fault. status_of fault ≡ 1) }
{
    let Shown { recovered, disk: _ } = show_disk(alloc, disk);
    match recovered {
        Ok(recovered) => json_of(alloc, &recovered),
        Err(fault) => Err(fault),
    }
}

// Returns the text that is printed for a recovered state.
fn json_of(alloc: Global, recovered: &Recovered) -> Result<String, Fault<'static>>
    ensures text { IfOk result (λ text. ReadsAs recovered.now.number recovered.now.state (string_bytes text)) }
    ensures cause { IfErr result (λ fault. fault ≡ Fault.Memory) }
{
    let mut text = json_text(alloc, recovered.number, &recovered.state)?;
    text.push('\n')?;
    Ok(text)
}
