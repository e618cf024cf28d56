//! The program's commands on image files, over a writer for their output and one for their faults.
ghost use Rattle.std.specs.Prelude.{◌≡◌, ◌≤◌, ◌⊎◌, ◌↔◌, ℕ, IfErr, IfOk, OnOk, string_bytes};
ghost use Rattle.std.specs.Io.KnownBytes.{Appends};
ghost use Rattle.iol_journal.specs.Geometry.{IsGeometry};
ghost use Rattle.iol_commands.specs.Fault.{status_of};
ghost use Rattle.iol_commands.specs.Images.{IsFormatCause, formatted_text};
ghost use Rattle.iol_texts.specs.Recovered.{recovered_text};
ghost use Rattle.iol_types.specs.State.{State};

use crate::commands::{print, report};
use crate::fault::Fault;
use crate::image::{format_disk, opened, opened_or_made, text_of_disk};
use iol_disk::LockFile;
use iol_journal::Geometry;
use std::fs::OpenFile;
use std::io::Write;
use std::os::unix::fs::FileExt;
use std::rt::Files;

/// Formats the image file at `path` for this number of ports and slots, and returns the exit status. It is 0 if the number
/// of sectors that the journal takes is written to `out`, 2 if the numbers are not a geometry, and 1 otherwise.
///
/// If the format fails, a line on `err` says why, and nothing is written to `out`. If writing to `out` fails, nothing is
/// written to `err`. A missing file is made, with the number of sectors that the geometry has. An existing journal is kept,
/// unless `force` has it erased first.
pub fn format_image<
    F: FileExt + OpenFile + LockFile + Drop,
    R: Files<File = F> + AllocGlobal,
    W: Write,
    E: Write,
>(rt: &R, path: &str, ports: u16, slots: u16, force: bool, out: &mut W, err: &mut E) -> u8
    ensures statuses { result ≤ 2 }
    ensures one_writer { (out.new ≡ out.old) ⊎ (err.new ≡ err.old) }
    ensures geometry { (result ≡ 2) ↔ (IsGeometry (record { ports = ports; slots = slots }) → ⊥) }
    ensures quiet { result ≡ 0 → err.new ≡ err.old }
    ensures untouched { result ≡ 2 → out.new ≡ out.old }
    ensures printed { result ≡ 0
        → Appends (W.contents out.old) (W.contents out.new) (formatted_text (record { ports = ports; slots = slots })) }
{
    match text_of_format(rt, path, ports, slots, force) {
        Ok(text) => print(out, text.as_bytes()),
        Err(fault) => report(err, &fault),
    }
}

// Formats the image file, and returns what is printed. The numbers are checked before the file is opened or made.
fn text_of_format<'a, F: FileExt + OpenFile + LockFile + Drop, R: Files<File = F> + AllocGlobal>(
    rt: &R,
    path: &'a str,
    ports: u16,
    slots: u16,
    force: bool,
) -> Result<String, Fault<'a>>
    ensures geometry { OnOk result (IsGeometry (record { ports = ports; slots = slots })) }
    ensures text { IfOk result (λ text. string_bytes text ≡ formatted_text (record { ports = ports; slots = slots })) }
    ensures cause { IfErr result (IsFormatCause (record { ports = ports; slots = slots })) }
{
    let geometry = Geometry::new(ports, slots).ok_or(Fault::Geometry)?;
    format_file(rt, path, geometry, force)
}

// Opens or makes the image file at this path, formats it, and returns what is printed.
fn format_file<'a, F: FileExt + OpenFile + LockFile + Drop, R: Files<File = F> + AllocGlobal>(
    rt: &R,
    path: &'a str,
    geometry: Geometry,
    force: bool,
) -> Result<String, Fault<'a>>
    ensures text { IfOk result (λ text. string_bytes text ≡ formatted_text geometry) }
    ensures status { IfErr result (λ fault. status_of fault ≡ 1) }
{
    let mut disk = opened_or_made(rt, path, geometry.sectors())?;
    format_disk(rt.alloc(), &mut disk, geometry, force)
}

/// Recovers the state on the image file at `path`, and returns the exit status: 0 if the state is written to `out`, and
/// 1 otherwise. If the recovery fails, a line on `err` says why, and nothing is written to `out`. If writing to `out`
/// fails, nothing is written to `err`.
pub fn show_image<
    F: FileExt + OpenFile + LockFile + Drop,
    R: Files<File = F> + AllocGlobal,
    W: Write,
    E: Write,
>(rt: &R, path: &str, out: &mut W, err: &mut E) -> u8
    ensures statuses { result ≤ 1 }
    ensures one_writer { (out.new ≡ out.old) ⊎ (err.new ≡ err.old) }
    ensures quiet { result ≡ 0 → err.new ≡ err.old }
    ensures printed { result ≡ 0 → (number : ℕ) × (state : State)
        × Appends (W.contents out.old) (W.contents out.new) (recovered_text number state) }
{
    match text_of_show(rt, path) {
        Ok(text) => print(out, text.as_bytes()),
        Err(fault) => report(err, &fault),
    }
}

// Returns the text of the state on an image file.
fn text_of_show<'a, F: FileExt + OpenFile + LockFile + Drop, R: Files<File = F> + AllocGlobal>(
    rt: &R,
    path: &'a str,
) -> Result<String, Fault<'a>>
    ensures text { IfOk result (λ text. (number : ℕ) × (state : State) × (string_bytes text ≡ recovered_text number state)) }
    ensures status { IfErr result (λ fault. status_of fault ≡ 1) }
{
    text_of_disk(rt.alloc(), opened(rt, path)?)
}
