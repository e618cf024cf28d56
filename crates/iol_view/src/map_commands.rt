//! An image file's sectors as a map: as text, and as a picture.
ghost use Rattle.std.specs.Prelude.{◌≡◌, ◌≤◌, ◌⊎◌, IfErr, IfOk, ℕ, List, string_bytes};
ghost use Rattle.std.specs.Io.KnownBytes.{Appends};
ghost use Rattle.iol_commands.specs.Fault.{status_of};
ghost use Rattle.iol_view.specs.Map.{IsMapCause, IsSomeMap, TellsMap, mapped_text};

use crate::map_disk::{Mapped, map_disk};
use crate::map_drawing::Drawing;
use iol_commands::{Fault, opened, print, report, write_picture};
use iol_disk::{LockFile, SectorDisk};
use std::alloc::{AllocError, Global};
use std::fs::OpenFile;
use std::io::Write;
use std::os::unix::fs::FileExt;
use std::rt::Files;

/// Writes a map of the image file at `path` to `out` (docs/FORMATS.md, "Maps"), and returns the exit status: 0 if that is done,
/// whatever the file holds, and 1 otherwise. Nothing is written to the file.
///
/// If the file cannot be opened, is in use or cannot be read, or memory runs out, a line on `err` says so, and nothing is
/// written to `out`. If writing to `out` fails, nothing is written to `err`.
pub fn map_image<
    F: FileExt + OpenFile + LockFile + Drop,
    R: Files<File = F> + AllocGlobal,
    W: Write,
    E: Write,
>(rt: &R, path: &str, out: &mut W, err: &mut E) -> u8
    ensures statuses { result ≤ 1 }
    ensures one_writer { (out.new ≡ out.old) ⊎ (err.new ≡ err.old) }
    ensures quiet { result ≡ 0 → err.new ≡ err.old }
    ensures printed { result ≡ 0 → (text : List ℕ) × IsSomeMap text × Appends (W.contents out.old) (W.contents out.new) text }
{
    match text_of_map(rt, path) {
        Ok(map) => print(out, map.as_bytes()),
        Err(fault) => report(err, &fault),
    }
}

/// Draws the map of the image file at `path` in SVG into the file at `picture`, which is made if there is none. Writes a line
/// to `out`, and returns the exit status: 0 if that is done, and 1 otherwise. Nothing is written to the image file, even if
/// `picture` is another name of it.
///
/// The faults are those of [`map_image`], and that the picture cannot be opened, made or written, or is in use.
pub fn draw_map<
    F: FileExt + OpenFile + LockFile + Drop,
    R: Files<File = F> + AllocGlobal,
    W: Write,
    E: Write,
>(rt: &R, path: &str, picture: &str, out: &mut W, err: &mut E) -> u8
    ensures statuses { result ≤ 1 }
    ensures one_writer { (out.new ≡ out.old) ⊎ (err.new ≡ err.old) }
    ensures quiet { result ≡ 0 → err.new ≡ err.old }
    ensures printed { result ≡ 0 → (sectors : ℕ) × Appends (W.contents out.old) (W.contents out.new) (mapped_text sectors) }
{
    match draw(rt, path, picture) {
        Ok(line) => print(out, line.as_bytes()),
        Err(fault) => report(err, &fault),
    }
}

// Returns the text that is printed for a map of the image file at this path.
fn text_of_map<'a, F: FileExt + OpenFile + LockFile + Drop, R: Files<File = F> + AllocGlobal>(
    rt: &R,
    path: &'a str,
) -> Result<String, Fault<'a>>
    ensures text { IfOk result (λ text. IsSomeMap (string_bytes text)) }
    ensures status { IfErr result (λ fault. status_of fault ≡ 1) }
{
    map_of_disk(rt.alloc(), opened(rt, path)?)
}

/// Returns the map of a disk as text.
///
/// # Errors
/// `Disk` if a disk call fails, or `Memory` if memory runs out.
pub fn map_of_disk<D: SectorDisk + Drop>(alloc: Global, disk: D) -> Result<String, Fault<'static>>
    ensures text { IfOk result (λ text. TellsMap (D.disk disk) (string_bytes text)) }
    // Whatever is on the disk, it has a map.
    ensures cause { IfErr result IsMapCause }
    ensures status { IfErr result (λ fault. status_of fault ≡ 1) }
{
    let Mapped { map, disk: _ } = map_disk(alloc, disk);
    let map = map?;
    let text = map.to_string(alloc)?;
    Ok(text)
}

// Draws the map of the image file at `path` into the file at `picture`, and returns what is printed.
fn draw<'a, F: FileExt + OpenFile + LockFile + Drop, R: Files<File = F> + AllocGlobal>(
    rt: &R,
    path: &'a str,
    picture: &'a str,
) -> Result<String, Fault<'a>>
    ensures text { IfOk result (λ text. (sectors : ℕ) × (string_bytes text ≡ mapped_text sectors)) }
    ensures status { IfErr result (λ fault. status_of fault ≡ 1) }
{
    draw_disk(rt, opened(rt, path)?, name_of(path), picture)
}

// Returns the last part of a path.
fn name_of(path: &str) -> &str {
    match path.rsplit_once('/') {
        Some((_, name)) => name,
        None => path,
    }
}

// Draws the map of a disk with this name into the file at `picture`, and returns what is printed.
fn draw_disk<
    'a,
    D: SectorDisk + Drop,
    F: FileExt + OpenFile + LockFile + Drop,
    R: Files<File = F> + AllocGlobal,
>(rt: &R, disk: D, name: &str, picture: &'a str) -> Result<String, Fault<'a>>
    ensures text { IfOk result (λ text. (sectors : ℕ) × (string_bytes text ≡ mapped_text sectors)) }
    ensures status { IfErr result (λ fault. status_of fault ≡ 1) }
{
    // The disk stays open while the picture is written, and so an image file stays locked.
    let Mapped { map, disk: _open } = map_disk(rt.alloc(), disk);
    match map {
        Ok(map) => draw_into(rt, &Drawing { map: &map, name }, picture),
        Err(fault) => Err(fault),
    }
}

// Draws a map into the file at `picture`, and returns what is printed.
fn draw_into<'a, F: FileExt + OpenFile + LockFile + Drop, R: Files<File = F> + AllocGlobal>(
    rt: &R,
    drawing: &Drawing<'_>,
    picture: &'a str,
) -> Result<String, Fault<'a>>
    ensures text { IfOk result (λ text. (sectors : ℕ) × (string_bytes text ≡ mapped_text sectors)) }
    ensures status { IfErr result (λ fault. status_of fault ≡ 1) }
{
    write_drawing(rt, drawing, picture)?;
    Ok(mapped(rt.alloc(), drawing.map.sectors)?)
}

// Replaces the content of the file at `picture` by the drawing of a map.
fn write_drawing<'a, F: FileExt + OpenFile + LockFile + Drop, R: Files<File = F> + AllocGlobal>(
    rt: &R,
    drawing: &Drawing<'_>,
    picture: &'a str,
) -> Result<(), Fault<'a>>
    ensures { IfErr result (λ fault. status_of fault ≡ 1) }
{
    let text = drawing.to_string(rt.alloc())?;
    write_picture(rt, picture, text.as_str())
}

// Returns the text that is printed for a picture.
fn mapped(alloc: Global, sectors: usize) -> Result<String, AllocError>
    ensures { IfOk result (λ text. string_bytes text ≡ mapped_text sectors) }
{
    format!(in alloc; "mapped {sectors} sectors\n")
}
