//! Opens, makes, formats and shows image files.
ghost use Rattle.std.specs.Prelude.{◌≡◌, ◌⊎◌, true, false, Ok, IfOk, IfErr, IsOk, OnOk, string_bytes};
ghost use Rattle.iol_disk.specs.Content.{IsImage};
ghost use Rattle.iol_disk.specs.Moments.{LeavesOnly};
ghost use Rattle.iol_journal.specs.Erasing.{MeansAsBeforeOrNothing};
ghost use Rattle.iol_journal.specs.Formatting.{EachIsEmptyJournal, IsEmptyJournalOf};
ghost use Rattle.iol_journal.specs.Meaning.{is_formatted, meaning, standing_in};
ghost use Rattle.iol_disk.specs.Disk.{Shows};
ghost use Rattle.iol_commands.specs.Fault.{status_of};
ghost use Rattle.iol_commands.specs.Images.{IsFileCause, TellsWhy, formatted_text};
ghost use Rattle.iol_commands.specs.Recovered.{TellsState};

use crate::fault::Fault;
use iol_disk::{DiskFault, ImageFault, ImageFile, LockFile, SectorDisk};
use iol_journal::{Geometry, Journal, RecoverFault};
use iol_texts::Recovered;
use std::alloc::Global;
use std::fs::OpenFile;
use std::os::unix::fs::FileExt;
use std::rt::Files;

// Opens the image file at this path.
//
// # Errors
// `File`, `InUse`, `Disk` or `Memory`.
pub fn opened<'a, F: FileExt + OpenFile + LockFile + Drop, R: Files<File = F>>(
    rt: &R,
    path: &'a str,
) -> Result<ImageFile<F>, Fault<'a>>
    ensures { IfErr result (λ fault. status_of fault ≡ 1) }
{
    ImageFile::open(rt, path).map_err(|fault| of_image(fault, path))
}

// Opens the image file at this path, or makes it with this many sectors if there is none.
//
// # Errors
// `File`, `InUse`, `Disk` or `Memory`.
pub(crate) fn opened_or_made<'a, F: FileExt + OpenFile + LockFile + Drop, R: Files<File = F>>(
    rt: &R,
    path: &'a str,
    sectors: usize,
) -> Result<ImageFile<F>, Fault<'a>>
    ensures { IfErr result (λ fault. status_of fault ≡ 1) }
{
    match ImageFile::open(rt, path) {
        Ok(file) => Ok(file),
        Err(ImageFault::Open) => {
            ImageFile::create(rt, path, sectors).map_err(|fault| of_image(fault, path))
        }
        Err(fault) => Err(of_image(fault, path)),
    }
}

// Returns the fault of a command that cannot use the image file at this path.
fn of_image(fault: ImageFault, path: &str) -> Fault<'_>
    ensures cause { IsFileCause fault result }
    ensures status { status_of result ≡ 1 }
{
    match fault {
        ImageFault::Open => Fault::File { path },
        ImageFault::InUse => Fault::InUse,
        ImageFault::Disk(_) => Fault::Disk,
        ImageFault::Memory => Fault::Memory,
    }
}

// Formats a disk, and returns the text with the number of sectors that its journal takes. With `force`, its journal is
// erased first.
//
// # Errors
// `TooSmall`, `AlreadyFormatted` or `Memory`, or `Disk` if a disk call fails.
pub fn format_disk<D: SectorDisk>(
    alloc: Global,
    disk: &mut D,
    geometry: Geometry,
    force: bool,
) -> Result<String, Fault<'static>>
    ensures text { IfOk result (λ text. string_bytes text ≡ formatted_text geometry) }
    // Each image is an empty journal of this geometry.
    ensures done { OnOk result (EachIsEmptyJournal (D.disk disk.new) geometry) }
    // Without `force`, an existing journal is kept.
    ensures kept { force ≡ false → Shows (D.disk disk.old) (λ image. is_formatted (D.disk disk.old).sectors image ≡ true)
        → LeavesOnly (D.disk disk.old) (D.disk disk.new) (IsImage (D.disk disk.old).content) }
    // At any moment each image means what one meant before, or is not formatted, or is an empty journal of this geometry.
    ensures any_moment { LeavesOnly (D.disk disk.old) (D.disk disk.new)
        (λ image. MeansAsBeforeOrNothing (D.disk disk.old).sectors (D.disk disk.old).content image
        ⊎ IsEmptyJournalOf geometry (D.disk disk.old).sectors image) }
    ensures status { IfErr result (λ fault. status_of fault ≡ 1) }
{
    erase_if_forced(disk, force)?;
    iol_journal::format(alloc, disk, geometry)?;
    let sectors = geometry.sectors();
    Ok(format!(in alloc; "formatted {sectors} sectors\n")?)
}

// Erases the journal of a disk, if `force` is set.
fn erase_if_forced<D: SectorDisk>(disk: &mut D, force: bool) -> Result<(), DiskFault>
    ensures untouched { force ≡ false → (disk.new ≡ disk.old) × IsOk result }
    ensures any_moment { LeavesOnly (D.disk disk.old) (D.disk disk.new)
        (MeansAsBeforeOrNothing (D.disk disk.old).sectors (D.disk disk.old).content) }
{
    if force {
        iol_journal::erase(disk)
    } else {
        Ok(())
    }
}

// What is recovered from a disk, or why nothing is, and the disk after the recovery.
#[derive(Drop)]
pub struct Shown<D: SectorDisk> {
    pub recovered: Result<Recovered, Fault<'static>>,
    pub disk: D,
}

// Returns the text of the state on a disk. Fails as `show_disk` does, or with `Memory` for the text.
pub fn text_of_disk<D: SectorDisk + Drop>(alloc: Global, disk: D) -> Result<String, Fault<'static>>
    ensures text { IfOk result (λ text. TellsState (D.disk disk) (string_bytes text)) }
    ensures cause { IfErr result (λ fault. Shows (D.disk disk) (λ image. TellsWhy (standing_in (D.disk disk).sectors image) fault)) }
    ensures status { IfErr result (λ fault. status_of fault ≡ 1) }
{
    let Shown { recovered, disk: _ } = show_disk(alloc, disk);
    Ok(recovered?.to_string(alloc)?)
}

// Recovers the state on a disk. Fails with the first fault that it meets: `NotFormatted`, `TooSmall`, `Damaged`, `Disk` or `Memory`.
pub fn show_disk<D: SectorDisk>(alloc: Global, disk: D) -> Shown<D>
    ensures found { IfOk result.recovered (λ found. Shows (D.disk disk)
        (λ image. meaning (D.disk disk).sectors image ≡ Ok (record { number = found.number; state = found.state }))) }
    ensures cause { IfErr result.recovered (λ fault.
        Shows (D.disk disk) (λ image. TellsWhy (standing_in (D.disk disk).sectors image) fault)) }
    // The recovery adds nothing: each image after it is an image from before.
    ensures any_moment { LeavesOnly (D.disk disk) (D.disk result.disk) (IsImage (D.disk disk).content) }
    ensures status { IfErr result.recovered (λ fault. status_of fault ≡ 1) }
{
    match Journal::recover(alloc, disk) {
        Ok((journal, state)) => {
            let number = journal.number();
            Shown {
                recovered: Ok(Recovered { number, state }),
                disk: journal.disk(),
            }
        }
        Err(RecoverFault { cause, disk }) => Shown {
            recovered: Err(Fault::from(cause)),
            disk,
        },
    }
}
