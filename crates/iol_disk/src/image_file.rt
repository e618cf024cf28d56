//! A file of whole sectors as a disk.

use crate::disk::{SECTOR_OCTETS, SectorDisk};
use crate::fault::DiskFault;
use crate::image_fault::{ImageFault, unlocked, unopened};
use crate::lock_file::LockFile;
use crate::new_file::{octets_of, settle, write_zeros};
use std::fs::{File, OpenFile};
use std::io::{self, ErrorKind};
use std::os::unix::fs::FileExt;
use std::rt::Files;

/// An image file as a disk: a file of whole sectors of 512 octets, from its first octet on (docs/FORMATS.md, "Image
/// files"). What follows the last whole sector is neither read nor written.
///
/// Nothing is known of what a file keeps, so it is not honest, and no contract promises its content. The number of sectors
/// is determined once, when the file is made or opened. A call continues if the system transfers only a part, and allocates
/// no memory. The file is locked for as long as it is open, so it is opened once at a time; a program that does not request
/// the lock can still write to it. If the file is truncated meanwhile, its next write or sync fails, so that nothing is
/// reported as durable in a file that has lost sectors.
#[derive(Drop)]
pub struct ImageFile<F> {
    file: F,
    // the length of the file when it was made or opened
    octets: u64,
    failures: u64,
}

impl<F: FileExt + OpenFile + LockFile + Drop> ImageFile<F> {
    ghost use Rattle.std.specs.Prelude.{◌≡◌, ◌<◌, ◌≤◌, ◌*◌, ◌^◌, ℕ, nat_le, Ok, Err, IfOk, IfErr, OnOk};
    ghost use Rattle.iol_disk.specs.Disk.{Same, FailsOnlyAs};
    ghost use Rattle.iol_disk.specs.declared.disk.TheConstants.{SECTOR_OCTETS};
    ghost use Rattle.iol_disk.specs.declared.image_fault.ImageFault.TheVariants.{Open};
    ghost use Rattle.iol_disk.specs.ImageFile.{file_disk, HasTold, IsUncut, IsUnknown, IsCreateFault, IsOpenFault};

    /// Makes the file at `path`, of `sectors` sectors of zeros, and makes it durable with its entry in the folder, so that
    /// a later sync has only octets to make durable. An existing file is left alone.
    ///
    /// # Errors
    /// `Open` if the file cannot be made, for example because it exists or no file can have that many octets, or `Memory`.
    /// No new file remains then, unless it was made but could not be locked. `InUse` if the new file was locked elsewhere first.
    /// `Disk` with `Write` or `Sync` if such a call on the new file fails: the file stays, with fewer zeros or not durable.
    pub fn create<R: Files<File = F>>(
        rt: &R,
        path: &str,
        sectors: usize,
    ) -> Result<ImageFile<F>, ImageFault>
        ensures sectors { IfOk result (λ made. (file_disk made).sectors ≡ sectors) }
        ensures too_many { 2 ^ 63 ≤ sectors * SECTOR_OCTETS → result ≡ Err Open }
        ensures unknown { IfOk result (λ made. IsUnknown (file_disk made)) }
        ensures fault { IfErr result IsCreateFault }
    {
        let octets = octets_of(sectors).ok_or(ImageFault::Open)?;
        let file = match File::create_new(rt, path) {
            Ok(file) => file,
            Err(error) => return Err(unopened(error)),
        };
        file.try_lock().map_err(unlocked)?;
        if write_zeros(&file, octets).is_err() {
            return Err(ImageFault::Disk(DiskFault::Write));
        }
        if settle(rt, &file, path).is_err() {
            return Err(ImageFault::Disk(DiskFault::Sync));
        }
        Ok(ImageFile {
            file,
            octets,
            failures: 0,
        })
    }

    /// Opens the file at `path`, to read and to write.
    ///
    /// # Errors
    /// `Open` if it cannot be opened, for example because it does not exist, or `Memory`; `InUse` if it is open already, in
    /// this process or another one; `Disk` with `Read` if its length cannot be read.
    pub fn open<R: Files<File = F>>(rt: &R, path: &str) -> Result<ImageFile<F>, ImageFault>
        // The disk has the whole sectors of a length that the file reported.
        ensures told { IfOk result (λ opened. HasTold F.tells opened) }
        ensures unknown { IfOk result (λ opened. IsUnknown (file_disk opened)) }
        ensures fault { IfErr result IsOpenFault }
    {
        let file = match File::options().read(true).write(true).open(rt, path) {
            Ok(file) => file,
            Err(error) => return Err(unopened(error)),
        };
        file.try_lock().map_err(unlocked)?;
        let Ok(octets) = file.length() else {
            return Err(ImageFault::Disk(DiskFault::Read));
        };
        Ok(ImageFile {
            file,
            octets,
            failures: 0,
        })
    }

    // The offset of a sector in the file.
    fn first_octet(&self, n: usize) -> u64
        requires { n < (file_disk self.now).sectors }
        ensures { result ≡ n * SECTOR_OCTETS }
    {
        n as u64 * SECTOR_OCTETS as u64
    }

    // Returns whether the file still has all octets that it had when it was made or opened.
    fn is_uncut(&self) -> io::Result<bool>
        ensures told { IfOk result (λ uncut. (octets : ℕ) × F.tells self.now.file octets × (uncut ≡ nat_le self.now.octets octets)) }
    {
        Ok(self.octets <= self.file.length()?)
    }

    // Checks that the file still has all octets that it had when it was made or opened.
    fn check_length(&self) -> io::Result<()>
        ensures uncut { OnOk result (IsUncut F.tells self.now) }
    {
        if self.is_uncut()? {
            Ok(())
        } else {
            Err(ErrorKind::UnexpectedEof.into())
        }
    }

    // Writes a sector of a file that was not truncated: a write beyond its end would fill the gap with zeros.
    fn write_uncut(&self, n: usize, octets: &[u8; SECTOR_OCTETS]) -> io::Result<()>
        requires place { n < (file_disk self.now).sectors }
        requires uncut { IsUncut F.tells self.now }
    {
        self.file.write_all_at(octets, self.first_octet(n))
    }

    // Checks that the file was not truncated, and then writes a sector of it.
    fn write_whole(&self, n: usize, octets: &[u8; SECTOR_OCTETS]) -> io::Result<()>
        requires { n < (file_disk self.now).sectors }
        ensures uncut { OnOk result (IsUncut F.tells self.now) }
    {
        self.check_length()?;
        self.write_uncut(n, octets)
    }

    // Makes durable what was written, and then checks that the file was not truncated.
    fn sync_whole(&self) -> io::Result<()>
        ensures uncut { OnOk result (IsUncut F.tells self.now) }
    {
        self.file.sync_all()?;
        self.check_length()
    }

    // Turns the result of a call of the file into the result of the disk call, and counts a failure.
    fn counted(&mut self, ended: io::Result<()>, fault: DiskFault) -> Result<(), DiskFault>
        ensures same { Same (file_disk self.old) (file_disk self.new) }
        ensures ended { OnOk result (ended ≡ Ok (tt {0})) }
        ensures fault { FailsOnlyAs fault (file_disk self.old) (file_disk self.new) result }
    {
        match ended {
            Ok(()) => Ok(()),
            Err(_) => {
                self.failures = self.failures.saturating_add(1);
                Err(fault)
            }
        }
    }
}

impl<F: FileExt + OpenFile + LockFile + Drop> SectorDisk for ImageFile<F> {
    ghost use Rattle.std.specs.Prelude.{◌<◌, OnOk, OnErr};
    ghost use Rattle.iol_disk.specs.Content.{synced, wrote};
    ghost use Rattle.iol_disk.specs.Disk.{After, FailsOnlyAs, Same, WroteSome};
    ghost use Rattle.iol_disk.specs.ImageFile.{IsUncut, file_disk};

    ghost disk = { file_disk };

    fn sectors(&self) -> usize {
        (self.octets / SECTOR_OCTETS as u64) as usize
    }

    fn read(&mut self, n: usize, octets: &mut [u8; SECTOR_OCTETS]) -> Result<(), DiskFault> {
        // A failed read may have filled a part of the buffer.
        let mut found = [0; SECTOR_OCTETS];
        let ended = self.file.read_exact_at(&mut found, self.first_octet(n));
        self.counted(ended, DiskFault::Read)?;
        *octets = found;
        Ok(())
    }

    fn write(&mut self, n: usize, octets: &[u8; SECTOR_OCTETS]) -> Result<(), DiskFault>
        requires { n < (file_disk self.old).sectors }
        ensures wrote { OnOk result (After (wrote n octets.now) (file_disk self.old) (file_disk self.new)) }
        ensures wrote_some { OnErr result (WroteSome n (file_disk self.old) (file_disk self.new)) }
        ensures fault { FailsOnlyAs DiskFault.Write (file_disk self.old) (file_disk self.new) result }
        ensures uncut { OnOk result (IsUncut F.tells self.old) }
    {
        let ended = self.write_whole(n, octets);
        self.counted(ended, DiskFault::Write)
    }

    fn sync(&mut self) -> Result<(), DiskFault>
        ensures synced { OnOk result (After synced (file_disk self.old) (file_disk self.new)) }
        ensures same { OnErr result (Same (file_disk self.old) (file_disk self.new)) }
        ensures fault { FailsOnlyAs DiskFault.Sync (file_disk self.old) (file_disk self.new) result }
        ensures uncut { OnOk result (IsUncut F.tells self.old) }
    {
        let ended = self.sync_whole();
        self.counted(ended, DiskFault::Sync)
    }
}
