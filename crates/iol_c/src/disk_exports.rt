//! Opens a flash, and hands out the calls of the disk.

ghost use Rattle.std.specs.Prelude.{◌≡◌, false};
ghost use Rattle.iol_handed.specs.Sessions.{ended};
ghost use Rattle.iol_c.specs.Asks.{Asks};
ghost use Rattle.iol_c.specs.Codes.{code_of};
ghost use Rattle.iol_c.specs.DiskExports.{Opens, WantsOfDisk};

use crate::codes::{MEMORY, OK, READ, WRITE, code_of};
use crate::handle::Handle;
use crate::structs::DiskCall;
use iol_disk::SECTOR_OCTETS;
use iol_handed::{Ask, Opening, SessionAnswer};
use std::alloc::Global;

/// Begins to open a flash of this number of sectors. If the handle has a master, ends it.
#[unsafe(no_mangle)]
pub extern "C" fn iolm_open(alloc: Global, handle: &mut Handle, sectors: usize) -> u32
    ensures { Opens sectors handle.new result }
{
    if handle.open(alloc, Opening::new(alloc, sectors)) {
        OK
    } else {
        MEMORY
    }
}

/// Ends the master of a handle, if it has one. Each permit is returned, and a call that was not reported as made counts for
/// nothing.
#[unsafe(no_mangle)]
pub extern "C" fn iolm_close(alloc: Global, handle: &mut Handle)
    ensures { (handle.new.is_open ≡ false) × (handle.new.session ≡ ended) }
{
    handle.close(alloc);
}

/// Returns what is wanted of the disk.
#[unsafe(no_mangle)]
pub extern "C" fn iolm_disk_next(alloc: Global, handle: &mut Handle, call: &mut DiskCall) -> u32
    ensures { WantsOfDisk handle.old handle.new call.old call.new result }
{
    match handle.ask(alloc, Ask::DiskNext) {
        SessionAnswer::Found(found) => handle.begin(alloc, found),
        SessionAnswer::Write(sector, octets) => {
            call.sector = sector as u64;
            call.octets = octets;
            WRITE
        }
        SessionAnswer::Read(sector) => {
            call.sector = sector as u64;
            READ
        }
        answer => code_of(answer),
    }
}

/// Reports that the sync or the write in hand was made, or that the call in hand has failed.
#[unsafe(no_mangle)]
pub extern "C" fn iolm_disk_done(alloc: Global, handle: &mut Handle, made: bool) -> u32
    ensures { Asks (Ask.DiskDone made) handle.old handle.new (λ said. result ≡ code_of said) }
{
    code_of(handle.ask(alloc, Ask::DiskDone(made)))
}

/// Hands in the octets of the sector in hand, which was read.
#[unsafe(no_mangle)]
pub extern "C" fn iolm_disk_read(
    alloc: Global,
    handle: &mut Handle,
    octets: &[u8; SECTOR_OCTETS],
) -> u32
    ensures { Asks (Ask.DiskRead octets.now) handle.old handle.new (λ said. result ≡ code_of said) }
{
    code_of(handle.ask(alloc, Ask::DiskRead(*octets)))
}
