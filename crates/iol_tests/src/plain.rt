//! Images that no journal wrote: a recovery gives the answer of a plain reading.

use crate::example_store::store_of;
use crate::plain_reading::plain_meaning;
use iol_disk::{MemoryDisk, SECTOR_OCTETS, SectorDisk};
use iol_journal::{Journal, RecoverCause};
use std::alloc::Global;
use std::process::Abort;

// Reads the sectors of a disk.
fn image_on<R: Abort>(rt: &R, alloc: Global, disk: &mut MemoryDisk) -> Vec<[u8; SECTOR_OCTETS]> {
    let mut image = Vec::new(alloc);
    for sector in 0..disk.sectors() {
        let mut octets = [0; SECTOR_OCTETS];
        assert!(rt; sector < disk.sectors() && disk.read(sector, &mut octets).is_ok());
        image.push(octets).expect(rt, "memory");
    }
    image
}

// Returns the answer of a recovery, and the disk.
fn answer<D: SectorDisk + Drop>(alloc: Global, disk: D) -> (Result<u64, RecoverCause>, D) {
    match Journal::recover(alloc, disk) {
        Ok((journal, _)) => (Ok(journal.number()), journal.disk()),
        Err(fault) => (Err(fault.cause), fault.disk),
    }
}

// Puts octets into a sector of a disk and of its image, and asserts that recovery then gives the answer of the plain
// program.
fn agree<R: Abort>(
    rt: &R,
    alloc: Global,
    mut disk: MemoryDisk,
    image: &mut [[u8; SECTOR_OCTETS]],
    sector: usize,
    octets: &[u8; SECTOR_OCTETS],
) -> MemoryDisk {
    assert!(rt; sector < disk.sectors() && sector < image.len());
    disk.write(sector, octets).expect(rt, "a write");
    image[sector] = *octets;
    let plain = plain_meaning(alloc, image);
    let (found, disk) = answer(alloc, disk);
    assert!(rt;
        found == plain,
        "sector {sector}: {found:?}, plainly {plain:?}"
    );
    disk
}

// Does the same with other octets at each place of a sector: the complement of what is there, 00 and FF. Then restores
// the sector.
fn agree_in<R: Abort>(
    rt: &R,
    alloc: Global,
    mut disk: MemoryDisk,
    image: &mut [[u8; SECTOR_OCTETS]],
    sector: usize,
) -> MemoryDisk {
    let was = *image.get(sector).expect(rt, "a sector");
    for place in 0..SECTOR_OCTETS {
        let there = was[place];
        for octet in [!there, 0x00, 0xFF] {
            let mut octets = was;
            if let Some(at) = octets.get_mut(place) {
                *at = octet;
            }
            disk = agree(rt, alloc, disk, image, sector, &octets);
        }
    }
    agree(rt, alloc, disk, image, sector, &was)
}

#[test]
fn any_octet_changed_is_answered_as_the_plain_program_does(rt: HostRuntime) {
    let mut disk = store_of(&rt, rt.alloc(), 1).disk();
    let mut image = image_on(&rt, rt.alloc(), &mut disk);
    for sector in [0, 1, 2, 3, 4, 5, 38, 39] {
        disk = agree_in(&rt, rt.alloc(), disk, &mut image, sector);
    }
}
