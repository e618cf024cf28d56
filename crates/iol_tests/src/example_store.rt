//! The example's store on a disk in memory, with power stops, a disk call that fails, and commands that are refused.

use crate::blank::{blank, config};
use iol_disk::{DiskFault, FaultDisk, MemoryDisk, Pick, SECTOR_OCTETS, SectorDisk};
use iol_example::{WriteFault, create, open, write};
use iol_journal::{Batch, BeginCause, Geometry, Journal};
use iol_types::{Command, MasterState, PortId};
use std::alloc::Global;
use std::process::Abort;

/// Returns a Configure of this port.
pub fn configure<R: Abort>(rt: &R, port: u8) -> Command {
    Command::Configure {
        port: PortId::new(port).expect(rt, "a port"),
        config: config(),
    }
}

/// Makes a store of two ports, whose areas keep four of five slots, with this number of Configures of port 1.
pub fn store_of<R: Abort>(rt: &R, alloc: Global, configures: usize) -> Journal<MemoryDisk> {
    let geometry = Geometry::new(2, 5).unwrap();
    let Ok(mut journal) = create(alloc, blank(rt, alloc, geometry.sectors()), geometry) else {
        panic!(rt; "a disk is formatted and recovered")
    };
    for _ in 0..configures {
        journal = match write(alloc, journal, configure(rt, 1)) {
            Ok(journal) => journal,
            Err(_) => panic!(rt; "a command is written"),
        };
    }
    journal
}

/// Returns the journal and the state that are found on a disk.
pub fn opened<R: Abort>(
    rt: &R,
    alloc: Global,
    disk: MemoryDisk,
) -> (Journal<MemoryDisk>, MasterState) {
    match open(alloc, disk) {
        Ok(found) => found,
        Err(_) => panic!(rt; "a journal is found"),
    }
}

/// Returns the number of commands that are found on a disk, and the number of them that configured port 1.
pub fn found(alloc: Global, disk: MemoryDisk) -> Option<(u64, u64)> {
    let (journal, state) = open(alloc, disk).ok()?;
    with_revision(journal.number(), &state)
}

// Returns this number, and the number of commands that configured port 1.
fn with_revision(number: u64, state: &MasterState) -> Option<(u64, u64)> {
    Some((number, state.port(PortId::new(1)?)?.revision()))
}

/// Returns why a journal refuses a batch.
pub fn refusal<R: Abort>(rt: &R, journal: Journal<MemoryDisk>, batch: Batch) -> BeginCause {
    match journal.begin(batch) {
        Ok(_) => panic!(rt; "a batch is refused"),
        Err(fault) => fault.cause,
    }
}

// Returns the disk that a write of one more Configure leaves if its nth write to the disk fails. None fails for the 0th.
fn left_by_a_fault<R: Abort>(rt: &R, alloc: Global, configures: usize, nth: u64) -> MemoryDisk {
    let disk = store_of(rt, alloc, configures).disk();
    let Ok((journal, _)) = open(alloc, FaultDisk::new(disk, DiskFault::Write, nth)) else {
        panic!(rt; "a recovery writes nothing")
    };
    match write(alloc, journal, configure(rt, 1)) {
        Ok(journal) if nth == 0 => journal.disk().disk(),
        Err(WriteFault::Failed(disk, DiskFault::Write)) => disk.disk(),
        _ => panic!(rt; "a write fails"),
    }
}

// The number of Configures, the write of one more that fails, what the stop keeps, and the number of commands that are
// found. Ten leave slots free, so that the body is written first and then the gate; eight leave none, and a checkpoint
// begins with the gate of the other area.
const FAULTS: [(usize, u64, Pick, u64); 13] = [
    (10, 0, Pick::Old, 11),
    (10, 0, Pick::New, 11),
    (10, 0, Pick::Zero, 11),
    (10, 0, Pick::Pattern, 11),
    (10, 1, Pick::Old, 10),
    (10, 1, Pick::New, 10),
    (10, 1, Pick::Zero, 10),
    (10, 1, Pick::Pattern, 10),
    (10, 2, Pick::Old, 10),
    (10, 2, Pick::New, 11),
    (10, 2, Pick::Zero, 10),
    (8, 1, Pick::Old, 8),
    (8, 1, Pick::New, 8),
];

#[test]
fn a_write_is_found_after_a_stop_and_one_that_fails_leaves_the_command_or_does_not(
    rt: HostRuntime,
) {
    for (before, nth, pick, number) in FAULTS {
        let disk = left_by_a_fault(&rt, rt.alloc(), before, nth);
        assert!(rt; found(rt.alloc(), disk.stop(pick)) == Some((number, number)));
    }
}

// Returns the number of commands of the store that comes back when a command is refused, and why it is refused.
fn refused<R: Abort>(
    rt: &R,
    alloc: Global,
    journal: Journal<MemoryDisk>,
    command: Command,
) -> (u64, BeginCause) {
    match write(alloc, journal, command) {
        Err(WriteFault::Refused(journal, cause)) => (journal.number(), cause),
        _ => panic!(rt; "a command is refused"),
    }
}

// Returns whether a Configure of this port is refused as a misfit, and the store comes back with this number of commands.
fn is_misfit<R: Abort>(
    rt: &R,
    alloc: Global,
    journal: Journal<MemoryDisk>,
    port: u8,
    number: u64,
) -> bool {
    refused(rt, alloc, journal, configure(rt, port)) == (number, BeginCause::Misfit)
}

#[test]
fn a_command_that_does_not_fit_is_refused(rt: HostRuntime) {
    assert!(rt; is_misfit(&rt, rt.alloc(), store_of(&rt, rt.alloc(), 4), 3, 4));
    // The header of area A has epoch 1, the last number, 2^62, as its base, and version 2.
    let mut header = [0; SECTOR_OCTETS];
    header[7] = 1;
    header[8] = 0x40;
    header[16] = 2;
    let mut disk = store_of(&rt, rt.alloc(), 0).disk();
    assert!(rt; 3 < disk.sectors() && disk.write(3, &header).is_ok());
    let (journal, _) = opened(&rt, rt.alloc(), disk);
    assert!(rt; is_misfit(&rt, rt.alloc(), journal, 1, 1 << 62));
}
