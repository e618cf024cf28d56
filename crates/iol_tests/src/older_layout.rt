//! A disk of an earlier release: one Configure in version 1 of the layout. A checkpoint renews it, with a stop after each disk call.

use crate::blank::{blank, config};
use crate::example_store::{found, opened, refusal};
use crate::paused::{batch, done, stepped};
use iol_disk::{MemoryDisk, Pick, SECTOR_OCTETS, SectorDisk};
use iol_example::write;
use iol_journal::{BeginCause, Checkpointing, Geometry, Journal, format_one};
use iol_types::{Command, Label, PortConfig, PortId};
use std::alloc::Global;
use std::process::Abort;

// The number of disk calls of the checkpoint of two ports and three slots an area, which four slots are in version 2.
const CHECKPOINT_CALLS: usize = 12;

// The gate of slot 1 of area A in version 1, and the first sector of its body.
const GATE: usize = 22;

const BODY: usize = 23;

const OPEN: [u8; 8] = [0xA5, 0x5A, 0xA5, 0x5A, 0xA5, 0x5A, 0xA5, 0x5A];

// The body has epoch 1, number 1 and one command of 10 octets: Configure port 1, IOL_MANUAL, Backup and Restore, vendor 500, device
// 43981.
const FIRST_BODY: [u8; 32] = [
    0, 0, 0, 0, 0, 0, 0, 1, 0, 0, 0, 0, 0, 0, 0, 1, 0, 1, 0, 0, 0, 10, 1, 1, 1, 3, 0x01, 0xF4, 0,
    0, 0xAB, 0xCD,
];

// Writes a sector that begins with these octets.
fn put<R: Abort>(rt: &R, disk: &mut MemoryDisk, sector: usize, front: &[u8]) {
    let mut octets = [0; SECTOR_OCTETS];
    for (place, octet) in octets.iter_mut().zip(front) {
        *place = *octet;
    }
    assert!(rt; sector < disk.sectors(), "a sector of the disk");
    disk.write(sector, &octets).expect(rt, "a write");
    disk.sync().expect(rt, "a sync");
}

fn older_disk<R: Abort>(rt: &R, alloc: Global) -> MemoryDisk {
    let geometry = Geometry::new(2, 4).expect(rt, "a geometry");
    let mut disk = blank(rt, alloc, geometry.sectors());
    format_one(alloc, &mut disk, geometry).expect(rt, "a format");
    put(rt, &mut disk, BODY, &FIRST_BODY);
    put(rt, &mut disk, GATE, &OPEN);
    disk
}

fn older_journal<R: Abort>(rt: &R, alloc: Global) -> Journal<MemoryDisk> {
    let (journal, _) = opened(rt, alloc, older_disk(rt, alloc));
    journal
}

// Begins the checkpoint that renews the disk.
fn renewal<R: Abort>(rt: &R, alloc: Global) -> Checkpointing<MemoryDisk> {
    let journal = older_journal(rt, alloc);
    assert!(rt; !journal.is_renewed(), "its layout is an older one");
    match journal.checkpoint() {
        Ok(checkpointing) => checkpointing,
        Err(_) => panic!(rt; "memory"),
    }
}

#[test]
fn it_is_found_as_it_stands_and_takes_no_batch(rt: HostRuntime) {
    assert!(rt; found(rt.alloc(), older_disk(&rt, rt.alloc())) == Some((1, 1)));
    let batch = batch(&rt, rt.alloc(), 2);
    let cause = refusal(&rt, older_journal(&rt, rt.alloc()), batch);
    assert!(rt; cause == BeginCause::NeedsCheckpoint);
}

#[test]
fn a_stop_at_any_call_of_its_renewal_changes_nothing(rt: HostRuntime) {
    for calls in 0..CHECKPOINT_CALLS {
        for pick in [Pick::Old, Pick::New, Pick::Zero, Pick::Pattern] {
            let checkpointing = stepped(&rt, renewal(&rt, rt.alloc()), calls);
            assert!(rt; !checkpointing.can_pause(), "{calls}");
            let left = checkpointing.disk().stop(pick);
            assert!(rt; found(rt.alloc(), left) == Some((1, 1)), "{calls}");
        }
    }
}

// Returns what a stop leaves once a command was written after the renewal.
fn renewed_with<R: Abort>(rt: &R, alloc: Global, command: Command) -> MemoryDisk {
    let journal = done(rt, renewal(rt, alloc), CHECKPOINT_CALLS);
    match write(alloc, journal, command) {
        Ok(journal) => journal.disk().stop(Pick::Old),
        Err(_) => panic!(rt; "a command is written"),
    }
}

// Returns the number of commands that are found on a disk, and the revision and the label of a port.
fn found_label<R: Abort>(
    rt: &R,
    alloc: Global,
    disk: MemoryDisk,
    port: PortId,
) -> (u64, u64, Label) {
    let (journal, state) = opened(rt, alloc, disk);
    let port = state.port(port).expect(rt, "a port");
    (journal.number(), port.revision(), port.config().label)
}

#[test]
fn after_its_renewal_its_port_is_given_a_label(rt: HostRuntime) {
    let port = PortId::new(1).expect(&rt, "a port");
    let label = Label::new(b"Pump 3").expect(&rt, "a label");
    let config = PortConfig { label, ..config() };
    let left = renewed_with(&rt, rt.alloc(), Command::Configure { port, config });
    assert!(rt; found_label(&rt, rt.alloc(), left, port) == (2, 2, label));
}
