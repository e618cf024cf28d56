//! An empty journal, and the disk calls of a batch after it.

ghost use Rattle.std.specs.Prelude.{◌≡◌, ◌+◌, [], length};
ghost use Rattle.iol_journal.specs.Standings.{with_batch};

use iol_disk::MemoryDisk;
use iol_journal::{Batch, Geometry, Journal, Progress, Writing, Written, format};
use iol_types::{Command, MasterState, PortId};
use std::alloc::Global;
use std::process::Abort;

/// Returns a Clear of port 1.
pub fn clear() -> Command {
    Command::Clear {
        port: PortId::new(1).unwrap(),
    }
}

/// Makes an empty journal of two ports and four slots, with its state.
pub fn empty_journal<R: Abort>(rt: &R, alloc: Global) -> (Journal<MemoryDisk>, MasterState)
    ensures { result.0.history ≡ record { first = result.0.standing.number; start = result.1; commands = [] } }
{
    let geometry = Geometry::new(2, 4).expect(rt, "a geometry");
    let mut disk = MemoryDisk::new(alloc, geometry.sectors()).expect(rt, "a disk");
    format(alloc, &mut disk, geometry).expect(rt, "a format");
    let Ok(found) = Journal::recover(alloc, disk) else {
        panic!(rt; "a recovery")
    };
    found
}

/// Begins a batch that fits a journal.
pub fn begun<R: Abort>(rt: &R, journal: Journal<MemoryDisk>, batch: Batch) -> Writing<MemoryDisk>
    ensures { (result.standing ≡ journal.standing) × (length result.commands ≡ length batch.commands.items) }
{
    match journal.begin(batch) {
        Ok(writing) => writing,
        Err(_) => panic!(rt; "a batch that fits"),
    }
}

/// Makes the disk calls of a batch.
pub fn finish<R: Abort>(rt: &R, mut writing: Writing<MemoryDisk>) -> (Journal<MemoryDisk>, Written)
    ensures { (result.0.standing ≡ with_batch writing.standing writing.commands)
        × (result.1.first ≡ writing.standing.number + 1) × (result.1.commands ≡ writing.commands) }
{
    loop {
        match writing.step() {
            Progress::More(next) => writing = next,
            Progress::Done(journal, written) => return (journal, written),
            Progress::Failed(_, _) => panic!(rt; "a disk call that succeeds"),
        }
    }
}
