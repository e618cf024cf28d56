//! The ways in which a master ends, and the faults for which it does not start.

use iol_disk::{DiskFault, SectorDisk};
use iol_front::{Name, Publisher};
use iol_journal::Journal;

/// The way in which a master ended.
#[derive(Drop)]
pub enum Ending<D: SectorDisk, F: Name> {
    /// All accepted commands are durable, published and acknowledged.
    Closed(Journal<D>, Publisher<F>),
    /// The last accepted commands are not known to be durable: memory ran out for them, or the core has not acknowledged them. All
    /// before them are durable and published.
    Unwritten(Journal<D>, Publisher<F>),
    /// A disk call failed. The disk may be recovered again, unless the call was a sync: stop using a disk after a failed sync.
    Faulted(D, DiskFault),
}

/// The reason why a master does not start. None of its threads runs any more, and the disk may be recovered again. After `Thread`, a
/// disk call may have failed meanwhile: stop using a disk after a failed sync.
#[derive(Drop)]
pub enum StartFault<D: SectorDisk> {
    /// There is not one link for each port.
    Ports(D),
    /// Out of memory.
    Memory(D),
    /// A thread could not be made.
    Thread(D),
}
