//! The reports of a caller on the disk, and the answers to it.

use crate::handed_call::HandedCall;

/// The reports of a caller on the calls that the disk handed out.
#[derive(Clone, Copy)]
pub enum Reports {
    /// The calls up to this number, modulo 2^64, were made.
    UpTo(u64),
    /// A call has failed.
    Failed,
}

/// What a master wants of its disk.
#[derive(Clone, Copy)]
pub enum DiskAnswer {
    /// A call of the disk has failed: nothing more is wanted.
    Stopped,
    /// This call is to be made.
    Call(HandedCall),
    /// Something was done without the disk, and the master is to be asked again.
    Again,
    /// Nothing is to be done.
    Nothing,
    /// Out of memory: the master may be asked again.
    Memory,
}
