//! The codes by which a call returns its answer: `enum iolm_result` of include/iolmaster.h.

ghost use Rattle.std.specs.Prelude.{◌≡◌};
ghost use Rattle.iol_c.specs.Codes.{cause_code, code_of, command_code, disk_code, submit_code};

use iol_core::SubmitFault;
use iol_disk::DiskFault;
use iol_handed::SessionAnswer;
use iol_journal::RecoverCause;
use iol_types::CommandFault;

/// The call has done what was asked.
pub(crate) const OK: u32 = 0;
/// The handle has no master.
pub(crate) const CLOSED: u32 = 1;
/// The handle's flash is still being opened.
pub(crate) const OPENING: u32 = 2;
/// Out of memory: nothing changed, and the call may be made again.
pub(crate) const MEMORY: u32 = 3;
/// A call of the disk has failed: nothing more is accepted.
pub(crate) const STOPPED: u32 = 4;
/// An argument is out of its range, and nothing changed.
pub(crate) const INVALID: u32 = 5;
/// The master does not have this port.
pub(crate) const ABSENT: u32 = 6;
/// The call does not fit what is waited for, and nothing changed.
pub(crate) const MISFIT: u32 = 7;
/// There is nothing to do, or no such entry.
pub(crate) const NOTHING: u32 = 8;
/// Something was done, and the call is to be made again.
pub(crate) const AGAIN: u32 = 9;
/// The journal was found, and a master runs.
pub(crate) const OPENED: u32 = 10;
/// The disk is to be synced.
pub(crate) const SYNC: u32 = 11;
/// A sector is to be read.
pub(crate) const READ: u32 = 12;
/// A sector is to be written.
pub(crate) const WRITE: u32 = 13;
/// The page of the device is to be read.
pub(crate) const PAGE: u32 = 14;
/// A request is to be sent to the device.
pub(crate) const REQUEST: u32 = 15;
/// The master has no port with this number.
pub(crate) const UNKNOWN_PORT: u32 = 32;
/// The port has had its last revision.
pub(crate) const REVISION_SPENT: u32 = 33;
/// The port stores no parameter set.
pub(crate) const NOT_ALLOWED: u32 = 34;
/// The port was configured meanwhile.
pub(crate) const STALE_REVISION: u32 = 35;
/// The set belongs to another device.
pub(crate) const WRONG_DEVICE: u32 = 36;
/// The port has no previous set.
pub(crate) const NO_PREVIOUS: u32 = 37;
/// 64 commands wait.
pub(crate) const QUEUE_FULL: u32 = 38;
/// No command number is left.
pub(crate) const EXHAUSTED: u32 = 39;
/// A read of the disk failed.
pub(crate) const DISK_READ: u32 = 48;
/// A write to the disk failed.
pub(crate) const DISK_WRITE: u32 = 49;
/// A sync of the disk failed.
pub(crate) const DISK_SYNC: u32 = 50;
/// The disk is not formatted.
pub(crate) const NOT_FORMATTED: u32 = 51;
/// The disk is too small.
pub(crate) const TOO_SMALL: u32 = 52;
/// The disk holds what no journal writes.
pub(crate) const DAMAGED: u32 = 53;

// Returns the code of a change that the state refuses.
fn command_code(fault: CommandFault) -> u32
    ensures { result ≡ command_code fault }
{
    match fault {
        CommandFault::UnknownPort => UNKNOWN_PORT,
        CommandFault::RevisionSpent => REVISION_SPENT,
        CommandFault::NotAllowed => NOT_ALLOWED,
        CommandFault::StaleRevision => STALE_REVISION,
        CommandFault::WrongDevice => WRONG_DEVICE,
        CommandFault::NoPrevious => NO_PREVIOUS,
    }
}

// Returns the code of a change that is refused.
fn submit_code(fault: SubmitFault) -> u32
    ensures { result ≡ submit_code fault }
{
    match fault {
        SubmitFault::Stopped => STOPPED,
        SubmitFault::Command(fault) => command_code(fault),
        SubmitFault::QueueFull => QUEUE_FULL,
        SubmitFault::Exhausted => EXHAUSTED,
    }
}

// Returns the code of a disk call that has failed.
fn disk_code(fault: DiskFault) -> u32
    ensures { result ≡ disk_code fault }
{
    match fault {
        DiskFault::Read => DISK_READ,
        DiskFault::Write => DISK_WRITE,
        DiskFault::Sync => DISK_SYNC,
    }
}

// Returns the code of a flash that is not opened.
fn cause_code(cause: RecoverCause) -> u32
    ensures { result ≡ cause_code cause }
{
    match cause {
        RecoverCause::Disk(fault) => disk_code(fault),
        RecoverCause::NotFormatted => NOT_FORMATTED,
        RecoverCause::TooSmall => TOO_SMALL,
        RecoverCause::Damaged { .. } => DAMAGED,
        RecoverCause::Memory => MEMORY,
    }
}

/// Returns the code of an answer.
pub(crate) fn code_of(answer: SessionAnswer) -> u32
    ensures { result ≡ code_of answer }
{
    match answer {
        SessionAnswer::Done
        | SessionAnswer::Accepted(_)
        | SessionAnswer::Status(_)
        | SessionAnswer::Numbers(..)
        | SessionAnswer::View(_)
        | SessionAnswer::Entry(..) => OK,
        SessionAnswer::Closed => CLOSED,
        SessionAnswer::Opening => OPENING,
        SessionAnswer::Memory => MEMORY,
        SessionAnswer::Stopped => STOPPED,
        SessionAnswer::Absent => ABSENT,
        SessionAnswer::Misfit => MISFIT,
        SessionAnswer::Nothing => NOTHING,
        SessionAnswer::Again => AGAIN,
        SessionAnswer::Found(_) => OPENED,
        SessionAnswer::Sync => SYNC,
        SessionAnswer::Read(_) => READ,
        SessionAnswer::Write(..) => WRITE,
        SessionAnswer::Page => PAGE,
        SessionAnswer::Request(_) => REQUEST,
        SessionAnswer::Refused(fault) => submit_code(fault),
        SessionAnswer::NotOpened(cause) => cause_code(cause),
    }
}
