//! Why a command of the program fails.
ghost use Rattle.std.specs.Prelude.{◌≡◌, ◌≤◌};
ghost use Rattle.iol_commands.specs.Fault.{status_of, fault_for, unrecovered, unformatted};
ghost use Rattle.iol_commands.specs.declared.fault.Fault.TheVariants.{Disk, Memory};

use iol_disk::DiskFault;
use iol_journal::{FormatFault, RecoverCause};
use iol_script::ScriptFault;
use std::alloc::{AllocError, AllocFailed};
use std::error::Error;
use std::fmt;

// Why a command fails. The text of each fault is printed on standard error after `error: `.
#[derive(Clone, Copy, Debug, PartialEq, Eq)]
pub enum Fault<'a> {
    /// The disk has no journal.
    NotFormatted,
    /// The disk has a journal already.
    AlreadyFormatted,
    /// The disk has too few sectors for the geometry, or a disk of an older layout keeps no slot in the layout that is written.
    TooSmall,
    /// This sector holds what no journal writes.
    Damaged { sector: usize },
    /// A call of the disk failed.
    Disk,
    /// Out of memory.
    Memory,
    /// A word of the command line is not UTF-8.
    Words,
    /// The file at this path cannot be opened, read, made or written.
    File { path: &'a str },
    /// The image is already open, by this program or another.
    InUse,
    /// A thread of a running master could not start.
    Thread,
    /// A call of a client of a running master was refused.
    Call,
    /// The script has a device at a port that the image does not have.
    Fit,
    /// A port that has a driver does not exist, or has a simulated device too.
    Drivers,
    /// The text is not a script.
    Script,
    /// The numbers of ports and slots are not a geometry.
    Geometry,
}

impl Error for Fault<'_> {}

impl fmt::Display for Fault<'_> {
    ghost use Rattle.std.specs.Prelude.{Some};
    ghost use Rattle.iol_commands.specs.Fault.{fault_text};

    ghost output = { λ fault. Some (fault_text fault) };

    fn fmt<W: fmt::Write>(&self, f: &mut fmt::Formatter<W>) -> fmt::Result {
        match self {
            Fault::NotFormatted => f.write_str("the disk is not formatted"),
            Fault::AlreadyFormatted => f.write_str("the disk is already formatted"),
            Fault::TooSmall => f.write_str("the disk is too small"),
            Fault::Damaged { sector } => write!(f, "damaged at sector {sector}"),
            Fault::Disk => f.write_str("the disk failed"),
            Fault::Memory => f.write_str("out of memory"),
            Fault::Words => f.write_str("a word is not UTF-8"),
            Fault::File { path } => write!(f, "cannot open {path}"),
            Fault::InUse => f.write_str("the image is in use"),
            Fault::Thread => f.write_str("a thread could not start"),
            Fault::Call => f.write_str("a call failed"),
            Fault::Fit => f.write_str("the script does not fit the image"),
            Fault::Drivers => f.write_str("the drivers do not fit the image"),
            Fault::Script => f.write_str("the script is not valid"),
            Fault::Geometry => f.write_str("the geometry is not valid"),
        }
    }
}

impl Fault<'_> {
    // Returns the exit status: 2 if the words, the script or its geometry are not valid, and 1 otherwise.
    pub fn status(&self) -> u8
        ensures status { result ≡ status_of self.now }
        ensures small { result ≤ 2 }
    {
        match self {
            Fault::Words | Fault::Script | Fault::Geometry => 2,
            _ => 1,
        }
    }
}

impl From<AllocError> for Fault<'_> {
    ghost from_gives = { λ _ fault. fault ≡ Memory };

    fn from(_error: AllocError) -> Self {
        Fault::Memory
    }
}

impl<T: Drop> From<AllocFailed<T>> for Fault<'_> {
    ghost from_gives = { λ _ fault. fault ≡ Memory };

    fn from(_error: AllocFailed<T>) -> Self {
        Fault::Memory
    }
}

impl From<ScriptFault> for Fault<'_> {
    ghost from_gives = { λ cause fault. fault ≡ fault_for cause };

    fn from(fault: ScriptFault) -> Self {
        match fault {
            ScriptFault::NotValid => Fault::Script,
            ScriptFault::Memory => Fault::Memory,
        }
    }
}

impl From<DiskFault> for Fault<'_> {
    ghost from_gives = { λ _ fault. fault ≡ Disk };

    fn from(_fault: DiskFault) -> Self {
        Fault::Disk
    }
}

impl From<FormatFault> for Fault<'_> {
    ghost from_gives = { λ cause fault. fault ≡ unformatted cause };

    fn from(fault: FormatFault) -> Self {
        match fault {
            FormatFault::TooSmall => Fault::TooSmall,
            FormatFault::AlreadyFormatted => Fault::AlreadyFormatted,
            FormatFault::Memory => Fault::Memory,
            FormatFault::Disk(_) => Fault::Disk,
        }
    }
}

impl From<RecoverCause> for Fault<'_> {
    ghost from_gives = { λ cause fault. fault ≡ unrecovered cause };

    fn from(cause: RecoverCause) -> Self {
        match cause {
            RecoverCause::Disk(_) => Fault::Disk,
            RecoverCause::NotFormatted => Fault::NotFormatted,
            RecoverCause::TooSmall => Fault::TooSmall,
            RecoverCause::Damaged { sector } => Fault::Damaged { sector },
            RecoverCause::Memory => Fault::Memory,
        }
    }
}
