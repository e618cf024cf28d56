//! The words for the status of a port (docs/FORMATS.md, "Explained runs").
ghost use Rattle.std.specs.Prelude.{◌≡◌};
ghost use Rattle.std.specs.Fmt.{WritesOnOk};
ghost use Rattle.iol_port.specs.Telling.{status_told};
ghost use Rattle.iol_texts.specs.Statuses.{decided_words, settled_words, status_words};

use crate::failure_words::{FailureWords, mismatch_words};
use crate::row::{Row, row_words};
use iol_port::PortStatus;
use std::fmt;

/// What the status of a port means, and what to do.
#[derive(Clone, Copy)]
pub struct StatusWords {
    pub status: PortStatus,
    /// The line of the table by which the port decided, if that is known.
    pub row: Option<Row>,
}

impl fmt::Display for StatusWords {
    ghost use Rattle.std.specs.Prelude.{Some};
    ghost use Rattle.iol_port.specs.Telling.{status_told};
    ghost use Rattle.iol_texts.specs.Statuses.{status_words};

    ghost output = { λ words. Some (status_words words.row (status_told words.status)) };

    fn fmt<W: fmt::Write>(&self, f: &mut fmt::Formatter<W>) -> fmt::Result {
        write_words(f, self.row, self.status)
    }
}

// Writes the words for a status. `row` is the line of the table by which the port decided, if that is known.
fn write_words<W: fmt::Write>(
    f: &mut fmt::Formatter<W>,
    row: Option<Row>,
    status: PortStatus,
) -> fmt::Result
    ensures { WritesOnOk W.write_str_gives f.old result (status_words row (status_told status)) f.new }
{
    match status {
        PortStatus::Mismatch(fault) => f.write_str(mismatch_words(fault)),
        PortStatus::Failed(fault) => write!(f, "{}", FailureWords(fault)),
        status => f.write_str(settled_words(row, status)),
    }
}

// The words for a status that is neither a mismatch nor a failure.
fn settled_words(row: Option<Row>, status: PortStatus) -> &'static str
    ensures { result.now ≡ settled_words row (status_told status) }
{
    match status {
        PortStatus::Off => "the port is not IOL_MANUAL: no device is looked after",
        PortStatus::Lost => "no device answers: check the cable, and connect a device",
        PortStatus::Starting => "the port looks at its device",
        PortStatus::Ready => decided_words(
            row,
            "the transfer is done: device and stored set are the same",
        ),
        PortStatus::ReadyLocked => decided_words(
            row,
            "the device's Data Storage is locked: nothing is done",
        ),
        PortStatus::ReadyEmpty => decided_words(row, "no set is stored: nothing is done"),
        PortStatus::Uploading => decided_words(row, "the device's parameters are read and stored"),
        PortStatus::Storing => "the device's parameters are read: the set waits for the disk",
        PortStatus::Downloading => decided_words(row, "the stored set is written to the device"),
        PortStatus::Mismatch(_) | PortStatus::Failed(_) => "",
    }
}

// The words for a status that a decision led to: those of its line of the table, or `other` if the line is not known.
fn decided_words(row: Option<Row>, other: &'static str) -> &'static str
    ensures { result.now ≡ decided_words row other.now }
{
    match row {
        Some(row) => row_words(row),
        None => other,
    }
}
