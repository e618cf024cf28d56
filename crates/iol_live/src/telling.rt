//! The reports of receipts while a master runs.
ghost use Rattle.std.specs.Prelude.{◌≡◌};

use iol_types::PortId;
use std::io::{self, Write};

/// What is written to standard error while a master runs (docs/FORMATS.md, "Texts").
#[derive(Clone, Copy, Debug, PartialEq, Eq)]
pub enum Telling {
    /// Nothing is written.
    Nothing,
    /// A line is written for each receipt, as it comes.
    Receipts,
    /// One line is rewritten with the number of receipts so far.
    Progress,
}

/// A receipt, as its client reports it.
#[derive(Clone, Copy, Debug)]
pub(crate) struct PortReceipt {
    pub(crate) port: PortId,
    pub(crate) number: u64,
}

impl Telling {
    // Reports a receipt; `count` includes it. A failed write does not change the run.
    pub(crate) fn tell<E: Write>(self, err: &mut E, told: PortReceipt, count: usize)
        ensures { self ≡ Telling.Nothing → err.new ≡ err.old }
    {
        let _ = match self {
            Telling::Nothing => Ok(()),
            Telling::Receipts => write_receipt(err, told),
            Telling::Progress => write_progress(err, count),
        };
    }

    // Ends the reports of `count` receipts: a line that was rewritten is ended.
    pub(crate) fn end<E: Write>(self, err: &mut E, count: usize)
        ensures { self ≡ Telling.Nothing → err.new ≡ err.old }
    {
        if self == Telling::Progress && 0 < count {
            let _ = err.write_all(b"\n");
        }
    }
}

fn write_receipt<E: Write>(err: &mut E, told: PortReceipt) -> io::Result<()> {
    writeln!(err, "port {} receipt {}", told.port.number(), told.number)?;
    err.flush()
}

fn write_progress<E: Write>(err: &mut E, count: usize) -> io::Result<()> {
    write!(err, "\rreceipts {count}")?;
    err.flush()
}
