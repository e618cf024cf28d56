//! The marks that a picture shows of a run. A column is a place in the order of the run, from 0 on.

use crate::lines::Lines;
use crate::sign::Sign;
use iol_explain::SectorUse;
use iol_port::PortStatus;
use iol_types::PortId;

// What happened in one column, with the lines of the explained run for it.
#[derive(Clone, Copy)]
pub(crate) struct Mark {
    pub what: What,
    pub column: usize,
    pub said: Lines,
}

#[derive(Clone, Copy)]
pub(crate) enum What {
    // A command was accepted under this number.
    Accepted {
        number: u64,
    },
    // A command was refused.
    Refused,
    // All commands up to a number were acknowledged.
    Acknowledged,
    // A port has read the page of its device.
    Page {
        port: PortId,
    },
    // A port has got an answer from its device.
    Exchange {
        port: PortId,
    },
    // A port has lost its device.
    Loss {
        port: PortId,
    },
    // A sector of this place was written, with the octets of an open gate or with others.
    Wrote {
        place: SectorUse,
        is_gate_open: bool,
    },
    // The disk was synced.
    Synced,
    // The disk call before failed.
    DiskFailed,
}

impl What {
    // Returns the sign that shows it.
    pub(crate) fn sign(self) -> Sign {
        match self {
            What::Accepted { .. } => Sign::Accepted,
            What::Refused => Sign::Refused,
            What::Acknowledged => Sign::Acknowledged,
            What::Page { .. } => Sign::Page,
            What::Exchange { .. } => Sign::Exchange,
            What::Loss { .. } => Sign::Loss,
            What::Wrote {
                place,
                is_gate_open,
            } => sign_of_write(place, is_gate_open),
            What::Synced => Sign::Sync,
            What::DiskFailed => Sign::Failed,
        }
    }
}

// Returns the sign of a write, which may open or close a gate.
fn sign_of_write(place: SectorUse, is_gate_open: bool) -> Sign {
    match place {
        SectorUse::DiskGate | SectorUse::AreaGate(_) | SectorUse::SlotGate(_, _) if is_gate_open =>
            Sign::Opened,
        SectorUse::DiskGate | SectorUse::AreaGate(_) | SectorUse::SlotGate(_, _) => Sign::Closed,
        _ => Sign::Write,
    }
}

// The wait of a command, from the column where it was accepted to the one where it was acknowledged.
#[derive(Clone, Copy)]
pub(crate) struct Wait {
    pub number: u64,
    pub from: usize,
    pub to: usize,
}

// The status of a port, from one column up to another.
#[derive(Clone, Copy)]
pub(crate) struct Bar {
    pub status: PortStatus,
    pub from: usize,
    pub to: usize,
    pub said: Lines,
}

// A device with these numbers, which a port has found.
#[derive(Clone, Copy)]
pub(crate) struct Device<'a> {
    pub column: usize,
    pub numbers: &'a str,
    pub arrival: Arrival,
}

// Whether a port has found another device before.
#[derive(Clone, Copy)]
pub(crate) enum Arrival {
    First,
    Anew,
}
