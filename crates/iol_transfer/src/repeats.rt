//! Requests that are sent again if the device is busy.
ghost use Rattle.std.specs.Prelude.{◌≡◌, ◌+◌, ◌<◌, OnOk, IfErr};
ghost use Rattle.iol_transfer.specs.declared.fault.TransferFault.TheVariants as fault;

use crate::fault::TransferFault;
use std::marker::Model;

/// The most times that a request is sent, if the device answers Device busy each time.
pub const MOST_REQUESTS: u8 = 16;

// The number of times in a row that a request was answered Device busy, below 16. A contract sees
// the number.
#[derive(Drop)]
pub(crate) struct Repeats {
    busy: u8,
}

impl Model for Repeats {
    ghost use Rattle.std.specs.Prelude.{ℕ, ◌<◌};
    ghost use Rattle.iol_transfer.specs.declared.repeats.TheConstants.{MOST_REQUESTS};

    ghost Value = { ℕ };

    ghost view = { λ r. r.busy };

    ghost invariant = { λ r. r.busy < MOST_REQUESTS };
}

impl Repeats {
    // The count for a new request: no Device busy yet.
    pub(crate) fn none() -> Repeats
        ensures { result ≡ 0 }
    {
        Repeats { busy: 0 }
    }

    // Counts a Device busy. Returns `Busy` if it is the sixteenth.
    pub(crate) fn again(&mut self) -> Result<(), TransferFault>
        ensures again { OnOk result ((self.new ≡ self.old + 1) × (self.old + 1 < MOST_REQUESTS)) }
        ensures sixteenth { IfErr result (λ why. (why ≡ TransferFault.Busy) × (self.old + 1 ≡ MOST_REQUESTS)) }
    {
        if self.busy + 1 < MOST_REQUESTS {
            self.busy += 1;
            Ok(())
        } else {
            Err(TransferFault::Busy)
        }
    }
}
