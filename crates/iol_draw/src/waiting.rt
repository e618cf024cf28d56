//! The commands that wait for the disk, from where they are accepted to where they are acknowledged.

use crate::mark::Wait;
use std::alloc::{AllocError, Global};

// The commands that were accepted, with their columns, and the number of them that are acknowledged.
#[derive(Drop)]
pub(crate) struct Waiting {
    accepted: Vec<(u64, usize)>,
    acknowledged: usize,
}

impl Waiting {
    pub(crate) fn new(alloc: Global) -> Waiting {
        Waiting {
            accepted: Vec::new(alloc),
            acknowledged: 0,
        }
    }

    // Adds a command that was accepted under this number.
    pub(crate) fn accept(&mut self, number: u64, column: usize) -> Result<(), AllocError> {
        self.accepted.push((number, column))?;
        Ok(())
    }

    // Adds the wait of each waiting command up to this number, since all of them were acknowledged.
    pub(crate) fn acknowledge(
        &mut self,
        number: u64,
        column: usize,
        waits: &mut Vec<Wait>,
    ) -> Result<(), AllocError> {
        for at in self.acknowledged..self.accepted.len() {
            let (waiting, accepted) = self.accepted[at];
            if number < waiting {
                return Ok(());
            }
            waits.push(Wait {
                number: waiting,
                from: accepted,
                to: column,
            })?;
            self.acknowledged = at + 1;
        }
        Ok(())
    }
}
