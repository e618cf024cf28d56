//! The lanes of a picture, one below the other.

use crate::labels::Labels;
use crate::lane::Lane;
use crate::mark::What;
use crate::port_marks::PortMarks;
use crate::scale::Scale;
use iol_explain::SectorUse;
use iol_types::PortId;
use std::alloc::{AllocError, Global};

// The heights at which the lane of the clients begins and ends, and those of its two rows: accepted and refused commands, and
// below them acknowledgements.
pub(crate) const CLIENTS_TOP: usize = 30;

pub(crate) const CLIENTS_BOTTOM: usize = 86;

pub(crate) const ACCEPTED_TOP: usize = 50;

pub(crate) const ACKNOWLEDGED_TOP: usize = 76;
// The distance between lanes.
const GAP: usize = 4;
// The distances from the top of the disk's lane down to its rows, and its height.
pub(crate) const BATCHES: usize = 16;

pub(crate) const CHECKPOINTS: usize = 40;

const DISK_HEIGHT: usize = 56;

#[derive(Drop)]
pub(crate) struct Layout<'a> {
    pub scale: Scale,
    // ordered by the port's place
    pub lanes: Vec<Lane<'a>>,
    pub disk_top: usize,
}

impl<'a> Layout<'a> {
    // Makes the lanes of these ports, at this scale; its stop is moved to the right if their texts reach farther.
    pub(crate) fn of(
        alloc: Global,
        scale: Scale,
        labels: &Labels,
        ports: Vec<PortMarks<'a>>,
    ) -> Result<Layout<'a>, AllocError> {
        let mut reached = scale;
        let mut lanes = Vec::new(alloc);
        let mut top = CLIENTS_BOTTOM + GAP;
        for marks in ports {
            let lane = Lane::of(alloc, scale, labels, top, marks)?;
            reached = reached.reaching(lane.right());
            top = lane.bottom().saturating_add(GAP);
            lanes.push(lane)?;
        }
        Ok(Layout {
            scale: reached,
            lanes,
            disk_top: top,
        })
    }

    // Returns the height at which the lanes end.
    pub(crate) fn bottom(&self) -> usize {
        self.disk_top.saturating_add(DISK_HEIGHT)
    }

    // Returns the distance from the top of the picture to a sign.
    pub(crate) fn top(&self, what: What) -> usize {
        match what {
            What::Accepted { .. } | What::Refused => ACCEPTED_TOP,
            What::Acknowledged => ACKNOWLEDGED_TOP,
            What::Page { port } | What::Exchange { port } | What::Loss { port } => {
                self.signs_of(port)
            }
            What::Wrote {
                place,
                is_gate_open,
            } => self.disk_top.saturating_add(row_of(place, is_gate_open)),
            What::Synced | What::DiskFailed => self.disk_top.saturating_add(BATCHES),
        }
    }

    // Returns the height of the signs of a port.
    fn signs_of(&self, port: PortId) -> usize {
        match self.lanes.get(port.place()) {
            Some(lane) => lane.signs(),
            None => self.disk_top,
        }
    }
}

// Returns the row of a write: that of batches for the body of a slot and for opening its gate, and otherwise that of
// checkpoints.
fn row_of(place: SectorUse, is_gate_open: bool) -> usize {
    match place {
        SectorUse::Body(_, _) => BATCHES,
        SectorUse::SlotGate(_, _) if is_gate_open => BATCHES,
        _ => CHECKPOINTS,
    }
}
