//! What a journal has besides its disk, at rest or while it writes.

use crate::history::History;
use iol_layout::Place;
use iol_types::MasterState;
use std::alloc::Global;

/// What a journal has besides its disk, at rest or while it writes: where it writes next, how many commands it has, the
/// state after them, and what it has done.
#[derive(Drop)]
pub struct Parts {
    pub alloc: Global,
    pub place: Place,
    pub number: u64,
    pub state: MasterState,
    pub history: History,
}
