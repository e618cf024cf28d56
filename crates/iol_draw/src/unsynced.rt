//! Finds the sectors that were written and not synced when the power stops.

use iol_engine::Event;
use iol_explain::{Explained, SectorUse, ToldCall, calls_between, calls_of_run, place_of};
use iol_run::Stamped;
use std::alloc::{AllocError, Global};

// Sectors that follow one another in one record or body, or a single sector, and the place of the first.
#[derive(Clone, Copy)]
pub(crate) struct Span {
    pub place: SectorUse,
    pub first: usize,
    pub last: usize,
}

impl Span {
    // Returns whether this sector is among them.
    fn has(&self, sector: usize) -> bool {
        self.first <= sector && sector <= self.last
    }

    // Returns whether a sector of this place is the next one of the same record or body.
    fn reaches(&self, place: SectorUse, sector: usize) -> bool {
        let is_same = match (self.place, place) {
            (SectorUse::Record(_, port), SectorUse::Record(_, next)) => port == next,
            (SectorUse::Body(_, slot), SectorUse::Body(_, next)) => slot == next,
            _ => false,
        };
        is_same && self.last.checked_add(1) == Some(sector)
    }
}

// Returns the sectors that were written after the last sync that succeeded, in the order of their writes, each once.
pub(crate) fn unsynced_spans(alloc: Global, run: &Explained) -> Result<Vec<Span>, AllocError> {
    let mut spans = Vec::new(alloc);
    let calls = calls_of_run(&run.calls);
    let from = unsynced_from(calls, &run.events);
    for call in calls_between(calls, from, calls.len()) {
        if let ToldCall::Write { sector, .. } = *call {
            add_sector(&mut spans, place_of(run.geometry.layout(), sector), sector)?;
        }
    }
    Ok(spans)
}

// Returns the number of calls up to the last sync that succeeded. A sync that failed is the last call of its disk.
fn unsynced_from(calls: &[ToldCall], events: &[Stamped]) -> usize {
    let made = if has_failed(events) {
        calls.len().saturating_sub(1)
    } else {
        calls.len()
    };
    let mut from = 0;
    for at in 0..made {
        if matches!(calls[at], ToldCall::Sync) {
            from = at + 1;
        }
    }
    from
}

// Returns whether a disk call has failed.
fn has_failed(events: &[Stamped]) -> bool {
    let mut failed = false;
    for stamped in events {
        failed = failed || matches!(stamped.event, Event::DiskFailed);
    }
    failed
}

// Adds a sector to the span that it continues, or as a span of its own. A sector that a span has is not added again.
fn add_sector(spans: &mut Vec<Span>, place: SectorUse, sector: usize) -> Result<(), AllocError> {
    for span in spans.iter_mut() {
        if span.has(sector) {
            return Ok(());
        }
        if span.reaches(place, sector) {
            span.last = sector;
            return Ok(());
        }
    }
    let span = Span {
        place,
        first: sector,
        last: sector,
    };
    spans.push(span)?;
    Ok(())
}
