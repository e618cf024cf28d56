//! The flusher's search for a batch.

ghost use Rattle.std.specs.Prelude.{◌≡◌, ◌≤◌};
ghost use Rattle.iol_record.specs.declared.encode.TheConstants.{LARGEST_COMMAND_RECORD};
ghost use Rattle.iol_master.specs.Finding.{Finds, IsEndIn, end_found};

use crate::guarded::{Guarded, Phase};
use iol_front::Name;
use iol_journal::Batch;

/// The result of the flusher's search for a batch.
#[derive(Drop)]
pub(crate) enum SearchResult {
    Batch(Batch),
    Nothing,
    // There is no batch, and no more commands come.
    Closed,
    // There is a batch, but no memory for it.
    NoMemory,
}

impl<F: Name> Guarded<F> {
    // Takes the first batch that fits. Returns `Closed` only if there is no batch.
    pub(crate) fn find(&mut self, room: usize) -> SearchResult
        requires { LARGEST_COMMAND_RECORD ≤ room }
        ensures finds { Finds self.old room self.new result }
        ensures callers { self.new.callers ≡ self.old.callers }
    {
        match self.take_batch(room) {
            Ok(Some(batch)) => SearchResult::Batch(batch),
            Ok(None) if self.phase() == Phase::Closed => SearchResult::Closed,
            Ok(None) => SearchResult::Nothing,
            Err(_) => SearchResult::NoMemory,
        }
    }

    // Takes no batch. Returns `Closed` if nothing waits and no more commands come.
    pub(crate) fn find_end(&self) -> SearchResult
        ensures end { result ≡ end_found self.now }
        ensures closed { IsEndIn self.now.phase result }
    {
        if self.is_over() {
            SearchResult::Closed
        } else {
            SearchResult::Nothing
        }
    }
}
