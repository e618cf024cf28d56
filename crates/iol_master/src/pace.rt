//! The flusher's pace for a checkpoint that it makes between batches.

ghost use Rattle.std.specs.Prelude.{◌≡◌, ◌*◌, ◌/◌, min, IfNone, IfSome};
ghost use Rattle.std.specs.Duration.{as_nanos};
ghost use Rattle.iol_journal.specs.declared.batch.Batch.{Batch};
ghost use Rattle.iol_master.specs.Pace.{Follows, after, is_owing, longest_delay};
ghost use Rattle.iol_master.specs.declared.finding.SearchResult.TheVariants as found;
ghost use Rattle.iol_master.specs.declared.pace.Checkpoint.TheVariants as checkpoint;

use crate::finding::SearchResult;
use std::marker::Model;
use std::time::{Clock, Duration, Instant};

const LONGEST_MICROSECONDS: u64 = 20_000;

/// The progress of a checkpoint that is made between batches.
#[derive(Clone, Copy, Debug, PartialEq, Eq)]
pub(crate) enum Checkpoint {
    /// None of its calls was made.
    Due,
    /// One of its calls was made, and no batch was given since.
    Begun,
    /// A batch was given since, which the checkpoint has to carry.
    Owing,
}

/// The flusher's pace for a due checkpoint. Before the first call of the checkpoint, the flusher waits for a batch as long as the last
/// batch took, at most 20 ms. Once it has waited and no batch came, it does not wait again. So a client that sends its next change at
/// once meets no checkpoint until no slot is free. Once the checkpoint has begun, one batch may be given before it is done. It would
/// have to carry each further batch, and the batch that finds no free slot would wait for all of them. A contract sees the record
/// `PaceView` of `specs/Pace.antt`.
#[derive(Drop)]
pub(crate) struct Pace {
    // when the batch underway was given, if the clock could be read
    given: Option<Instant>,
    microseconds: u64,
    checkpoint: Checkpoint,
}

impl Model for Pace {
    ghost use Rattle.std.specs.Prelude.{◌≤◌};
    ghost use Rattle.iol_master.specs.Pace.{PaceView, longest_delay};

    ghost Value = { PaceView };

    ghost view = { λ p. record { microseconds = p.microseconds; checkpoint = p.checkpoint } };

    ghost invariant = { λ p. p.microseconds ≤ longest_delay };
}

impl Pace {
    // Makes the pace before any batch was written.
    pub(crate) fn new() -> Pace
        ensures { result ≡ record { microseconds = 0; checkpoint = checkpoint.Due } }
    {
        Pace {
            given: None,
            microseconds: 0,
            checkpoint: Checkpoint::Due,
        }
    }

    // Returns whether the checkpoint's calls come before the next batch.
    pub(crate) fn is_owing(&self) -> bool
        ensures { result ≡ is_owing self.now.checkpoint }
    {
        self.checkpoint == Checkpoint::Owing
    }

    // Returns how long to wait for a batch, or `None` if not at all.
    pub(crate) fn limit(&self) -> Option<Duration>
        ensures none { IfNone result (self.now.microseconds ≡ 0) }
        ensures some { IfSome result (λ limit. as_nanos limit ≡ self.now.microseconds * 1_000) }
    {
        match self.microseconds {
            0 => None,
            microseconds => Some(Duration::from_micros(microseconds)),
        }
    }

    // Notes that a batch is given now.
    pub(crate) fn begin(&mut self, clock: &impl Clock)
        ensures { self.new ≡ self.old }
    {
        self.given = Instant::now(clock).ok();
    }

    // Notes that the given batch is durable now. If the clock cannot be read, the flusher will not wait for the next.
    pub(crate) fn end(&mut self, clock: &impl Clock)
        ensures { self.new.checkpoint ≡ self.old.checkpoint }
    {
        let took = self.given.and_then(|given| given.elapsed(clock).ok());
        self.microseconds = took.map_or(0, delay_after);
    }

    // Notes that none of the next checkpoint's calls was made.
    pub(crate) fn rest(&mut self)
        ensures { self.new ≡ record self.old { checkpoint = checkpoint.Due } }
    {
        self.checkpoint = Checkpoint::Due;
    }

    // Updates the pace with what the flusher found.
    pub(crate) fn follow(&mut self, found: &SearchResult)
        ensures { Follows self.old found.now self.new }
    {
        match (found, self.checkpoint) {
            (SearchResult::Nothing, Checkpoint::Due) => {
                self.microseconds = 0;
                self.checkpoint = Checkpoint::Begun;
            }
            (SearchResult::Nothing, _) => self.microseconds = 0,
            (SearchResult::Batch(_), Checkpoint::Begun) => self.checkpoint = Checkpoint::Owing,
            _ => {}
        }
    }
}

// Returns the number of microseconds to wait after a batch that took this long.
fn delay_after(took: Duration) -> u64
    ensures { result ≡ min (as_nanos took / 1_000) longest_delay }
{
    u64::try_from(took.as_micros()).map_or(
        LONGEST_MICROSECONDS,
        |took| took.min(LONGEST_MICROSECONDS),
    )
}

// A worked example of a checkpoint between batches: its first call begins it, the next batch is owed to it, and nothing else changes
// that.
pub(crate) fn a_checkpoint_between_batches()
    ensures begun { after checkpoint.Due found.Nothing ≡ checkpoint.Begun }
    ensures calls { after checkpoint.Begun found.Nothing ≡ checkpoint.Begun }
    ensures due { (batch : Batch) → after checkpoint.Due (found.Batch batch) ≡ checkpoint.Due }
    ensures owing { (batch : Batch) → after checkpoint.Begun (found.Batch batch) ≡ checkpoint.Owing }
    ensures owed { after checkpoint.Owing found.Nothing ≡ checkpoint.Owing }
    ensures closed { after checkpoint.Owing found.Closed ≡ checkpoint.Owing }
{}
