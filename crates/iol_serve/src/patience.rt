//! The time for which a call of a link to a driver waits.

ghost use Rattle.std.specs.Prelude.{◌≡◌, ◌+◌, min};
ghost use Rattle.iol_serve.specs.Patience.{IsNextPart, longest_part};

use std::sync::Arc;
use std::sync::atomic::{AtomicBool, Ordering};
use std::time::{Clock, Duration, Instant};

/// The longest wait, in milliseconds, before a call checks again whether the master is to end. If it is, the call waits no
/// longer than this from then on.
const PART_MILLISECONDS: u64 = 50;

/// The time for which a call waits: as long as a driver may be silent, and only 50 ms more once it sees that the master is to
/// end.
#[derive(Drop)]
pub(crate) struct Patience {
    silence: Duration,
    ending: Arc<AtomicBool>,
    began: Option<Instant>,
    limit: u64,
}

impl Patience {
    pub(crate) fn new(silence: Duration, ending: Arc<AtomicBool>) -> Patience {
        Patience {
            silence,
            ending,
            began: None,
            limit: 0,
        }
    }

    // Notes that a call begins now.
    pub(crate) fn begin(&mut self, clock: &impl Clock) {
        self.began = Instant::now(clock).ok();
        self.limit = milliseconds(self.silence);
    }

    // Returns whether the master is to end.
    pub(crate) fn is_ending(&self) -> bool {
        self.ending.load(Ordering::SeqCst)
    }

    // Returns how long the call has waited, if the clock can be read.
    pub(crate) fn waited(&self, clock: &impl Clock) -> Option<Duration> {
        self.began?.elapsed(clock).ok()
    }

    // Returns how long the call waits next, or `None` once it has waited long enough or if the clock cannot be read.
    pub(crate) fn next_wait(&mut self, clock: &impl Clock) -> Option<Duration> {
        let waited = milliseconds(self.waited(clock)?);
        if self.is_ending() {
            self.limit = last_limit(self.limit, waited);
        }
        let part = next_part(self.limit, waited)?;
        Some(Duration::from_millis(part))
    }
}

// Returns how many milliseconds a call waits next that has waited `waited` of at most `limit`, or `None` once it has
// waited long enough.
fn next_part(limit: u64, waited: u64) -> Option<u64>
    ensures { IsNextPart limit waited result }
{
    if limit <= waited {
        return None;
    }
    Some((limit - waited).min(PART_MILLISECONDS))
}

// Returns how many milliseconds a call waits at most once the master is to end.
fn last_limit(limit: u64, waited: u64) -> u64
    ensures { result ≡ min limit (waited + longest_part) }
{
    limit.min(waited.saturating_add(PART_MILLISECONDS))
}

// Returns a time in whole milliseconds, or the largest number if there are more.
fn milliseconds(time: Duration) -> u64 {
    u64::try_from(time.as_millis()).unwrap_or(u64::MAX)
}
