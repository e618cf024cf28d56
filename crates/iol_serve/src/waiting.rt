//! The number of requests that wait for their answers.

ghost use Rattle.std.specs.Prelude.{◌≡◌, ◌≤◌, ◌-◌};
ghost use Rattle.iol_serve.specs.Waiting.{BeginsWait, most_waiting};

use std::sync::{Condvar, Mutex, Wait};

/// The most requests that wait for their answers at once. Further lines are read only once fewer wait.
pub const MOST_WAITING: usize = 64;

/// The number of requests that wait, which is never above `MOST_WAITING`.
#[derive(Drop)]
pub(crate) struct Count {
    requests: usize,
    ghost few: { requests ≤ most_waiting },
}

impl Count {
    fn new() -> Count
        ensures { result.requests ≡ 0 }
    {
        Count { requests: 0 }
    }

    // Counts one more request, unless `MOST_WAITING` wait. Returns whether it is counted.
    fn begin(&mut self) -> bool
        ensures { BeginsWait result self.old.requests self.new.requests }
    {
        if MOST_WAITING <= self.requests {
            return false;
        }
        self.requests += 1;
        true
    }

    // Counts one request less.
    fn end(&mut self)
        ensures { self.new.requests ≡ self.old.requests - 1 }
    {
        self.requests = self.requests.saturating_sub(1);
    }
}

/// Evidence that a request is counted, until it is answered.
#[derive(Drop)]
pub(crate) struct Counted(());

/// Counts the requests that wait for their answers.
#[derive(Drop)]
pub(crate) struct Waiting {
    count: Mutex<Count>,
    fewer: Condvar,
}

impl Waiting {
    // Makes a count of no requests.
    pub(crate) fn new() -> Waiting {
        Waiting {
            count: Mutex::new(Count::new()),
            fewer: Condvar::new(),
        }
    }

    // Counts one more request, once fewer than `MOST_WAITING` wait.
    pub(crate) fn begin<R: Wait>(&self, rt: &R) -> Counted {
        let mut count = self.count.lock(rt);
        for _ in rt.forever() {
            if count.begin() {
                return Counted(());
            }
            count = self.fewer.wait(rt, count);
        }
        unreachable!()
    }

    // Counts one request less, which is answered.
    pub(crate) fn end<R: Wait>(&self, rt: &R, _counted: Counted) {
        let mut count = self.count.lock(rt);
        count.end();
        drop(count);
        self.fewer.notify_one();
    }
}
