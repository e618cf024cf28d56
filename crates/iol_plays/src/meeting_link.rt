//! A link that does not answer before its neighbours were asked too.

use arrayvec::ArrayVec;
use iol_link::{DeviceLink, ISDU_OCTETS, Lost, PAGE_OCTETS};
use std::alloc::Global;
use std::sync::Arc;
use std::sync::atomic::{AtomicU64, Ordering};
use std::thread;

/// The number of pages that were requested, and of requests that were made, of all links together.
#[derive(Drop)]
pub(crate) struct Meetings {
    pub(crate) pages: AtomicU64,
    pub(crate) requests: AtomicU64,
}

/// A link over another link. It gives no page before `least` pages were requested, and answers no request before `least` requests
/// were made, of all links together.
#[derive(Drop)]
pub(crate) struct MeetingLink<L: DeviceLink> {
    pub(crate) link: L,
    pub(crate) asked: Arc<Meetings, Global>,
    pub(crate) least: u64,
}

// Counts one more call, and waits until `least` calls were made.
fn meet(calls: &AtomicU64, least: u64) {
    calls.fetch_add(1, Ordering::SeqCst);
    for _turn in 0..u64::MAX {
        if least <= calls.load(Ordering::SeqCst) {
            break;
        }
        thread::yield_now();
    }
}

impl<L: DeviceLink> DeviceLink for MeetingLink<L> {
    ghost number = { λ l. L.number l.link };

    ghost device = { λ l. L.device l.link };

    ghost steps = { λ old call answer new. L.steps old.link call answer new.link };

    fn connection(&self) -> u64 {
        self.link.connection()
    }

    fn take_event(&mut self) -> Option<u16> {
        self.link.take_event()
    }

    fn read_page(&mut self) -> Result<[u8; PAGE_OCTETS], Lost> {
        meet(&self.asked.pages, self.least);
        self.link.read_page()
    }

    fn exchange(&mut self, request: &[u8]) -> Result<ArrayVec<u8, ISDU_OCTETS>, Lost> {
        meet(&self.asked.requests, self.least);
        self.link.exchange(request)
    }
}
