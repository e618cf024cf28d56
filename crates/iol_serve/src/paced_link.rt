//! A link that rests between two reads of its device's page.

use arrayvec::ArrayVec;
use iol_link::{DeviceLink, ISDU_OCTETS, Lost, PAGE_OCTETS};
use std::thread;
use std::time::{Clock, Duration, Instant};

/// The least time between two reads of a device's page, in milliseconds.
///
/// A port that is ready reads its device's page again and again, so as to find a loss. A driver that answers at once would keep two
/// processors busy.
pub const CYCLE_MILLISECONDS: u64 = 20;

/// A link whose reads of the page are at least `CYCLE_MILLISECONDS` apart. Otherwise it is the link that it holds.
#[derive(Drop)]
pub struct PacedLink<L: DeviceLink, R: Clock> {
    link: L,
    rt: R,
    read: Option<Instant>,
}

impl<L: DeviceLink, R: Clock> PacedLink<L, R> {
    /// Makes a paced link of a link whose page was not read so far.
    pub fn new(link: L, rt: R) -> PacedLink<L, R> {
        PacedLink {
            link,
            rt,
            read: None,
        }
    }

    // Waits until enough time has passed since the last read of the page.
    fn rest(&self) {
        if let Some(left) = self.left() {
            thread::sleep(&self.rt, left);
        }
    }

    // Returns the time that is left to wait, or `None` if the page was not read before or the clock cannot be read.
    fn left(&self) -> Option<Duration> {
        let passed = self.read?.elapsed(&self.rt).ok()?;
        Some(Duration::from_millis(CYCLE_MILLISECONDS).saturating_sub(passed))
    }
}

impl<L: DeviceLink, R: Clock> DeviceLink for PacedLink<L, R> {
    ghost number = { λ paced. L.number paced.link };

    ghost device = { λ paced. L.device paced.link };

    ghost steps = { λ old call answer new. L.steps old.link call answer new.link };

    fn connection(&self) -> u64 {
        self.link.connection()
    }

    fn take_event(&mut self) -> Option<u16> {
        self.link.take_event()
    }

    fn read_page(&mut self) -> Result<[u8; PAGE_OCTETS], Lost> {
        self.rest();
        let page = self.link.read_page();
        self.read = Instant::now(&self.rt).ok();
        page
    }

    fn exchange(&mut self, request: &[u8]) -> Result<ArrayVec<u8, ISDU_OCTETS>, Lost> {
        self.link.exchange(request)
    }
}
