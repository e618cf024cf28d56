//! The trait of every link to the devices of a port.

ghost use Rattle.std.specs.Prelude.{◌≡◌, ℕ, IsErr, IsNone};
ghost use Rattle.iol_link.specs.Link.{LinkCall, TakeEvent, ReadPage, Exchange, LinkAnswer, event_answer, page_answer, exchange_answer};
ghost use Rattle.iol_link.specs.Link.{connection_after, last_connection};

use crate::parts::ISDU_OCTETS;
use arrayvec::ArrayVec;
use thiserror::Error;

/// The number of octets of Direct Parameter page 1.
pub const PAGE_OCTETS: usize = 16;

/// The device was lost. The next answer comes from the next connection, where another device may be.
#[derive(Clone, Copy, Debug, PartialEq, Eq, Drop, Error)]
#[error("the device is lost")]
pub struct Lost;

/// A link to the devices of a port, one device after another.
///
/// Its relation, `steps`, says which answers a call may have and which link the call leaves; every
/// call keeps it. The relation of a simulated link is exact. That of a link to real devices says
/// what is known of them, which may be nothing: `ghost steps = { λ _ _ _ _. Unit {0} }`.
///
/// # What the author of a link promises
/// The clauses are proved of each `impl`. For real devices the clauses cannot express the following,
/// on which every user of a link relies:
/// - `device` identifies the devices: within one connection a single device answers, and it is the
///   same piece of hardware. If another may have been plugged in, after a loss of communication or a
///   new wake-up, the next call is `Lost` and does not reach the new device.
/// - `steps` claims of the devices only what is known to be true.
/// - `exchange` sends the request unchanged, once. It returns the octets that the device sent in
///   answer to this request, as received: neither corrected nor checked, and none left over from an
///   earlier request.
/// - An event is reported once, in the order in which the device raised it, and belongs to the
///   present connection.
/// - Each call ends within a time that the author states. A device that is silent for that long is
///   `Lost`.
/// - If the device replies Device busy, because it has no answer yet, that is an answer and not
///   `Lost`.
pub trait DeviceLink {
    /// The number of the present connection.
    ghost number: { Self → ℕ };

    /// The device that answers. While the number of the connection stays the same, so does the
    /// device. For a simulated link this is known; for a hardware link its author assumes that the
    /// device stays within one connection.
    ghost device: { Self → ℕ };

    /// Starting from this link, the call may have this answer and leave that link.
    ghost steps: { Self → LinkCall → LinkAnswer → Self → Type 0 };

    /// The number of the present connection. It rises by one with each `Lost`; at `u64::MAX`, where
    /// it cannot rise, no call is answered.
    fn connection(&self) -> u64
        ensures { result ≡ number self.now };

    /// Takes the oldest pending event and returns its EventCode, 0 to 0xFFFF, or `None` if no event
    /// is pending. Always `None` on the last connection.
    fn take_event(&mut self) -> Option<u16>
        ensures step { steps self.old TakeEvent (event_answer result) self.new }
        ensures same_connection { number self.new ≡ number self.old }
        ensures same_device { device self.new ≡ device self.old }
        ensures last { number self.old ≡ last_connection → IsNone result };

    /// Reads the octets of Direct Parameter page 1, at their addresses 0x00 to 0x0F (IO-Link V1.1,
    /// Direct Parameter page): the two octets of VendorID at 0x07 and the three of DeviceID at 0x09,
    /// most significant octet first.
    ///
    /// # Errors
    /// `Lost` if the device was lost, and always on the last connection.
    fn read_page(&mut self) -> Result<[u8; PAGE_OCTETS], Lost>
        ensures step { steps self.old ReadPage (page_answer result) self.new }
        ensures connection { number self.new
            ≡ connection_after (number self.old) (page_answer result) }
        ensures same_device { number self.new ≡ number self.old → device self.new ≡ device self.old }
        ensures last { number self.old ≡ last_connection → IsErr result };

    /// Sends the octets of a request and returns the octets that the device answers: any octets, 0
    /// to 238 of them. More than 238 octets are no ISDU, and a link may be `Lost` if the request has
    /// more.
    ///
    /// # Errors
    /// `Lost` if the device was lost, and always on the last connection.
    fn exchange(&mut self, request: &[u8]) -> Result<ArrayVec<u8, ISDU_OCTETS>, Lost>
        ensures step { steps self.old (Exchange request.now) (exchange_answer result) self.new }
        ensures connection { number self.new
            ≡ connection_after (number self.old) (exchange_answer result) }
        ensures same_device { number self.new ≡ number self.old → device self.new ≡ device self.old }
        ensures last { number self.old ≡ last_connection → IsErr result };
}
