//! The meaning of a line of a driver.

use arrayvec::ArrayVec;
use iol_link::{ISDU_OCTETS, PAGE_OCTETS};

/// The meaning of a line of a driver.
#[derive(Debug, PartialEq, Eq, Drop)]
pub enum Line {
    /// The device raised the event with this EventCode.
    Event(u16),
    /// The answer to the request with this number.
    Answer { number: u64, reply: Reply },
    /// The line has none of the other meanings.
    Malformed,
}

/// The contents of an answer.
#[derive(Debug, PartialEq, Eq, Drop)]
pub enum Reply {
    /// The octets of Direct Parameter page 1, at their addresses 0x00 to 0x0F.
    Page([u8; PAGE_OCTETS]),
    /// The octets that the device answered to an ISDU request, 0 to 238.
    Isdu(ArrayVec<u8, ISDU_OCTETS>),
    /// The device is lost.
    Lost,
}
