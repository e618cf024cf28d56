//! The actions of a port, and the inputs that it is fed.

use crate::call::{CoreCall, Reply};
use arrayvec::ArrayVec;
use iol_link::{ISDU_OCTETS, PAGE_OCTETS, Request};

/// The EventCode with which a device asks for an upload (IO-Link V1.1, Data Storage, DS_UPLOAD_REQ).
pub const UPLOAD_REQUEST: u16 = 0xFF91;

/// What a port does next. The caller must carry it out, since it may hold a permit.
pub enum Action {
    /// Do nothing, until the port is woken or the core replies.
    Idle,
    /// Read Direct Parameter page 1 of the device.
    ReadPage,
    /// Send this request to the device.
    Exchange(Request),
    /// Make this call of the core.
    Ask(CoreCall),
}

/// What a port is fed. The caller must feed it, since it may hold a permit.
pub enum Input {
    /// Wakes a settled port, which then checks its work and its device again.
    Wake,
    /// The device has raised an event with this EventCode.
    Event(u16),
    /// Direct Parameter page 1 of the device, read on this connection of the link.
    Page {
        connection: u64,
        octets: [u8; PAGE_OCTETS],
    },
    /// The octets with which the device answered a request.
    Octets(ArrayVec<u8, ISDU_OCTETS>),
    /// The device was lost, in place of a page or an answer.
    Lost,
    /// The core's reply to a call.
    Reply(Reply),
}

/// What a port needs from its link for its next step. That step wakes a settled port first.
#[derive(Drop)]
pub enum Want {
    /// Direct Parameter page 1 of the device.
    Page,
    /// The device's answer to this request.
    Answer(Request),
    /// Nothing: the step calls the core.
    Nothing,
}
