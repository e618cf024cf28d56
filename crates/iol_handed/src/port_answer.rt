//! The answers of a port to its caller.

use arrayvec::ArrayVec;
use iol_link::ISDU_OCTETS;

/// The answer of a port to its caller.
#[derive(Drop)]
pub enum PortAnswer {
    /// The master does not have this port.
    Absent,
    /// The report does not fit what is waited for.
    Misfit,
    /// Out of memory: nothing changed, and the call may be made again.
    Memory,
    /// The report is noted for the port's next step.
    Noted,
    /// Nothing is to be done until the port is woken, or until what it has stored is durable.
    Nothing,
    /// The port has made a step, and is to be asked again.
    Again,
    /// Direct Parameter page 1 of the device is to be read.
    Page,
    /// These octets are to be sent to the device.
    Request(ArrayVec<u8, ISDU_OCTETS>),
}
