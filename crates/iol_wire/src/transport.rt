//! The carrier of octets to a driver and back.

ghost use Rattle.iol_wire.specs.Transport.{TransportCall, connect_call, send_call, receive_call};

use thiserror::Error;

/// The place in a line where the next octets begin.
#[derive(Clone, Copy, Debug, PartialEq, Eq)]
pub enum Position {
    /// At a line's first octet.
    LineStart,
    /// Within a line, whose rest is to be dropped.
    WithinLine,
}

/// The result of a call of [`Transport::connect`].
#[derive(Clone, Copy, Debug, PartialEq, Eq)]
pub enum Opening {
    /// The connection to the driver is still that of the previous call.
    Stayed,
    /// The connection was opened again. Octets that had come before were dropped, and the next ones
    /// begin at this place.
    Anew(Position),
}

/// The reasons why no octets were carried.
#[derive(Clone, Copy, Debug, PartialEq, Eq, Drop, Error)]
pub enum TransportFault {
    /// No driver is there.
    #[error("no driver is there")]
    Absent,
    /// The driver was silent, or took no octets, for too long.
    #[error("the driver is silent")]
    Silent,
    /// The driver is gone. The next [`Transport::connect`] opens the connection again.
    #[error("the driver is gone")]
    Closed,
}

/// Carries octets to a driver and back.
///
/// Its relation, `moves`, says what a call may do and which transport it leaves. The relation of a
/// transport in memory may be exact; that of a transport over files says what is known of them,
/// which is nothing.
pub trait Transport {
    /// Starting from this transport, the call may be made with this result and leave that transport.
    ghost moves: { Self → TransportCall → Self → Type 0 };

    /// Begins a request: opens the connection if none is open, and limits the time of the calls that
    /// follow.
    ///
    /// # Errors
    /// `Absent` if no connection can be opened; it is returned after a pause, so that no processor
    /// is kept busy.
    fn connect(&mut self) -> Result<Opening, TransportFault>
        ensures { moves self.old (connect_call result) self.new };

    /// Sends all octets.
    ///
    /// # Errors
    /// `Silent` if the driver did not take them in time, and `Closed` if it is gone. Some of the
    /// octets may have been sent.
    fn send(&mut self, octets: &[u8]) -> Result<(), TransportFault>
        ensures { moves self.old (send_call octets.now result) self.new };

    /// Receives the next octet.
    ///
    /// # Errors
    /// `Silent` if none came in time, and `Closed` if the driver is gone.
    fn receive(&mut self) -> Result<u8, TransportFault>
        ensures { moves self.old (receive_call result) self.new };
}
