//! The requests to a device, and its answers.

use arrayvec::ArrayVec;

/// The most data octets that a message can have.
pub const DATA_OCTETS: usize = 232;

/// A request of the master (IO-Link V1.1, ISDU). Subindex 0 names the whole object of an Index.
#[derive(Debug, PartialEq, Eq, Drop)]
pub enum Request {
    /// Asks for the data of an object.
    Read {
        index: u16,
        subindex: u8,
    },
    /// Replaces the data of an object by 0 to 232 octets.
    Write {
        index: u16,
        subindex: u8,
        octets: ArrayVec<u8, DATA_OCTETS>,
    },
}

/// An answer of the device (IO-Link V1.1, ISDU).
#[derive(Debug, PartialEq, Eq, Drop)]
pub enum Answer {
    /// Read Response (+): 0 to 232 octets of data.
    ReadOk(ArrayVec<u8, DATA_OCTETS>),
    /// Read Response (-), with ErrorCode and AdditionalCode.
    ReadFault { error: u8, additional: u8 },
    /// Write Response (+).
    WriteOk,
    /// Write Response (-), with ErrorCode and AdditionalCode.
    WriteFault { error: u8, additional: u8 },
    /// The device has no answer yet.
    Busy,
}
