//! The reasons why a transfer ends.

use thiserror::Error;

/// The reason why a transfer ended before it was complete.
#[derive(Clone, Copy, Debug, PartialEq, Eq, Drop, Error)]
pub enum TransferFault {
    /// The device refused the request, with ErrorCode and AdditionalCode (IO-Link V1.1, ISDU error codes).
    #[error("refused by the device with {error:02X} {additional:02X}")]
    Refused { error: u8, additional: u8 },
    /// The answer belongs to another service than the request, or a size or checksum does not have four octets.
    #[error("an answer to something else")]
    Unexpected,
    /// The declared size is more than 4,096 octets, or the parameters take more.
    #[error("a parameter set of more than 4096 octets")]
    Size,
    /// An Index_List cannot be read, or the sixteenth list names another.
    #[error("an index list that cannot be followed")]
    List,
    /// The device answered Device busy for the sixteenth time in a row.
    #[error("a device that stays busy")]
    Busy,
    /// Out of memory.
    #[error("out of memory")]
    Memory,
}
