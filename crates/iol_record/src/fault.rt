//! Why octets are not a record.

use thiserror::Error;

/// The first fault of a record, whose fields are judged from left to right.
#[derive(Clone, Copy, Debug, PartialEq, Eq, Error)]
pub enum RecordFault {
    /// The octets end within a field.
    #[error("the record is short")]
    Short,
    /// The first octet is not the tag of a command in the version.
    #[error("no command has this tag")]
    BadTag,
    /// A field is out of its range.
    #[error("a field is out of range")]
    BadField,
    /// Out of memory, at an entry or at the end of a parameter set.
    #[error("out of memory")]
    Memory,
}
