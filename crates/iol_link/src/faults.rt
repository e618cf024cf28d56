//! The reasons why octets are not a message.

use thiserror::Error;

/// The first fault of octets that were read as a request or as an answer, in the order of the
/// checks.
#[derive(Clone, Copy, Debug, PartialEq, Eq, Drop, Error)]
pub enum IsduFault {
    /// There is no octet.
    #[error("no octet")]
    Empty,
    /// A reserved I-Service; I-Service 0 with Length over 1; another I-Service with Length 0, or
    /// with an ExtLength of 0 to 16 or 239 to 255.
    #[error("a reserved I-Service or length")]
    Reserved,
    /// A request that was read as an answer, an answer or Device busy that was read as a request,
    /// or No Service.
    #[error("another service")]
    WrongService,
    /// ExtLength is missing, the number of octets is not the stated one, or the service does not
    /// carry this number of octets.
    #[error("a wrong count of octets")]
    Length,
    /// The XOR of all octets is not 0.
    #[error("a wrong CHKPDU")]
    Check,
}
