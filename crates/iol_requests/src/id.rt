//! The id of a request, which its answer repeats.

/// The greatest number of octets of an id that is a text.
pub const MOST_ID_OCTETS: usize = 64;

/// Identifies a request in JSON; its answer repeats it.
#[derive(Debug, Drop)]
pub enum Id {
    /// A whole number of 0 to 2^63 - 1.
    Number(u64),
    /// A text of at most [`MOST_ID_OCTETS`] octets.
    Text(String),
}
