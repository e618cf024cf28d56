//! The id of a request, which its answer repeats.

/// The id of a request that is written in JSON.
#[derive(Clone, Copy)]
pub enum RequestId<'a> {
    /// A whole number.
    Number(u64),
    /// A text.
    Text(&'a str),
}
