//! The contents of an Index_List besides its keys, and the faults of its octets.

use thiserror::Error;

/// The most keys of a list that is written in one object of at most 232 octets, together with what follows
/// the keys.
pub const MOST_LISTED_KEYS: usize = 76;

/// What follows the keys of an Index_List.
#[derive(Clone, Copy, Debug, PartialEq, Eq)]
pub enum Next {
    /// Nothing: the list ends.
    End,
    /// A further list, in the object with this Index.
    List(u16),
}

/// The reasons why octets are not an Index_List that can be kept. The first one that is found is reported.
#[derive(Clone, Copy, Debug, PartialEq, Eq, Error)]
pub enum ListFault {
    /// One octet is left where an entry or the end of the list should be.
    #[error("a list that breaks off")]
    Truncated,
    /// An Index that no set contains, 0x0002 or 0x0003, is an entry or the next list.
    #[error("a reserved Index")]
    ReservedKey,
    /// Out of memory.
    #[error("out of memory")]
    Memory,
}
