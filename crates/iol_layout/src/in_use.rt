//! The area in use.

use crate::area::Area;
use crate::header::Header;

/// The area in use, and its header.
#[derive(Clone, Copy)]
pub struct InUse {
    pub area: Area,
    pub header: Header,
}
