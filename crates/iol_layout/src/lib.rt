//! The places of a journal on a disk, its octets there, and what an image of a disk means.
//!
//! A disk has two areas ([`Area`]); one is in use ([`InUse`]), and the other is harmless ([`Idle`]). [`Geometry`] is the number
//! of ports and slots of a journal, and [`Layout`] has all places on its disk. An area has a [`Header`], and a slot's body begins
//! with a [`Head`]: both are read and written here, and so is a whole body ([`EncodedBatch`]). An [`AreaPlan`] is all that is
//! written into an area except its gate. [`Place`] is where a journal writes next. [`read_sector`] and [`is_formatted`] read one
//! sector, and [`gate`] returns a gate to be read or written.
//!
//! `specs/Meaning.antt` says what an image means, and `specs/Kept.antt` on which images a journal can continue. [`examples`] has
//! facts with values of the layout.
#![tactic(auto)]

mod area;
mod area_plan;
mod body;
pub mod examples;
mod geometry;
mod header;
mod idle;
mod in_use;
mod layout;
mod numbers;
mod place;
mod reading;
mod records;
mod sector;

pub use area::Area;
pub use area_plan::AreaPlan;
pub use body::{
    BODY_HEAD_OCTETS, BODY_OCTETS, EPOCH_OCTETS, EncodedBatch, Head, MOST_COMMANDS,
    MOST_RECORD_OCTETS, slots_of,
};
pub use geometry::{DISK_GATE, GEOMETRY, Geometry, MOST_SLOTS, PORT_SECTORS, PORT_SECTORS_OF_TWO};
pub use header::{Header, LAST_NUMBER};
pub use idle::Idle;
pub use in_use::InUse;
pub use layout::Layout;
pub use place::Place;
pub use reading::{gate, is_formatted, read_sector};
pub use records::RecordSector;
