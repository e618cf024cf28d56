//! Links to devices: what is said to a device, what it answers, and which device it is.
//!
//! [`DeviceLink`] is the trait of every link of a port. Octets of a request go in; octets of an answer, a page, an event, or the
//! loss of the device come out, and the link's relation says which of them may. The ISDU codec (IEC 61131-9; IO-Link Interface
//! and System Specification V1.1, ISDU) has the requests of a master for the parameters of a device, and the device's answers:
//! octets come in and the message goes out, or the first fault of the octets; a message comes in and its octets go out. The 16
//! octets of Direct Parameter page 1 come in, and a [`Page`] goes out: what they say of the device's VendorID, DeviceID and
//! revision, its shortest cycle, and whether it supports ISDUs. A port's configuration and a page come in, and the first
//! [`IdentFault`] goes out, if any. No call takes memory, and each page can be read.
//!
//! Modules in reading order:
//! - `link` (the trait), `laws` (runs of a link), `examples` (numbers, worked out). `specs/Link.antt` says what a link is asked and
//!   answers, and what a run of it is.
//! - `messages` (requests and answers), `faults`, `service` (I-Service and what each service carries), `parts` (the parts of an
//!   ISDU), `reading`, `writing`, `isdu_laws` and `isdu_examples` (octets worked out).
//! - `page`, `validation`, `page_examples` (a page worked out).
#![tactic(auto)]

pub mod examples;
mod faults;
pub mod isdu_examples;
mod isdu_laws;
mod laws;
mod link;
mod messages;
mod page;
pub mod page_examples;
mod parts;
mod reading;
mod service;
mod validation;
mod writing;

pub use faults::IsduFault;
pub use isdu_laws::no_isdu_begins_another;
pub use laws::runs_join;
pub use link::{DeviceLink, Lost, PAGE_OCTETS};
pub use messages::{Answer, DATA_OCTETS, Request};
pub use page::Page;
pub use parts::ISDU_OCTETS;
pub use reading::{read_answer, read_request};
pub use validation::{IdentFault, validate};
pub use writing::{write_answer, write_request};
