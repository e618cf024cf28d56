//! Links to the devices of a port through a driver: a process at the other end of a character
//! device, a pseudo-terminal or two FIFOs, which controls the hardware. Calls of a link come in and
//! lines of ASCII go out; the lines that come back are answers, events, or the loss of the device
//! (docs/FORMATS.md, "Lines of a driver").
//!
//! Modules in reading order: `line` (the meaning of a line), `reading`, which uses `words` and
//! `numeral`, and `writing`; `transport` (the trait that carries octets), `stream` (lines out of
//! octets), `events` and `wire_link` (the link); `examples` (lines and steps, worked out).
#![tactic(auto)]

mod events;
pub mod examples;
mod line;
mod numeral;
mod reading;
mod stream;
mod transport;
mod wire_link;
mod words;
mod writing;

pub use events::KEPT_EVENTS;
pub use line::{Line, Reply};
pub use reading::{LINE_OCTETS, read_line};
pub use transport::{Opening, Position, Transport, TransportFault};
pub use wire_link::WireLink;
pub use writing::{REQUEST_LINE_OCTETS, Request, request_line};
