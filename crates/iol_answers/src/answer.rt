//! Answers to requests.

use crate::refusal::Refusal;
use crate::report::PortReport;
use iol_types::{PortId, PortState};

/// An answer to a request.
#[derive(Clone, Copy)]
pub enum RequestAnswer<'a> {
    /// A change is durable, and this is the number of its command, 1 to 2^62.
    Receipt(u64),
    /// A request is refused, or has failed.
    Refused(Refusal),
    /// A port was read.
    Port {
        /// Its number.
        port: PortId,
        /// Its durable state.
        state: &'a PortState,
    },
    /// The statuses that were requested. They are printed in this order.
    Statuses(&'a [PortReport]),
    /// A line is no request. This text, without a line feed, says what is wrong with it.
    Wrong(&'a str),
    /// The list of all requests.
    Help,
}
