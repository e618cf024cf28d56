//! The report of the status of one port.

use iol_port::PortStatus;
use iol_types::PortId;

/// A port and its status.
#[derive(Clone, Copy)]
pub struct PortReport {
    /// The port.
    pub port: PortId,
    /// Its status.
    pub status: PortStatus,
}
