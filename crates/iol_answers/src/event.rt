//! What a serving master prints without a request.

use iol_port::PortStatus;
use iol_types::PortId;

/// An event of a serving master.
#[derive(Clone, Copy)]
pub enum Event {
    /// The master serves.
    Serving {
        /// The number of its ports, 1 to 32.
        ports: u8,
        /// The number of commands that were recovered, 0 to 2^62.
        commands: u64,
    },
    /// The status of a port has changed.
    Status {
        /// The port.
        port: PortId,
        /// Its new status.
        status: PortStatus,
    },
    /// All commands up to this number are durable.
    Durable {
        /// The number of the last of them.
        number: u64,
    },
    /// The master has ended, and all commands up to this number are durable.
    Ended {
        /// The number of the last of them.
        number: u64,
    },
}
