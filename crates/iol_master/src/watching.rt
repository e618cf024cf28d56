//! Clients that wait for another status of a port.

ghost use Rattle.std.specs.Prelude.{◌≡◌, IfSome};
ghost use Rattle.iol_master.specs.Watching.{IsHeard, heard_at};

use crate::client::Shared;
use crate::guarded::{Guarded, Phase};
use iol_front::Name;
use iol_port::PortStatus;
use iol_types::PortId;
use std::sync::Wait;
use thiserror::Error;

/// The reason why a waiting client gets no other status of a port.
#[derive(Clone, Copy, Debug, PartialEq, Eq, Error)]
pub enum WatchFault {
    /// The master has no such port.
    #[error("no such port")]
    UnknownPort,
    /// The master ends and serves no port any more, and the port still has the status that the client had seen.
    #[error("the master has ended")]
    Ended,
}

impl<F: Name> Guarded<F> {
    // Returns the answer to a client that has seen the status `last` of a port, or `None` if the client has to wait. It waits while
    // the port has that status and a worker may still make a step.
    pub(crate) fn heard(
        &self,
        port: PortId,
        last: PortStatus,
    ) -> Option<Result<PortStatus, WatchFault>>
        ensures heard { result ≡ heard_at self.now port last }
        ensures told { IfSome result (IsHeard F.front.start port last) }
    {
        match self.status(port) {
            None => Some(Err(WatchFault::UnknownPort)),
            Some(status) if status != last => Some(Ok(status)),
            Some(_) if self.phase() == Phase::Closed => Some(Err(WatchFault::Ended)),
            Some(_) => None,
        }
    }
}

// Waits until a port has another status than `last`, or the master has ended.
pub(crate) fn watch<F: Name, R: Wait>(
    rt: &R,
    shared: &Shared<F>,
    port: PortId,
    last: PortStatus,
) -> Result<PortStatus, WatchFault>
    ensures { IsHeard F.front.start port last result }
{
    for _ in rt.forever() {
        let guarded = shared.reported.wait_while(
            rt,
            shared.guarded.lock(rt),
            |guarded| guarded.heard(port, last).is_none(),
        );
        if let Some(heard) = guarded.heard(port, last) {
            return heard;
        }
    }
    unreachable!()
}
