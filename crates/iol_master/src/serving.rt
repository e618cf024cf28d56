//! Which workers sleep, and which ports are still served.

ghost use Rattle.std.specs.Prelude.{◌≡◌};
ghost use Rattle.iol_master.specs.Serving.{is_served, sleeps};

use crate::guarded::{Guarded, Phase};
use iol_front::Name;
use iol_port::PortStatus;
use iol_types::PortId;

impl<F: Name> Guarded<F> {
    // Returns whether the worker of a port sleeps, if it has answered `answered` wakes: the port waits for the disk; or the run is not
    // to end, and the port is off and was not woken since.
    pub(crate) fn sleeps(&self, port: PortId, answered: u64) -> bool
        ensures { result ≡ sleeps self.now port answered }
    {
        let is_off = matches!(self.status(port), Some(PortStatus::Off));
        self.engine().waits(port)
            || (is_off && self.phase() == Phase::Running && self.wakes(port) == answered)
    }

    // Returns whether a port is still served, if its worker has answered `answered` wakes. At the end it is served once more, for the
    // wake of the end.
    pub(crate) fn is_served(&self, port: PortId, answered: u64) -> bool
        ensures { result ≡ is_served self.now port answered }
    {
        !self.engine().is_settled(port)
            || self.phase() == Phase::Running
            || self.wakes(port) != answered
    }
}
