//! What holds of all that an engine has reported.

ghost use Rattle.std.specs.Prelude.{◌≡◌, ◌-◌, take, slice_get, None, IfNone, IfSome};
ghost use Rattle.iol_types.specs.State.{port_numbered};
ghost use Rattle.iol_headline.specs.Laws.{IsLawful};
ghost use Rattle.iol_headline.specs.Lists.{IsLawfulList};
ghost use Rattle.iol_headline.specs.Statuses.{IsLastReported};
ghost use Rattle.iol_engine.specs.Engine.{trace_of};
ghost use Rattle.iol_engine.specs.HandedSteps.{status_in};

use iol_engine::Engine;
use iol_front::Name;
use iol_port::PortStatus;
use iol_types::PortId;

/// Does nothing. Its contract says that at each moment what an engine has reported is lawful.
pub fn is_lawful<F: Name>(engine: &Engine<F>)
    ensures lawful { IsLawful F.front.start.number F.front.start.state (trace_of engine.now) }
    // The durable commands that the core's pass has seen are the first that a lawful trace accepted, and it acknowledged them.
    ensures list { IsLawfulList F.front.start engine.now.core.number
        (take (engine.now.core.number - F.front.start.number) engine.now.core.seen) }
{
    engine.is_sound();
}

/// Returns the status of a port, if the port is there. It is the status of the port's machine, and the last one that the engine has
/// reported of the port, in a lawful trace.
pub fn status<F: Name>(engine: &Engine<F>, port: PortId) -> Option<PortStatus>
    ensures status { result ≡ status_in (slice_get engine.now.machines (port - 1)) }
    ensures reported { IfSome result (IsLastReported F.front.start port) }
    ensures unknown { IfNone result (port_numbered F.front.start.state port ≡ None) }
{
    engine.is_sound();
    let _place = port.place();
    engine.status(port)
}
