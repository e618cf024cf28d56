//! The steps of a schedule.

ghost use Rattle.std.specs.Prelude.{◌≡◌, ◌++◌, map};
ghost use Rattle.iol_engine.specs.Events.{told_of};
ghost use Rattle.iol_run.specs.CoreOnDisk.{KeepsRunning};
ghost use Rattle.iol_run.specs.EngineOnDisk.{ports_with};
ghost use Rattle.iol_run.specs.Ports.{StepsPort};
ghost use Rattle.iol_run.specs.Steps.{Does};

use crate::engine_on_disk::EngineOnDisk;
use crate::turn::{Turn, Turned};
use iol_disk::SectorDisk;
use iol_engine::{Event, Exchanged, PortTold};
use iol_front::Name;
use iol_link::DeviceLink;
use iol_types::{Change, PortId};

/// A step of a schedule.
#[derive(Clone, Copy, Debug, PartialEq, Eq)]
pub enum Step {
    /// A client asks for a change.
    Client(Change),
    /// A port makes a step.
    Port(PortId),
    /// The flusher makes a turn.
    Flush,
}

// The result of a step, and the events that it reports, in this order.
#[derive(Drop)]
pub(crate) struct Stepped {
    pub turned: Turned,
    pub first: Option<Event>,
    pub second: Option<Event>,
    // The buffer that was passed in, if the step did not use it.
    pub room: Option<Box<Exchanged>>,
}

// Makes a step.
pub(crate) fn make<D: SectorDisk, L: DeviceLink, F: Name>(
    master: &mut EngineOnDisk<D, F>,
    links: &mut Vec<L>,
    step: &Step,
    room: Box<Exchanged>,
) -> Stepped
    requires links { master.old.connections ≡ map L.number links.old.items }
    ensures does { Does D.disk L.number L.steps step.now master.old.master master.new.master (ports_with master.old links.old.items)
        (ports_with master.new links.new.items) (told_of result.first ++ told_of result.second) result.turned }
    ensures links { master.new.connections ≡ map L.number links.new.items }
    ensures run { KeepsRunning D.disk F.front.start master.old.master master.new.master }
{
    match step {
        Step::Client(change) => Stepped {
            turned: Turned::Made,
            first: Some(master.submit(*change)),
            second: None,
            room: Some(room),
        },
        Step::Port(port) => {
            let PortTold {
                called,
                status,
                room,
            } = step_port(master, links, *port, room);
            Stepped {
                turned: Turned::Made,
                first: called,
                second: status,
                room,
            }
        }
        Step::Flush => {
            let Turn { turned, event } = master.turn();
            Stepped {
                turned,
                first: event,
                second: None,
                room: Some(room),
            }
        }
    }
}

// Makes a step of a port. If the port has no link, nothing is reported and nothing changes.
fn step_port<D: SectorDisk, L: DeviceLink, F: Name>(
    master: &mut EngineOnDisk<D, F>,
    links: &mut Vec<L>,
    port: PortId,
    room: Box<Exchanged>,
) -> PortTold
    requires links { master.old.connections ≡ map L.number links.old.items }
    ensures steps { StepsPort L.number L.steps port master.old.master master.new.master (ports_with master.old links.old.items)
        (ports_with master.new links.new.items) (told_of result.called ++ told_of result.status) }
    ensures links { master.new.connections ≡ map L.number links.new.items }
    ensures run { KeepsRunning D.disk F.front.start master.old.master master.new.master }
{
    let place = port.place();
    if place < links.len() {
        master.step(port, &mut links[place], room)
    } else {
        PortTold {
            called: None,
            status: None,
            room: Some(room),
        }
    }
}
