//! A step of a port: the one call of its link or of the core that its machine wants.

ghost use Rattle.std.specs.Prelude.{◌≡◌, true, false};
ghost use Rattle.iol_port.specs.Calls.{MayBeMade, IsReplyTo, call_of};
ghost use Rattle.iol_port.specs.Heard.{Fits, awaits_page, awaits_answer, is_settled};
ghost use Rattle.iol_core.specs.Uploads.{store_of};
ghost use Rattle.iol_port.specs.Stage.{PortValue};
ghost use Rattle.iol_port.specs.Status.{status_of};
ghost use Rattle.iol_port.specs.declared.action.Input.TheVariants as input;
ghost use Rattle.iol_port.specs.declared.call.Reply.{Reply};
ghost use Rattle.iol_engine.specs.Events.{event_of, told_of};
ghost use Rattle.iol_engine.specs.PortSteps.{Acts, IsReady, IsStatusTold, HasEvent, PortStep, awake, HasPage, HasAnswer, HasReply};
ghost use Rattle.iol_engine.specs.PortSteps.{reply_told};
ghost use Rattle.iol_engine.specs.PortSteps.{store_in, command_said};

use crate::event::{Event, Exchanged};
use crate::said::Said;
use crate::told_work::ToldWork;
use arrayvec::ArrayVec;
use iol_core::{Core, UploadGrant};
use iol_front::Name;
use iol_link::{DeviceLink, ISDU_OCTETS, Lost, Request, write_request};
use iol_port::{Action, CoreCall, Input, PortMachine, PortStatus, Reply};
use iol_types::{Command, DataSet, PortId};
use std::sync::Arc;

/// What a step of a port reports: the outcome of the call that its machine wanted, and then the status, if that has changed.
/// `room` is the buffer that was passed in, if the step did not use it.
#[derive(Drop)]
pub struct PortTold {
    pub called: Option<Event>,
    pub status: Option<Event>,
    pub room: Option<Box<Exchanged>>,
}

impl PortTold {
    /// Returns the buffer of the step, which its event holds if the step made an exchange.
    pub fn buffer(self) -> Option<Box<Exchanged>> {
        let PortTold {
            called,
            status: _,
            room,
        } = self;
        match called {
            Some(Event::Exchange { octets, .. }) => Some(octets),
            Some(
                Event::Lost {
                    octets: Some(octets),
                    ..
                },
            ) => Some(octets),
            _ => room,
        }
    }
}

// Makes one step of a port: notes an event of its device, wakes a settled machine, and makes the one call of the link or of
// the core that the machine then wants. An exchange is reported in the buffer that is passed in, so that the report allocates
// no memory.
pub(crate) fn step_port<L: DeviceLink, F: Name>(
    core: &mut Core<F>,
    machine: &mut PortMachine,
    link: &mut L,
    room: Box<Exchanged>,
) -> PortTold
    requires ready { IsReady machine.old.stage }
    ensures step { PortStep L.number L.steps machine.old machine.new link.old link.new core.old core.new (told_of result.called)
        (told_of result.status) }
    ensures ready { IsReady machine.new.stage }
{
    let before = machine.status();
    hear_event(machine, link);
    wake(machine);
    let (called, room) = act(core, machine, link, room);
    let status = status_event(machine, before);
    PortTold {
        called,
        status,
        room,
    }
}

// Notes an event of the device, if there is one.
fn hear_event<L: DeviceLink>(machine: &mut PortMachine, link: &mut L)
    requires ready { IsReady machine.old.stage }
    ensures event { HasEvent L.number L.steps machine.old machine.new link.old link.new }
    ensures ready { IsReady machine.new.stage }
{
    if let Some(code) = link.take_event() {
        machine.feed(Input::Event(code));
    }
}

// Wakes a machine that is settled.
fn wake(machine: &mut PortMachine)
    requires ready { IsReady machine.old.stage }
    ensures awake { machine.new ≡ awake machine.old }
    ensures ready { IsReady machine.new.stage }
    ensures open { is_settled machine.new.stage ≡ false }
{
    if machine.is_settled() {
        machine.feed(Input::Wake);
    }
}

// Returns an event with the status of a port, if that has changed.
fn status_event(machine: &PortMachine, before: PortStatus) -> Option<Event>
    ensures { (old : PortValue) → status_of old.stage ≡ before → IsStatusTold old machine.now (told_of result) }
{
    let status = machine.status();
    if status == before {
        return None;
    }
    let port = machine.port();
    Some(Event::Status { port, status })
}

// Makes the call that the machine wants. Returns the buffer too, if the call did not use it.
fn act<L: DeviceLink, F: Name>(
    core: &mut Core<F>,
    machine: &mut PortMachine,
    link: &mut L,
    room: Box<Exchanged>,
) -> (Option<Event>, Option<Box<Exchanged>>)
    requires ready { IsReady machine.old.stage }
    requires open { is_settled machine.old.stage ≡ false }
    ensures acts { Acts L.number L.steps machine.old machine.new link.old link.new core.old core.new (told_of result.0) }
    ensures ready { IsReady machine.new.stage }
{
    match machine.action() {
        Action::ReadPage => (Some(read_page(machine, link)), Some(room)),
        Action::Exchange(request) => (Some(exchange(machine, link, &request, room)), None),
        Action::Ask(call) => (ask(core, machine, call), Some(room)),
        Action::Idle => unreachable!(),
    }
}

// Reads the page of the device.
fn read_page<L: DeviceLink>(machine: &mut PortMachine, link: &mut L) -> Event
    requires wants { awaits_page machine.old.stage ≡ true }
    ensures { HasPage L.number L.steps machine.old machine.new link.old link.new (event_of result) }
{
    let port = machine.port();
    let connection = link.connection();
    match link.read_page() {
        Ok(octets) => {
            machine.feed(Input::Page { connection, octets });
            Event::Page {
                port,
                connection,
                octets,
            }
        }
        Err(Lost) => {
            machine.feed(Input::Lost);
            Event::Lost {
                port,
                connection,
                octets: None,
            }
        }
    }
}

// Sends a request to the device.
fn exchange<L: DeviceLink>(
    machine: &mut PortMachine,
    link: &mut L,
    request: &Request,
    room: Box<Exchanged>,
) -> Event
    requires wants { awaits_answer machine.old.stage ≡ true }
    ensures { HasAnswer L.number L.steps request.now machine.old machine.new link.old link.new (event_of result) }
{
    let port = machine.port();
    let connection = link.connection();
    let request = write_request(request);
    match link.exchange(request.as_slice()) {
        Ok(answer) => {
            machine.feed(Input::Octets(copy_of(&answer)));
            Event::Exchange {
                port,
                connection,
                octets: Exchanged { request, answer }.put(room),
            }
        }
        Err(Lost) => {
            machine.feed(Input::Lost);
            let answer = ArrayVec::new();
            Event::Lost {
                port,
                connection,
                octets: Some(Exchanged { request, answer }.put(room)),
            }
        }
    }
}

// Makes a call of the core.
fn ask<F: Name>(core: &mut Core<F>, machine: &mut PortMachine, call: CoreCall) -> Option<Event>
    requires may { MayBeMade (call_of call) }
    requires fits { (heard : Reply) → IsReplyTo (call_of call) heard → Fits machine.old.stage (input.Reply heard) }
    ensures { HasReply (call_of call) machine.old machine.new core.old core.new (told_of result) }
{
    let port = machine.port();
    let (call, said) = filed(call);
    let reply = call.make(core);
    let event = reply_event(port, said, &reply);
    machine.feed(Input::Reply(reply));
    event
}

// Returns the call, and the value of the Store that it files, if it files one.
fn filed(call: CoreCall) -> (CoreCall, Option<Said>)
    ensures call { call_of result.0 ≡ call_of call }
    ensures said { command_said result.1 ≡ store_in (call_of call) }
{
    match call {
        CoreCall::FinishUpload(permit, set) => {
            let (set, said) = stored(permit.grant(), set);
            (CoreCall::FinishUpload(permit, set), Some(said))
        }
        call => (call, None),
    }
}

// Returns the set, and the value of its Store.
fn stored(grant: UploadGrant, set: Arc<DataSet>) -> (Arc<DataSet>, Said)
    ensures set { result.0 ≡ set }
    ensures said { result.1.command ≡ store_of grant set.value }
{
    let command = Command::Store {
        port: grant.port,
        revision: grant.revision,
        set,
    };
    let said = Said::of(&command);
    let Command::Store { set, .. } = command else {
        unreachable!()
    };
    (set, said)
}

// Returns the event that reports a reply of the core, if there is one.
fn reply_event(port: PortId, said: Option<Said>, reply: &Reply) -> Option<Event>
    ensures { told_of result ≡ reply_told port (command_said said) reply.now }
{
    match reply {
        Reply::Attended(Some(work)) => Some(Event::Attended {
            port,
            work: ToldWork::of(port, work),
        }),
        Reply::FinishedUpload(Ok(ticket)) => match said {
            Some(said) => Some(Event::Accepted {
                number: ticket.number(),
                said,
            }),
            None => None,
        },
        _ => None,
    }
}

// Copies the octets of an answer.
fn copy_of(answer: &ArrayVec<u8, ISDU_OCTETS>) -> ArrayVec<u8, ISDU_OCTETS>
    ensures { result ≡ answer.now }
{
    let mut same = ArrayVec::new();
    same.try_extend_from_slice(answer.as_slice()).unwrap();
    same
}
