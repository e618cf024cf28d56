//! The machine of a port.

ghost use Rattle.std.specs.Prelude.{◌≡◌, ◌||◌, ◌==◌};
ghost use Rattle.iol_port.specs.Awaited.{awaited};
ghost use Rattle.iol_port.specs.Calls.{MayBeMade};
ghost use Rattle.iol_port.specs.Ending.{ended};
ghost use Rattle.iol_port.specs.Heard.{IsFed, Fits, is_settled, moved, noted, at_stage};
ghost use Rattle.iol_port.specs.Stage.{PortValue, Settled, IsStage, IsNext, new_machine, machine_at};
ghost use Rattle.iol_port.specs.Status.{status_of};
ghost use Rattle.iol_port.specs.LinkWants.{link_wanted};
ghost use Rattle.iol_port.specs.View.{stage_of, next_of};
ghost use Rattle.iol_port.specs.Wanted.{wanted, wanted_of, after_action, IfAsks};
ghost use Rattle.iol_port.specs.declared.stage.Rest.TheVariants.{Off};

use crate::action::{Action, Input, UPLOAD_REQUEST, Want};
use crate::stage::{AttendFor, AwaitsCore, Next, Rest, Stage};
use crate::status::PortStatus;
use crate::{acting, attending, hearing, losing, paging};
use iol_core::{Core, Ticket};
use iol_front::Name;
use iol_types::PortId;
use std::alloc::Global;
use std::marker::Model;

/// The machine of a port. It must be ended, since it may hold a permit. A contract sees the record `PortValue` of
/// `specs/Stage.antt`.
pub struct PortMachine {
    alloc: Global,
    port: PortId,
    started_revision: Option<u64>,
    upload_requested: bool,
    stage: Stage,
}

impl Model for PortMachine {
    ghost use Rattle.iol_port.specs.Stage.{PortValue, IsStage, machine_at};

    ghost Value = { PortValue };

    ghost use Rattle.iol_port.specs.View.{stage_of};

    ghost view = { λ m. machine_at m.port m.started_revision m.upload_requested (stage_of m.stage) };

    ghost invariant = { λ m. IsStage (stage_of m.stage) };
}

impl PortMachine {
    /// Makes a new machine for this port, settled as off.
    pub fn new(alloc: Global, port: PortId) -> PortMachine
        ensures { result ≡ new_machine port }
    {
        PortMachine {
            alloc,
            port,
            started_revision: None,
            upload_requested: false,
            stage: Stage::Settled(Rest::Off),
        }
    }

    /// The port of this machine.
    pub fn port(&self) -> PortId
        ensures { result ≡ self.now.port }
    {
        self.port
    }

    /// The status of the port.
    pub fn status(&self) -> PortStatus
        ensures { result ≡ status_of self.now.stage }
    {
        acting::status(&self.stage)
    }

    /// Whether the port is settled: it does nothing until it is woken.
    pub fn is_settled(&self) -> bool
        ensures { result ≡ is_settled self.now.stage }
    {
        matches!(self.stage, Stage::Settled(_))
    }

    /// What the next step needs from the link: the page, an answer, or nothing if the step calls the core.
    pub fn want(&self) -> Want
        ensures { result ≡ link_wanted self.now.stage }
    {
        acting::want(&self.stage)
    }

    /// Returns the ticket of the command that files the port's set, while the port waits for it to become durable.
    pub fn awaits(&self) -> Option<Ticket>
        ensures { result ≡ awaited self.now.stage }
    {
        match &self.stage {
            Stage::Core(AwaitsCore::Storing(ticket, _page)) => Some(*ticket),
            _ => None,
        }
    }

    /// Returns the next action. A call of the core that takes a permit holds it; until the reply is fed the machine is `Idle`.
    pub fn action(&mut self) -> Action
        ensures wanted { wanted_of result ≡ wanted self.old.port self.old.stage }
        ensures may_be_made { IfAsks result MayBeMade }
        ensures after { self.new ≡ at_stage self.old (after_action self.old.stage) }
    {
        let stage = self.take();
        let (action, stage) = acting::act(self.port, stage);
        self.go(Next::To(stage));
        action
    }

    /// Takes the outcome of the action, an event, or the wake of a settled port. It allocates memory for what an upload reads; if
    /// out of memory, the upload is broken off and the port fails.
    pub fn feed(&mut self, input: Input)
        requires { Fits self.old.stage input }
        ensures fed { IsFed self.old input self.new }
        ensures holds { IsStage self.new.stage }
    {
        match (self.take(), input) {
            (stage, Input::Event(code)) => {
                self.note(code);
                self.go(Next::To(stage));
            }
            (Stage::Settled(rest), Input::Wake) => {
                let waking = AttendFor::Waking { rest };
                self.go(Next::To(attending::attend(waking)));
            }
            (Stage::Page(what), Input::Page { connection, octets }) => {
                self.go(paging::page(what, connection, &octets));
            }
            (Stage::Page(_what), Input::Lost) => self.go(Next::To(Stage::Settled(Rest::Lost))),
            (Stage::Answer(awaits), Input::Octets(octets)) => {
                let stage = hearing::answer(self.alloc, awaits, octets.as_slice());
                self.go(Next::To(stage));
            }
            (Stage::Answer(awaits), Input::Lost) => self.go(Next::To(losing::lose(awaits))),
            (Stage::Core(awaits), Input::Reply(reply)) => {
                self.go(hearing::reply(
                    self.alloc,
                    self.started_revision,
                    self.upload_requested,
                    &awaits,
                    reply,
                ));
            }
            _ => unreachable!(),
        }
    }

    /// Ends the machine, and returns the permit that it holds, if any, to the core.
    pub fn end<F: Name>(self, core: &mut Core<F>)
        ensures { core.new ≡ ended core.old self.stage }
    {
        let PortMachine {
            alloc: _,
            port: _,
            started_revision: _,
            upload_requested: _,
            stage,
        } = self;
        losing::release(stage, core);
    }

    // Notes an event of the device.
    fn note(&mut self, code: u16)
        ensures noted { self.new ≡ noted self.old code }
        ensures holds { IsStage self.new.stage }
    {
        self.upload_requested = self.upload_requested || code == UPLOAD_REQUEST;
    }

    // Takes the stage out. The machine is settled as off meanwhile.
    fn take(&mut self) -> Stage
        ensures stage { stage_of result ≡ self.old.stage }
        ensures holds { IsStage (stage_of result) }
        ensures out { self.new ≡ at_stage self.old (Settled Off) }
    {
        std::mem::replace(&mut self.stage, Stage::Settled(Rest::Off))
    }

    // Puts the next stage in place of the one that was taken out, or starts with new work.
    fn go(&mut self, next: Next)
        requires out { self.old.stage ≡ Settled Off }
        requires holds { IsNext (next_of next) }
        ensures { self.new ≡ moved self.old (next_of next) }
    {
        let stage = match next {
            Next::To(stage) => stage,
            Next::Start(work) => {
                self.started_revision = Some(work.revision);
                self.upload_requested = false;
                paging::start(work)
            }
        };
        let taken = std::mem::replace(&mut self.stage, stage);
        let Stage::Settled(_off) = taken else {
            unreachable!()
        };
    }
}
