//! The answers of a session.

ghost use Rattle.std.specs.Prelude.{◌≡◌};
ghost use Rattle.std.specs.Option.{option_map};
ghost use Rattle.iol_types.specs.Port.{stored_of};
ghost use Rattle.iol_handed.specs.Answering.{IsEntryAt, disk_answer, port_answer, set_in, set_view, view_of};
ghost use Rattle.iol_handed.specs.OpeningAnswers.{AsksOpening, OpeningServes, Reports, want_answer};
ghost use Rattle.iol_handed.specs.Running.{Answers, PortServes, RunningServes, is_end};
ghost use Rattle.iol_handed.specs.Serving.{OpensOrIs, Serves, ServesAt};
ghost use Rattle.iol_handed.specs.Sessions.{ended, opening, running};

use crate::ask::{Ask, PortAsk, SessionAnswer, SetView, View, WhichSet};
use crate::flash::UnknownFlash;
use crate::handed_call::HandedCall;
use crate::master::HandedMaster;
use crate::opened::Opened;
use crate::opening::{HandFault, Opening, OpeningWant};
use crate::port_answer::PortAnswer;
use crate::reports::DiskAnswer;
use crate::session::{Session, SessionStage};
use arrayvec::ArrayVec;
use iol_disk::DiskFault;
use iol_front::Name;
use iol_journal::RecoverCause;
use iol_types::{PortId, PortState, StoredSet};
use std::mem::ManuallyDrop;

impl<F: Name> Session<F> {
    /// Makes a session with neither a flash nor a master.
    pub fn ended() -> Session<F>
        ensures { result ≡ ended }
    {
        Session {
            stage: SessionStage::Ended,
        }
    }

    /// Makes a session with a flash that is being opened.
    pub fn opening(flash: Opening<UnknownFlash>) -> Session<F>
        ensures { result ≡ opening flash }
    {
        Session {
            stage: SessionStage::Opening(flash),
        }
    }

    /// Makes a session with this master.
    pub fn running(master: HandedMaster<UnknownFlash, F>) -> Session<F>
        ensures { result ≡ running master }
    {
        Session {
            stage: SessionStage::Running(unsafe { ManuallyDrop::new_unchecked(master) }),
        }
    }

    /// Ends a session. Each permit that a port holds is returned.
    pub fn end(self) {
        let Session { stage } = self;
        match stage {
            SessionStage::Running(master) => end_master(ManuallyDrop::into_inner(master)),
            SessionStage::Opening(_flash) => {}
            SessionStage::Ended => {}
        }
    }

    /// Serves a request. `Ask::Open` ends what the session has, and opens a flash; `Ask::End` ends the
    /// session.
    pub fn serve(self, ask: Ask) -> (Session<F>, SessionAnswer)
        ensures { Serves ask self result.0 result.1 }
    {
        match opened_by(ask) {
            Ok(flash) => {
                self.end();
                (Session::opening(flash), SessionAnswer::Done)
            }
            Err(ask) => self.serve_asked(ask),
        }
    }

    // Serves a request that opens no flash.
    fn serve_asked(self, ask: Ask) -> (Session<F>, SessionAnswer)
        ensures { ServesAt self.opening self.running ask result.0 result.1 }
    {
        match self.stage {
            SessionStage::Opening(flash) => serve_opening(flash, ask),
            SessionStage::Running(master) => serve_running(ManuallyDrop::into_inner(master), ask),
            SessionStage::Ended => (Session::ended(), SessionAnswer::Closed),
        }
    }
}

// Ends a master.
fn end_master<F: Name>(master: HandedMaster<UnknownFlash, F>) {
    master.end();
}

// Returns the flash that the request opens, or the request if it opens none.
fn opened_by(ask: Ask) -> Result<Opening<UnknownFlash>, Ask>
    ensures { OpensOrIs ask result }
{
    match ask {
        Ask::Open(flash) => Ok(flash),
        asked => Err(asked),
    }
}

// Serves a request to a flash that is being opened.
fn serve_opening<F: Name>(flash: Opening<UnknownFlash>, ask: Ask) -> (Session<F>, SessionAnswer)
    ensures { OpeningServes ask flash result.0 result.1 }
{
    match ask {
        Ask::End => (Session::ended(), SessionAnswer::Closed),
        Ask::DiskNext => opening_next(flash),
        Ask::DiskDone(made) => opening_done(flash, made),
        Ask::DiskRead(octets) => {
            let mut flash = flash;
            let answer = match flash.hand(&octets) {
                Ok(()) => SessionAnswer::Done,
                Err(HandFault::Misfit) => SessionAnswer::Misfit,
                Err(HandFault::Memory) => SessionAnswer::Memory,
            };
            (Session::opening(flash), answer)
        }
        Ask::Submit(_)
        | Ask::Port(..)
        | Ask::Status(_)
        | Ask::Numbers
        | Ask::View(_)
        | Ask::Entry(..)
        | Ask::Open(_) => (Session::opening(flash), SessionAnswer::Opening),
    }
}

// Returns what an opening wants of the disk. If it wants nothing, it looks for the journal among what was
// handed in.
fn opening_next<F: Name>(flash: Opening<UnknownFlash>) -> (Session<F>, SessionAnswer)
    ensures { AsksOpening flash.want flash result.0 result.1 }
{
    match flash.go_on() {
        Opened::GoesOn(flash) => {
            let answer = want_answer(flash.want());
            (Session::opening(flash), answer)
        }
        Opened::Found(found) => (Session::ended(), SessionAnswer::Found(found)),
        Opened::Refused(cause) => (Session::ended(), SessionAnswer::NotOpened(cause)),
    }
}

// Returns the answer that says what an opening wants.
fn want_answer(want: OpeningWant) -> SessionAnswer
    ensures { result ≡ want_answer want }
{
    match want {
        OpeningWant::Sync => SessionAnswer::Sync,
        OpeningWant::Read(sector) => SessionAnswer::Read(sector),
        OpeningWant::Nothing => SessionAnswer::Memory,
    }
}

// Takes the report that the wanted sync was made, or that the wanted call has failed.
fn opening_done<F: Name>(flash: Opening<UnknownFlash>, made: bool) -> (Session<F>, SessionAnswer)
    ensures { Reports flash.want made flash result.0 result.1 }
{
    let mut flash = flash;
    match (flash.want(), made) {
        (OpeningWant::Sync, true) => {
            flash.synced();
            (Session::opening(flash), SessionAnswer::Done)
        }
        (OpeningWant::Sync, false) => failed(DiskFault::Sync),
        (OpeningWant::Read(_), false) => failed(DiskFault::Read),
        (OpeningWant::Read(_), true) | (OpeningWant::Nothing, _) => {
            (Session::opening(flash), SessionAnswer::Misfit)
        }
    }
}

// Ends an opening a call of which has failed.
fn failed<F: Name>(fault: DiskFault) -> (Session<F>, SessionAnswer)
    ensures { (result.0 ≡ ended) × (result.1 ≡ SessionAnswer.NotOpened (RecoverCause.Disk fault)) }
{
    (
        Session::ended(),
        SessionAnswer::NotOpened(RecoverCause::Disk(fault)),
    )
}

// Serves a request to a master.
fn serve_running<F: Name>(
    master: HandedMaster<UnknownFlash, F>,
    ask: Ask,
) -> (Session<F>, SessionAnswer)
    ensures { RunningServes ask master result.0 result.1 }
{
    if is_end(&ask) {
        master.end();
        return (Session::ended(), SessionAnswer::Closed);
    }
    let mut master = master;
    let answer = answer_running(&mut master, ask);
    (Session::running(master), answer)
}

/// Returns whether the request is to end the session.
pub fn is_end(ask: &Ask) -> bool
    ensures { result ≡ is_end ask.now }
{
    matches!(ask, Ask::End)
}

// Serves a request to a master that does not end it.
fn answer_running<F: Name>(master: &mut HandedMaster<UnknownFlash, F>, ask: Ask) -> SessionAnswer
    ensures { Answers ask master.old master.new result }
{
    match ask {
        Ask::Submit(change) => match master.submit(change) {
            Ok(number) => SessionAnswer::Accepted(number),
            Err(fault) => SessionAnswer::Refused(fault),
        },
        Ask::DiskNext => disk_answer(master.disk_next()),
        Ask::DiskDone(made) => {
            if master.disk_done(made) {
                SessionAnswer::Done
            } else {
                SessionAnswer::Misfit
            }
        }
        Ask::Open(_flash) => SessionAnswer::Misfit,
        Ask::DiskRead(_) | Ask::End => SessionAnswer::Misfit,
        Ask::Port(port, ask) => port_answer(serve_port(master, port, ask)),
        Ask::Status(port) => match master.status(port) {
            Some(status) => SessionAnswer::Status(status),
            None => SessionAnswer::Absent,
        },
        Ask::Numbers => SessionAnswer::Numbers(master.durable_number(), master.accepted_number()),
        Ask::View(port) => match master.durable().port(port) {
            Some(port) => SessionAnswer::View(view_of(port)),
            None => SessionAnswer::Absent,
        },
        Ask::Entry(port, which, place) => match master.durable().port(port) {
            Some(port) => entry_of(port, which, place),
            None => SessionAnswer::Absent,
        },
    }
}

// Serves a request about a port.
fn serve_port<F: Name>(
    master: &mut HandedMaster<UnknownFlash, F>,
    port: PortId,
    ask: PortAsk,
) -> PortAnswer
    ensures { PortServes ask port master.old master.new result }
{
    match ask {
        PortAsk::Next => master.port_next(port),
        PortAsk::Wake => master.port_wake(port),
        PortAsk::Page(octets) => master.port_page(port, octets),
        PortAsk::Answer(octets) => master.port_answer(port, octets),
        PortAsk::Lost => master.port_lost(port),
        PortAsk::Event(code) => master.port_event(port, code),
    }
}

// Returns the session's answer for what is wanted of the disk.
fn disk_answer(answer: DiskAnswer) -> SessionAnswer
    ensures { result ≡ disk_answer answer }
{
    match answer {
        DiskAnswer::Stopped => SessionAnswer::Stopped,
        DiskAnswer::Call(HandedCall::Write { sector, octets }) => SessionAnswer::Write(
            sector, octets,
        ),
        DiskAnswer::Call(HandedCall::Sync) => SessionAnswer::Sync,
        DiskAnswer::Again => SessionAnswer::Again,
        DiskAnswer::Nothing => SessionAnswer::Nothing,
        DiskAnswer::Memory => SessionAnswer::Memory,
    }
}

// Returns the session's answer for the answer of a port.
fn port_answer(answer: PortAnswer) -> SessionAnswer
    ensures { result ≡ port_answer answer }
{
    match answer {
        PortAnswer::Absent => SessionAnswer::Absent,
        PortAnswer::Misfit => SessionAnswer::Misfit,
        PortAnswer::Memory => SessionAnswer::Memory,
        PortAnswer::Noted => SessionAnswer::Done,
        PortAnswer::Nothing => SessionAnswer::Nothing,
        PortAnswer::Again => SessionAnswer::Again,
        PortAnswer::Page => SessionAnswer::Page,
        PortAnswer::Request(octets) => SessionAnswer::Request(octets),
    }
}

// Returns the durable state of a port.
fn view_of(port: &PortState) -> View
    ensures { result ≡ view_of port.now }
{
    View {
        config: port.config(),
        revision: port.revision(),
        present: set_view(port.stored()),
        previous: set_view(port.previous()),
    }
}

// Returns the size of a set and its checksum, if there is a set.
fn set_view(stored: Option<&StoredSet>) -> Option<SetView>
    ensures { result ≡ option_map (λ present. set_view (stored_of present.now)) stored.entry }
{
    match stored {
        Some(stored) => Some(SetView {
            entries: stored.set.len(),
            octets: stored.set.octets(),
            checksum: stored.set.checksum(),
        }),
        None => None,
    }
}

// Returns an entry of one of the sets of a port.
fn entry_of(port: &PortState, which: WhichSet, place: usize) -> SessionAnswer
    ensures { IsEntryAt (set_in which port.now) place result }
{
    let stored = match which {
        WhichSet::Present => port.stored(),
        WhichSet::Previous => port.previous(),
    };
    let Some(stored) = stored else {
        return SessionAnswer::Nothing;
    };
    let Some((key, octets)) = stored.set.entry(place) else {
        return SessionAnswer::Nothing;
    };
    let mut copy = ArrayVec::new();
    copy.try_extend_from_slice(octets).unwrap();
    SessionAnswer::Entry(key, copy)
}
