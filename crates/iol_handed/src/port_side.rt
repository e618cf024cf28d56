//! What a port wants of its device, and the reports of it.

ghost use Rattle.std.specs.Prelude.{◌≡◌, ◌-◌, [], Some, slice_get};
ghost use Rattle.iol_engine.specs.HandedSteps.{want_at};
ghost use Rattle.iol_run.specs.CoreOnDisk.{KeepsRunning};
ghost use Rattle.iol_run.specs.HandedOnDisk.{engine_in};
ghost use Rattle.iol_handed.specs.HandedDisk.{handed_disk};
ghost use Rattle.iol_handed.specs.PortSide.{AsksAt, AsksAtNothing, AsksPort, HandsAt, HandsPort, IsNoted, Loses, LosesAt, StepsPort};
ghost use Rattle.iol_handed.specs.PortSide.{is_gone, rests, woken};
ghost use Rattle.iol_handed.specs.Notes.{event_kept};

use crate::flash::Flash;
use crate::master::HandedMaster;
use crate::notes::{Attention, PortNotes, event_kept, noted_after};
use crate::port_answer::PortAnswer;
use arrayvec::ArrayVec;
use iol_engine::{Answered, Exchanged, Handed};
use iol_front::Name;
use iol_link::{ISDU_OCTETS, PAGE_OCTETS, write_request};
use iol_port::Want;
use iol_types::PortId;

impl<W: Flash, F: Name> HandedMaster<W, F> {
    /// Returns what a port wants of its device. A port that wants nothing makes a step, unless it waits for the disk, or is
    /// settled and nothing was reported of it. A port whose device is gone makes a step in place of what it wants.
    pub fn port_next(&mut self, port: PortId) -> PortAnswer
        ensures asks { AsksPort port self.old self.new result }
        ensures run { KeepsRunning (handed_disk W.image W.truthful) F.front.start self.old.made.master self.new.made.master }
    {
        match self.notes_of(port) {
            Some(notes) => self.next(port, notes),
            None => PortAnswer::Absent,
        }
    }

    // Does the same for a port with these notes.
    fn next(&mut self, port: PortId, notes: PortNotes) -> PortAnswer
        requires notes { slice_get self.old.notes (port - 1) ≡ Some notes }
        ensures asks { AsksAt (want_at (engine_in self.old.made []) port) notes.attention port notes self.old self.new result }
        ensures run { KeepsRunning (handed_disk W.image W.truthful) F.front.start self.old.made.master self.new.made.master }
    {
        match (self.made.engine().want(port), notes.attention) {
            (Want::Nothing, _) => self.at_nothing(port, notes),
            (Want::Page, Attention::Gone) => self.step(port, notes, Answered::Gone),
            (Want::Answer(_), Attention::Gone) => self.step(port, notes, Answered::Gone),
            (Want::Page, Attention::None | Attention::Woken) => PortAnswer::Page,
            (Want::Answer(request), Attention::None | Attention::Woken) => {
                PortAnswer::Request(write_request(&request))
            }
        }
    }

    // Does the same for a port that wants nothing of its device.
    fn at_nothing(&mut self, port: PortId, notes: PortNotes) -> PortAnswer
        requires notes { slice_get self.old.notes (port - 1) ≡ Some notes }
        ensures asks { AsksAtNothing (rests self.old port notes) port notes self.old self.new result }
        ensures run { KeepsRunning (handed_disk W.image W.truthful) F.front.start self.old.made.master self.new.made.master }
    {
        if self.rests(port, notes) {
            PortAnswer::Nothing
        } else {
            self.step(port, notes, Answered::Nothing)
        }
    }

    // Returns the notes of a port, if the master has the port.
    fn notes_of(&self, port: PortId) -> Option<PortNotes>
        ensures { result ≡ slice_get self.now.notes (port - 1) }
    {
        self.notes.get(port.place()).copied()
    }

    /// Hands in Direct Parameter page 1 of a port's device.
    pub fn port_page(&mut self, port: PortId, octets: [u8; PAGE_OCTETS]) -> PortAnswer
        ensures hands { HandsPort port (Answered.Page octets) self.old self.new result }
        ensures run { KeepsRunning (handed_disk W.image W.truthful) F.front.start self.old.made.master self.new.made.master }
    {
        self.hand(port, Answered::Page(octets))
    }

    /// Hands in the answer of a port's device to the request.
    pub fn port_answer(&mut self, port: PortId, octets: ArrayVec<u8, ISDU_OCTETS>) -> PortAnswer
        ensures hands { HandsPort port (Answered.Octets octets) self.old self.new result }
        ensures run { KeepsRunning (handed_disk W.image W.truthful) F.front.start self.old.made.master self.new.made.master }
    {
        self.hand(port, Answered::Octets(octets))
    }

    /// Reports that the device of a port is gone. A port that wants nothing of its device learns this when it next wants
    /// something.
    pub fn port_lost(&mut self, port: PortId) -> PortAnswer
        ensures loses { Loses port self.old self.new result }
        ensures run { KeepsRunning (handed_disk W.image W.truthful) F.front.start self.old.made.master self.new.made.master }
    {
        match self.notes_of(port) {
            Some(notes) => self.lose(port, notes),
            None => PortAnswer::Absent,
        }
    }

    // Does the same for a port with these notes.
    fn lose(&mut self, port: PortId, notes: PortNotes) -> PortAnswer
        requires notes { slice_get self.old.notes (port - 1) ≡ Some notes }
        ensures loses { LosesAt (want_at (engine_in self.old.made []) port) port notes self.old self.new result }
        ensures run { KeepsRunning (handed_disk W.image W.truthful) F.front.start self.old.made.master self.new.made.master }
    {
        match self.made.engine().want(port) {
            Want::Nothing => {
                self.notes[port.place()] = PortNotes {
                    event: notes.event,
                    attention: Attention::Gone,
                };
                PortAnswer::Noted
            }
            Want::Page => self.step(port, notes, Answered::Gone),
            Want::Answer(_) => self.step(port, notes, Answered::Gone),
        }
    }

    /// Reports an event of a port's device, by its EventCode. Of several events the last is kept for the port's next step, and a
    /// DS_UPLOAD_REQ always.
    pub fn port_event(&mut self, port: PortId, code: u16) -> PortAnswer
        ensures { IsNoted port (λ notes. record notes { event = event_kept notes.event code }) self.old self.new result }
    {
        let Some(notes) = self.notes.get_mut(port.place()) else {
            return PortAnswer::Absent;
        };
        notes.event = event_kept(notes.event, code);
        PortAnswer::Noted
    }

    /// Wakes a settled port: it looks at its device and its configuration again.
    pub fn port_wake(&mut self, port: PortId) -> PortAnswer
        ensures { IsNoted port woken self.old self.new result }
    {
        let Some(notes) = self.notes.get_mut(port.place()) else {
            return PortAnswer::Absent;
        };
        if notes.attention == Attention::None {
            notes.attention = Attention::Woken;
        }
        PortAnswer::Noted
    }

    // Hands in an answer of a port's device.
    fn hand(&mut self, port: PortId, answer: Answered) -> PortAnswer
        ensures hands { HandsPort port answer self.old self.new result }
        ensures run { KeepsRunning (handed_disk W.image W.truthful) F.front.start self.old.made.master self.new.made.master }
    {
        match self.notes_of(port) {
            Some(notes) => self.hand_at(port, notes, answer),
            None => PortAnswer::Absent,
        }
    }

    // Does the same for a port with these notes.
    fn hand_at(&mut self, port: PortId, notes: PortNotes, answer: Answered) -> PortAnswer
        requires notes { slice_get self.old.notes (port - 1) ≡ Some notes }
        ensures hands { HandsAt notes.attention port notes answer self.old self.new result }
        ensures run { KeepsRunning (handed_disk W.image W.truthful) F.front.start self.old.made.master self.new.made.master }
    {
        match notes.attention {
            Attention::Gone => PortAnswer::Misfit,
            Attention::None | Attention::Woken => self.step(port, notes, answer),
        }
    }

    // Returns whether a port that wants nothing of its device has nothing to do: it waits for the disk, or it is settled and
    // nothing was reported of it.
    fn rests(&self, port: PortId, notes: PortNotes) -> bool
        ensures { result ≡ rests self.now port notes }
    {
        let quiet = notes.event.is_none() && notes.attention == Attention::None;
        let engine = self.made.engine();
        engine.waits(port) || (quiet && engine.is_settled(port))
    }

    // Makes one step of a port with this answer of its device.
    fn step(&mut self, port: PortId, notes: PortNotes, answer: Answered) -> PortAnswer
        requires notes { slice_get self.old.notes (port - 1) ≡ Some notes }
        ensures steps { StepsPort port notes answer self.old self.new result }
        ensures run { KeepsRunning (handed_disk W.image W.truthful) F.front.start self.old.made.master self.new.made.master }
    {
        let Some(connection) = self.made.engine().connection(port) else {
            return PortAnswer::Absent;
        };
        let Some(buffer) = self.buffer() else {
            return PortAnswer::Memory;
        };
        let gone = is_gone(&answer);
        let handed = Handed::new(connection, notes.event, answer);
        match self.made.step_handed(port, handed, buffer) {
            Ok(told) => {
                self.spare = told.buffer();
                let settled = self.made.engine().is_settled(port);
                self.notes[port.place()] = noted_after(notes.attention, gone, settled);
                PortAnswer::Again
            }
            Err(buffer) => {
                self.spare = Some(buffer);
                PortAnswer::Misfit
            }
        }
    }

    // Returns the spare buffer or a new one, or `None` if memory runs out.
    fn buffer(&mut self) -> Option<Box<Exchanged>>
        ensures { self.new ≡ self.old }
    {
        match self.spare.take() {
            Some(buffer) => Some(buffer),
            None => Exchanged::room(self.alloc).ok(),
        }
    }
}

// Returns whether the device is gone.
fn is_gone(answer: &Answered) -> bool
    ensures { result ≡ is_gone answer.now }
{
    matches!(answer, Answered::Gone)
}
