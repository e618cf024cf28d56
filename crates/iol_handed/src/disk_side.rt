//! The calls that a master wants of its disk, and the reports of them.

ghost use Rattle.std.specs.Prelude.{◌≡◌, Some, None};
ghost use Rattle.std.specs.Option.{option_map};
ghost use Rattle.iol_engine.specs.Events.{told_of};
ghost use Rattle.iol_run.specs.CoreOnDisk.{KeepsRunning};
ghost use Rattle.iol_handed.specs.DiskSide.{AnswersTurn, AsksDisk, HasReported, tells_failure, without_call};
ghost use Rattle.iol_handed.specs.HandedDisk.{call_of, handed_disk};
ghost use Rattle.iol_handed.specs.Master.{call_after, disk_in};

use crate::flash::Flash;
use crate::handed_call::HandedCall;
use crate::master::HandedMaster;
use crate::reports::{DiskAnswer, Reports};
use iol_engine::Event;
use iol_front::Name;
use iol_run::{Turn, Turned};

impl<W: Flash, F: Name> HandedMaster<W, F> {
    /// Returns what is wanted of the disk: the call in hand or, if there is none, the outcome of the next turn of the flusher.
    /// A call is in hand until it is reported.
    pub fn disk_next(&mut self) -> DiskAnswer
        ensures asks { AsksDisk (handed_disk W.image W.truthful) self.old self.new result }
        // Whatever a power stop leaves of the flash while the call in hand is made, it has all that was acknowledged.
        ensures run { KeepsRunning (handed_disk W.image W.truthful) F.front.start self.old.made.master self.new.made.master }
    {
        let Reports::UpTo(calls) = self.reports else {
            return DiskAnswer::Stopped;
        };
        match self.call_after(calls) {
            Some(call) => DiskAnswer::Call(call),
            None => self.turn(calls),
        }
    }

    // Returns the call that the disk has handed out after this number of calls, if there is one.
    fn call_after(&self, calls: u64) -> Option<HandedCall>
        ensures { option_map call_of result ≡ call_after calls (disk_in self.now) }
    {
        let disk = self.made.disk_ref();
        if disk.calls() == calls {
            None
        } else {
            disk.last_call()
        }
    }

    // Makes one turn of the flusher, after this number of reported calls.
    fn turn(&mut self, calls: u64) -> DiskAnswer
        requires reported { self.old.reports ≡ Reports.UpTo calls }
        ensures turns { AnswersTurn (handed_disk W.image W.truthful) calls self.old self.new result }
        ensures run { KeepsRunning (handed_disk W.image W.truthful) F.front.start self.old.made.master self.new.made.master }
    {
        let Turn { turned, event } = self.made.turn();
        if tells_failure(&event) {
            self.reports = Reports::Failed;
            return DiskAnswer::Stopped;
        }
        match self.call_after(calls) {
            Some(call) => DiskAnswer::Call(call),
            None => without_call(turned),
        }
    }

    /// Reports that the call in hand was made, or that it has failed. After a failed call nothing more is wanted of the disk, and no
    /// command is accepted. Returns whether a call was in hand; if none was, nothing changes.
    pub fn disk_done(&mut self, made: bool) -> bool
        ensures reported { HasReported made self.old self.new result }
        ensures run { KeepsRunning (handed_disk W.image W.truthful) F.front.start self.old.made.master self.new.made.master }
    {
        let Reports::UpTo(calls) = self.reports else {
            return false;
        };
        let handed = self.made.disk_ref().calls();
        if handed == calls {
            return false;
        }
        if made {
            self.reports = Reports::UpTo(handed);
        } else {
            self.made.fail();
            self.reports = Reports::Failed;
        }
        true
    }
}

// Returns whether a turn reports that a disk call has failed.
fn tells_failure(event: &Option<Event>) -> bool
    ensures { result ≡ tells_failure (told_of event.now) }
{
    matches!(event, Some(Event::DiskFailed))
}

// Returns the answer to a turn that handed out no call.
fn without_call(turned: Turned) -> DiskAnswer
    ensures { result ≡ without_call turned }
{
    match turned {
        Turned::Made => DiskAnswer::Again,
        Turned::Idle => DiskAnswer::Nothing,
        Turned::Waited => DiskAnswer::Memory,
    }
}
