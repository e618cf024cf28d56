//! The tasks of a schedule, and how a run carries them out.

ghost use Rattle.std.specs.Prelude.{◌≡◌};
ghost use Rattle.iol_run.specs.Runs.{KeepsRun};
ghost use Rattle.iol_run.specs.Tasks.{Repeats, Runs, Tries, once, waits_of};
ghost use Rattle.iol_run.specs.declared.task.Task.TheVariants as task;

use crate::run::Run;
use crate::schedule::Ended;
use crate::step::Step;
use crate::turn::Turned;
use iol_disk::SectorDisk;
use iol_front::Name;
use iol_link::DeviceLink;
use iol_types::{Change, PortId};

/// A task of a schedule.
#[derive(Clone, Copy)]
pub enum Task {
    /// A client asks for a change.
    Client(Change),
    /// A port makes `times` steps.
    Port { port: PortId, times: u16 },
    /// The flusher makes `times` turns. A turn that is out of memory counts, and the next one tries again.
    Flush { times: u16 },
    /// The flusher makes turns until one finds nothing to do, as the queue is empty or the disk has failed. A turn that is out of
    /// memory ends the schedule.
    Drain,
}

impl From<Step> for Task {
    ghost from_gives = { λ step made. made ≡ once step };

    fn from(step: Step) -> Task {
        match step {
            Step::Client(change) => Task::Client(change),
            Step::Port(port) => Task::Port { port, times: 1 },
            Step::Flush => Task::Flush { times: 1 },
        }
    }
}

// Carries out the tasks of a schedule, up to one that runs out of memory, and counts the turns that had to wait.
pub(crate) fn make_tasks<D: SectorDisk, L: DeviceLink, F: Name>(
    run: &mut Run<D, L, F>,
    schedule: &[Task],
) -> (Ended, u64)
    ensures runs { Runs D.disk L.number L.steps schedule.now result.0 result.1 run.old run.new }
    ensures kept { KeepsRun D.disk F.front.start run.old run.new }
{
    let mut waits: u64 = 0;
    for task in schedule {
        let (ended, waited) = make_task(run, *task);
        waits = waits.saturating_add(waited);
        match ended {
            Ended::Whole => {}
            Ended::Memory => return (Ended::Memory, waits),
        }
    }
    (Ended::Whole, waits)
}

// Carries out a task.
fn make_task<D: SectorDisk, L: DeviceLink, F: Name>(
    run: &mut Run<D, L, F>,
    task: Task,
) -> (Ended, u64)
    ensures tries { Tries D.disk L.number L.steps result.0 task result.1 run.old run.new }
    ensures kept { KeepsRun D.disk F.front.start run.old run.new }
{
    match task {
        Task::Client(change) => repeat(run, &Step::Client(change), 1),
        Task::Port { port, times } => repeat(run, &Step::Port(port), times),
        Task::Flush { times } => repeat(run, &Step::Flush, times),
        Task::Drain => drain(run),
    }
}

// Makes one step `times` times.
fn repeat<D: SectorDisk, L: DeviceLink, F: Name>(
    run: &mut Run<D, L, F>,
    step: &Step,
    times: u16,
) -> (Ended, u64)
    ensures repeats { Repeats D.disk L.number L.steps result.0 step.now times result.1 run.old run.new }
    ensures kept { KeepsRun D.disk F.front.start run.old run.new }
{
    let mut waits = 0;
    for _ in 0..times {
        match run.step(step) {
            Ok(turned) => waits += waits_of(turned),
            Err(_) => return (Ended::Memory, waits),
        }
    }
    (Ended::Whole, waits)
}

// Makes turns of the flusher until one finds nothing to do.
fn drain<D: SectorDisk, L: DeviceLink, F: Name>(run: &mut Run<D, L, F>) -> (Ended, u64)
    ensures tries { Tries D.disk L.number L.steps result.0 task.Drain result.1 run.old run.new }
    ensures kept { KeepsRun D.disk F.front.start run.old run.new }
{
    for _ in 0..u64::MAX {
        match run.step(&Step::Flush) {
            Ok(Turned::Made) => {}
            Ok(Turned::Idle) => return (Ended::Whole, 0),
            Ok(Turned::Waited) => return (Ended::Memory, 1),
            Err(_) => return (Ended::Memory, 0),
        }
    }
    (Ended::Memory, 0)
}

// Counts a turn that had to wait as 1, and any other as 0.
fn waits_of(turned: Turned) -> u64
    ensures { result ≡ waits_of turned }
{
    match turned {
        Turned::Waited => 1,
        Turned::Made | Turned::Idle => 0,
    }
}
