//! The run of a schedule over a disk, and its trace.

ghost use Rattle.std.specs.Prelude.{◌≡◌, ℕ, [], length, vec_len, Ok, IfOk, IfErr};
ghost use Rattle.iol_types.specs.State.{State};
ghost use Rattle.iol_disk.specs.Content.{IsImage, clock};
ghost use Rattle.iol_disk.specs.Disk.{Disk, Shows};
ghost use Rattle.iol_disk.specs.Moments.{LeavesOnly};
ghost use Rattle.iol_journal.specs.Kept.{IsKept};
ghost use Rattle.iol_journal.specs.Meaning.{meaning};
ghost use Rattle.iol_journal.specs.Runs.{begun};
ghost use Rattle.iol_journal.specs.Running.{IsRunAtRest};
ghost use Rattle.iol_core.specs.CrashPrefix.{CrashPrefix};
ghost use Rattle.iol_run.specs.Causes.{FailsFor};
ghost use Rattle.iol_run.specs.Failures.{TellsFailures};
ghost use Rattle.iol_run.specs.Schedules.{IsTraceOf, RunsAndTells, fault_disk, told_in};

use crate::moment::Moment;
use crate::run::{Run, Stamped};
use crate::task::{Task, make_tasks};
use iol_disk::SectorDisk;
use iol_front::{Front, Name};
use iol_journal::{Journal, RecoverFault};
use iol_link::DeviceLink;
use iol_types::MasterState;
use std::alloc::Global;
use std::marker::Brand;

/// Why a schedule was not run.
#[derive(Drop)]
pub enum RunFault<D: SectorDisk> {
    /// The disk was not recovered.
    Recover(RecoverFault<D>),
    /// There is not one link for each port. The disk is returned.
    Ports(D),
    /// Out of memory. The disk is returned.
    Memory(D),
}

/// How a schedule ended.
#[derive(Clone, Copy, Debug, PartialEq, Eq)]
pub enum Ended {
    /// All tasks were done.
    Whole,
    /// Out of memory before a step, or in a turn of the flusher that was to drain the queue.
    Memory,
}

/// The trace of a schedule.
#[derive(Drop)]
pub struct Trace<D: SectorDisk, L> {
    pub events: Vec<Stamped>,
    /// For each disk call of the flusher, in order, the number of events before the step that made it. So a call comes before
    /// the events of its own step. No contract says which calls these are; cases of explained runs show it.
    pub calls: Vec<usize>,
    /// The moment at which recovery had ended.
    pub begun: Moment,
    /// The number of turns of the flusher that were out of memory.
    pub waits: u64,
    pub ended: Ended,
    /// The durable state at the end.
    pub state: MasterState,
    /// The link of each port, port 1 first.
    pub links: Vec<L>,
    pub disk: D,
}

/// Recovers a disk, and runs a schedule over it, with a link for each port of its state, port 1 first.
///
/// # Errors
/// `Recover` if the disk is not recovered, `Ports` if there is not one link for each port, and `Memory` if out of memory, in
/// this order. The links are dropped then.
pub fn run_schedule<D: SectorDisk, L: DeviceLink + Drop>(
    alloc: Global,
    disk: D,
    links: Vec<L>,
    schedule: &[Task],
) -> Result<Trace<D, L>, RunFault<D>>
    // If the disk's image was kept, a power stop after any number of events leaves the state after a prefix of the accepted
    // commands, which holds every acknowledged one.
    ensures crash_prefix { IfOk result (λ trace. Shows (D.disk disk) (λ image. IsKept (D.disk disk).sectors image
        → (first : ℕ) (start : State) → meaning (D.disk disk).sectors image ≡ Ok (record { number = first; state = start })
        → CrashPrefix (D.disk trace.disk) trace.begun first start (told_in trace))) }
    // The tasks up to the end were carried out over what recovery found, and each step did what its own contract says.
    ensures run { IfOk result (IsTraceOf D.disk L.number L.steps disk links.items schedule.now) }
    // If no run began, the fault names the first thing that was wrong.
    ensures cause { IfErr result (λ fault. FailsFor D.disk disk (vec_len links) fault) }
    // A power stop then leaves only what it could have left before.
    ensures fault { IfErr result (λ fault. LeavesOnly (D.disk disk) (D.disk (fault_disk fault)) (IsImage (D.disk disk).content)) }
{
    match Journal::recover(alloc, disk) {
        Ok((journal, state)) => {
            if links.len() != usize::from(state.ports()) {
                return Err(RunFault::Ports(journal.disk()));
            }
            match Front::new(alloc, journal.number(), &state) {
                Ok(front) => carry_out::<D, L, Brand>(
                    alloc, front, journal, state, links, schedule,
                ),
                Err(_) => Err(RunFault::Memory(journal.disk())),
            }
        }
        Err(fault) => Err(RunFault::Recover(fault)),
    }
}

// Runs a schedule over a journal that was just recovered.
fn carry_out<D: SectorDisk, L: DeviceLink + Drop, F: Name>(
    alloc: Global,
    front: Front,
    journal: Journal<D>,
    state: MasterState,
    links: Vec<L>,
    schedule: &[Task],
) -> Result<Trace<D, L>, RunFault<D>>
    requires name { front ≡ F.front }
    requires number { front.start.number ≡ journal.history.first }
    requires start { (front.start.state ≡ journal.history.start) × (state ≡ journal.history.start) }
    requires standing { state ≡ journal.standing.state }
    requires list { journal.history.commands ≡ [] }
    requires ports { vec_len links ≡ length state }
    ensures run { IfOk result (RunsAndTells D.disk L.number L.steps journal links.items schedule.now) }
    ensures failures { IfOk result (λ trace. TellsFailures (D.disk journal.disk) (D.disk trace.disk) (told_in trace)) }
    ensures crash_prefix { IsRunAtRest D.disk (begun (clock (D.disk journal.disk).content) front.start.number front.start.state) journal
        → IfOk result (λ trace. CrashPrefix (D.disk trace.disk) trace.begun front.start.number front.start.state (told_in trace)) }
    ensures fault { IfErr result (λ fault. fault ≡ RunFault.Memory journal.disk) }
{
    match Run::<D, L, F>::begin(alloc, front, journal, state, links) {
        Ok(mut run) => {
            let (ended, waits) = make_tasks(&mut run, schedule);
            Ok(run.end(ended, waits))
        }
        Err(disk) => Err(RunFault::Memory(disk)),
    }
}
