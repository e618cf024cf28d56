//! A schedule, and what holds of its whole trace.

ghost use Rattle.std.specs.Prelude.{vec_len, IfOk, IfErr};
ghost use Rattle.iol_disk.specs.Content.{IsImage};
ghost use Rattle.iol_disk.specs.Moments.{LeavesOnly};
ghost use Rattle.iol_run.specs.Causes.{FailsFor};
ghost use Rattle.iol_run.specs.Schedules.{fault_disk};
ghost use Rattle.iol_headline.specs.Headline.{IsHeadline};

use iol_disk::SectorDisk;
use iol_link::DeviceLink;
use iol_run::{RunFault, Task, Trace};
use std::alloc::Global;

/// Recovers a disk, and runs a schedule over it, with a link for each port of its state, port 1 first.
///
/// # Errors
/// `Recover` if the disk is not recovered, `Ports` if there is not one link for each port, and `Memory` if out of memory, in
/// this order. The links are dropped then.
#[tactic(auto, using(crate::proofs::Headlines::headline_of))]
pub fn run_schedule<D: SectorDisk, L: DeviceLink + Drop>(
    alloc: Global,
    disk: D,
    links: Vec<L>,
    schedule: &[Task],
) -> Result<Trace<D, L>, RunFault<D>>
    ensures headline { IfOk result (IsHeadline D.disk L.number L.steps disk links.items schedule.now) }
    // If no run began, the fault names the first thing that was wrong.
    ensures cause { IfErr result (λ fault. FailsFor D.disk disk (vec_len links) fault) }
    // A power stop then leaves only what it could have left before.
    ensures fault { IfErr result (λ fault. LeavesOnly (D.disk disk) (D.disk (fault_disk fault)) (IsImage (D.disk disk).content)) }
{
    iol_run::run_schedule(alloc, disk, links, schedule)
}
