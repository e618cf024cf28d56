//! Runs a script on one thread, over a disk that is empty at first.
ghost use Rattle.std.specs.Prelude.{◌≡◌, All, IfOk, IfErr, IsTrue};
ghost use Rattle.iol_journal.specs.Formatting.{EachIsEmptyJournal};
ghost use Rattle.iol_script.specs.Script.{said_of};
ghost use Rattle.iol_commands.specs.Devices.{MayVisit};
ghost use Rattle.iol_commands.specs.Fault.{status_of};
ghost use Rattle.iol_commands.specs.Played.{FailsAsSaid, IsPlayed, IsRunOf, IsSaidGeometry, IsStoppedAs, run_disk};

use crate::devices::links_of;
use crate::disk::failing;
use crate::fault::Fault;
use crate::recovery::recover;
use crate::steps::tasks_of;
use iol_disk::{FaultDisk, MemoryDisk, Pick, SectorDisk};
use iol_headline::run_schedule;
use iol_journal::Geometry;
use iol_run::{Ended, RunFault, Stamped, Trace};
use iol_script::{FailingCall, Script};
use iol_sim::SimLink;
use iol_texts::Recovered;
use std::alloc::Global;

// The events of a run, and what was recovered from its disk after the stop at its end.
#[derive(Drop)]
pub(crate) struct Report {
    pub(crate) events: Vec<Stamped>,
    pub(crate) recovered: Recovered,
}

// Formats a disk for this geometry, runs a script on it, and recovers what the script's stop leaves of it. The disk call
// that the script names, if any, fails; calls are counted from the recovery after the format up to the stop.
//
// # Errors
// Those of `empty_disk`, `make_run` and `stop`, in this order.
pub(crate) fn run(
    alloc: Global,
    geometry: Geometry,
    script: &Script,
) -> Result<Report, Fault<'static>>
    requires devices { All MayVisit script.now.devices.items }
    requires numbers { IsSaidGeometry (said_of script.now) geometry }
    ensures played { IfOk result (IsPlayed (said_of script.now)) }
    ensures status { IfErr result (λ fault. status_of fault ≡ 1) }
{
    let given = empty_disk(alloc, geometry, script.fail)?;
    let trace = make_run(alloc, given, geometry, script)?;
    let Trace { events, disk, .. } = trace;
    let recovered = stop(alloc, disk.disk(), script.keep)?;
    Ok(Report { events, recovered })
}

/// Makes a disk in memory, formatted for this geometry. The call that a script names fails; if it names none, no call fails.
///
/// # Errors
/// `Memory`, `Disk`, `TooSmall` or `AlreadyFormatted`, whichever is met first.
pub fn empty_disk(
    alloc: Global,
    geometry: Geometry,
    fail: Option<FailingCall>,
) -> Result<FaultDisk<MemoryDisk>, Fault<'static>>
    ensures empty { IfOk result (λ disk. EachIsEmptyJournal (run_disk disk) geometry) }
    ensures fails { IfOk result (FailsAsSaid fail) }
    ensures status { IfErr result (λ fault. status_of fault ≡ 1) }
{
    let mut disk = MemoryDisk::new(alloc, geometry.sectors())?;
    iol_journal::format(alloc, &mut disk, geometry)?;
    Ok(failing(disk, fail))
}

/// Runs a script over a disk with an empty journal.
///
/// # Errors
/// `Memory` if memory runs out, or `Disk` if a call of the recovery fails, whichever is met first.
pub fn make_run<D: SectorDisk + Drop>(
    alloc: Global,
    disk: D,
    geometry: Geometry,
    script: &Script,
) -> Result<Trace<D, SimLink>, Fault<'static>>
    requires devices { All MayVisit script.now.devices.items }
    requires honest { IsTrue (D.disk disk).honest }
    requires empty { EachIsEmptyJournal (D.disk disk) geometry }
    ensures run { IfOk result (IsRunOf D.disk (said_of script.now) geometry disk) }
    ensures status { IfErr result (λ fault. status_of fault ≡ 1) }
{
    let links = links_of(alloc, &script.devices, geometry.ports())?;
    let tasks = tasks_of(alloc, &script.steps)?;
    match run_schedule(alloc, disk, links, &tasks) {
        Ok(trace) => match trace.ended {
            Ended::Whole => Ok(trace),
            Ended::Memory => Err(Fault::Memory),
        },
        Err(RunFault::Recover(why)) => Err(Fault::from(why.cause)),
        Err(RunFault::Ports(_)) => unreachable!(),
        Err(RunFault::Memory(_)) => Err(Fault::Memory),
    }
}

/// Stops the power of a disk, and recovers what the stop leaves.
///
/// # Errors
/// The fault of the recovery.
pub fn stop(alloc: Global, disk: MemoryDisk, keep: Pick) -> Result<Recovered, Fault<'static>>
    ensures stopped { IfOk result (λ recovered. IsStoppedAs keep disk recovered.number recovered.state) }
    ensures status { IfErr result (λ fault. status_of fault ≡ 1) }
{
    let (journal, state) = recover(alloc, disk.stop(keep))?;
    let number = journal.number();
    Ok(Recovered { number, state })
}
