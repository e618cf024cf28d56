//! Finds what is recovered of a run's disk, by what the stop keeps of each sector that no sync has settled.
ghost use Rattle.std.specs.Prelude.{◌≡◌, All, IfErr};
ghost use Rattle.iol_script.specs.Script.{said_of};
ghost use Rattle.iol_commands.specs.Devices.{MayVisit};
ghost use Rattle.iol_commands.specs.Fault.{status_of};
ghost use Rattle.iol_commands.specs.Played.{IsSaidGeometry};

use crate::stop_text::Numbers;
use iol_commands::{Fault, empty_disk, make_run, stop};
use iol_disk::Pick;
use iol_journal::Geometry;
use iol_script::Script;
use std::alloc::Global;

// Returns what is recovered after each kind of stop of a script's run, which is made once for each kind.
//
// # Errors
// The faults are those of `make_run` and `stop` of `iol_commands`.
pub(crate) fn numbers_of(
    alloc: Global,
    geometry: Geometry,
    script: &Script,
) -> Result<Numbers, Fault<'static>>
    requires devices { All MayVisit script.now.devices.items }
    requires numbers { IsSaidGeometry (said_of script.now) geometry }
    ensures status { IfErr result (λ fault. status_of fault ≡ 1) }
{
    Ok(Numbers {
        old: number_after(alloc, geometry, script, Pick::Old)?,
        new: number_after(alloc, geometry, script, Pick::New)?,
        zero: number_after(alloc, geometry, script, Pick::Zero)?,
        pattern: number_after(alloc, geometry, script, Pick::Pattern)?,
    })
}

// Returns what is recovered after a stop that keeps this.
fn number_after(
    alloc: Global,
    geometry: Geometry,
    script: &Script,
    keep: Pick,
) -> Result<u64, Fault<'static>>
    requires devices { All MayVisit script.now.devices.items }
    requires numbers { IsSaidGeometry (said_of script.now) geometry }
    ensures status { IfErr result (λ fault. status_of fault ≡ 1) }
{
    let given = empty_disk(alloc, geometry, script.fail)?;
    let trace = make_run(alloc, given, geometry, script)?;
    let recovered = stop(alloc, trace.disk.disk(), keep)?;
    Ok(recovered.number)
}
