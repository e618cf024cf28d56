//! The run of a script, explained in words.
ghost use Rattle.std.specs.Prelude.{◌≡◌, ◌≤◌, ◌⊎◌, ℕ, List, All, IfErr, IfOk, OnOk, string_bytes, true};
ghost use Rattle.std.specs.Io.KnownBytes.{Appends};
ghost use Rattle.iol_disk.specs.FaultDisk.{inner};
ghost use Rattle.iol_script.specs.Script.{said_of};
ghost use Rattle.iol_commands.specs.Devices.{MayVisit};
ghost use Rattle.iol_commands.specs.Fault.{status_of};
ghost use Rattle.iol_commands.specs.Played.{IsSaidGeometry, IsStoppedAs};
ghost use Rattle.iol_commands.specs.Runs.{CanRun, IsCause, IsSilentOver};
ghost use Rattle.iol_explain.specs.Explained.{explained_text};
ghost use Rattle.iol_explain.specs.Played.{ExplainsRun, IsExplained};
ghost use Rattle.iol_explain.specs.ToldDisk.{calls_of, is_whole, told_on};
ghost use Rattle.iol_explain.specs.declared.explained.Explained.{Explained};

use crate::explained::Explained;
use crate::told_disk::{ToldCall, ToldDisk, ToldEnd};
use iol_commands::{Fault, Playable, empty_disk, make_run, print, read_playable, report, stop};
use iol_disk::{FaultDisk, MemoryDisk, Pick};
use iol_journal::Geometry;
use iol_run::{Stamped, Trace};
use iol_script::Script;
use iol_sim::SimLink;
use iol_texts::Recovered;
use std::alloc::Global;
use std::io::Write;

// The disk of an explained run, which reports its calls.
type PlayedDisk = ToldDisk<FaultDisk<MemoryDisk>>;

/// Runs a script on a disk in memory, and returns the exit status: 0 if its trace and the recovered state are written to `out`,
/// 2 if the script or its geometry is not valid, and 1 otherwise. Each line of the trace has after it what it says in words,
/// and the disk calls are between the lines (docs/FORMATS.md, "Explained runs").
///
/// If the run fails, a line on `err` says why, as from `iol_commands::run_text`, and nothing is written to `out`. If writing to
/// `out` fails, nothing is written to `err`.
pub fn explain_text<W: Write, E: Write>(
    alloc: Global,
    script: &[u8],
    out: &mut W,
    err: &mut E,
) -> u8
    ensures statuses { result ≤ 2 }
    ensures one_writer { (out.new ≡ out.old) ⊎ (err.new ≡ err.old) }
    ensures ran { result ≡ 0 → CanRun script.now }
    ensures quiet { result ≡ 0 → err.new ≡ err.old }
    ensures not_valid { result ≡ 2 → CanRun script.now → ⊥ }
    ensures untouched { result ≡ 2 → out.new ≡ out.old }
    // The written text explains a run of the script, with what was recovered after its stop.
    ensures printed { result ≡ 0
        → (text : List ℕ) × ExplainsRun script.now text × Appends (W.contents out.old) (W.contents out.new) text }
    // Otherwise a fault is the cause, and nothing is written to `out`; or writing to `out` failed.
    ensures silent { (result ≡ 0 → ⊥) → IsSilentOver ExplainsRun script.now result out.old out.new err.old err.new }
{
    match text_of_explained(alloc, script) {
        Ok(text) => print(out, text.as_bytes()),
        Err(fault) => report(err, &fault),
    }
}

// Returns the text of an explained run.
fn text_of_explained(alloc: Global, text: &[u8]) -> Result<String, Fault<'static>>
    ensures ran { OnOk result (CanRun text.now) }
    ensures printed { IfOk result (λ printed. ExplainsRun text.now (string_bytes printed)) }
    ensures cause { IfErr result (IsCause text.now) }
{
    let ready = read_playable(alloc, text)?;
    text_of_ready(alloc, &ready)
}

// Returns the text of the explained run of a script that can be run.
fn text_of_ready(alloc: Global, ready: &Playable) -> Result<String, Fault<'static>>
    requires devices { All MayVisit ready.now.script.devices.items }
    requires numbers { IsSaidGeometry (said_of ready.now.script) ready.now.geometry }
    ensures printed { IfOk result (λ printed. (explained : Explained) × IsExplained (said_of ready.now.script) explained
        × (string_bytes printed ≡ explained_text explained.geometry explained.calls.items explained.events_before.items
        explained.events.items explained.recovered.number explained.recovered.state)) }
    ensures status { IfErr result (λ fault. status_of fault ≡ 1) }
{
    let explained = explained_run(alloc, ready.geometry, &ready.script)?;
    Ok(explained.to_string(alloc)?)
}

/// Runs a script on a disk that reports its calls, and recovers what the script's stop leaves of it.
///
/// # Errors
/// Those of `empty_disk` and of `make_run` of `iol_commands`; `Memory` if memory ran out for a call of the disk, which is then
/// missing; those of `stop` of `iol_commands`.
pub fn explained_run(
    alloc: Global,
    geometry: Geometry,
    script: &Script,
) -> Result<Explained, Fault<'static>>
    requires devices { All MayVisit script.now.devices.items }
    requires numbers { IsSaidGeometry (said_of script.now) geometry }
    ensures played { IfOk result (IsExplained (said_of script.now)) }
    ensures status { IfErr result (λ fault. status_of fault ≡ 1) }
{
    let empty = empty_disk(alloc, geometry, script.fail)?;
    let given = ToldDisk::new(alloc, empty);
    let trace = make_run(alloc, given, geometry, script)?;
    stopped_run(alloc, geometry, script.keep, left_by(trace))
}

// What a run leaves: its events, the number of events before the step of each disk call, and its disk.
#[derive(Drop)]
struct Left {
    events: Vec<Stamped>,
    events_before: Vec<usize>,
    disk: PlayedDisk,
}

// Returns what the run of a trace leaves.
fn left_by(trace: Trace<PlayedDisk, SimLink>) -> Left
    ensures events { (result.events ≡ trace.events) × (result.events_before ≡ trace.calls) }
    ensures disk { result.disk ≡ trace.disk }
{
    let Trace {
        events,
        calls,
        disk,
        ..
    } = trace;
    Left {
        events,
        events_before: calls,
        disk,
    }
}

// Returns the explained run, with the calls of its disk and what is recovered after its stop.
fn stopped_run(
    alloc: Global,
    geometry: Geometry,
    keep: Pick,
    left: Left,
) -> Result<Explained, Fault<'static>>
    ensures run { IfOk result (λ explained. (explained.geometry ≡ geometry) × (explained.events ≡ left.events)
        × (explained.events_before ≡ left.events_before) × (explained.calls.items ≡ calls_of left.disk)
        × (is_whole left.disk ≡ true)
        × IsStoppedAs keep (inner (told_on left.disk)) explained.recovered.number explained.recovered.state) }
    ensures status { IfErr result (λ fault. status_of fault ≡ 1) }
{
    let Left {
        events,
        events_before,
        disk,
    } = left;
    match told_and_recovered(alloc, keep, disk) {
        Ok((calls, recovered)) => Ok(Explained {
            alloc,
            geometry,
            calls,
            events,
            events_before,
            recovered,
        }),
        Err(fault) => Err(fault),
    }
}

// Returns the calls of a disk, and what is recovered after its stop.
fn told_and_recovered(
    alloc: Global,
    keep: Pick,
    disk: PlayedDisk,
) -> Result<(Vec<ToldCall>, Recovered), Fault<'static>>
    ensures calls { IfOk result (λ left. (left.0.items ≡ calls_of disk) × (is_whole disk ≡ true)) }
    ensures stopped { IfOk result (λ left. IsStoppedAs keep (inner (told_on disk)) left.1.number left.1.state) }
    ensures status { IfErr result (λ fault. status_of fault ≡ 1) }
{
    let ToldEnd { disk, calls } = disk.end()?;
    match stop(alloc, disk.disk(), keep) {
        Ok(recovered) => Ok((calls, recovered)),
        Err(fault) => Err(fault),
    }
}
