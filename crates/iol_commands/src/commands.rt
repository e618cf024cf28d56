//! The program's commands, over a writer for their output and one for their faults.
ghost use Rattle.std.specs.Prelude.{◌≡◌, ◌≤◌, ◌⊎◌, ℕ, List, All, IfErr, IfOk, OnOk, Some};
ghost use Rattle.std.specs.Io.KnownBytes.{Appends};
ghost use Rattle.iol_script.specs.Script.{said_in, said_of};
ghost use Rattle.iol_commands.specs.Devices.{MayVisit};
ghost use Rattle.iol_commands.specs.Fault.{status_of, fault_line};
ghost use Rattle.iol_commands.specs.Played.{IsSaidGeometry, TellsRun, played_text};
ghost use Rattle.iol_commands.specs.Runs.{CanRun, IsCause, IsSilent};

use crate::fault::Fault;
use crate::geometry::geometry_of;
use crate::run::{Report, run};
use iol_journal::Geometry;
use iol_script::Script;
use std::alloc::Global;
use std::io::{self, Write};

/// Runs a script on a disk in memory, and returns the exit status: 0 if its trace and the recovered state are written
/// to `out`, 2 if the script or its geometry is not valid, and 1 otherwise.
///
/// If the run fails, a line on `err` says why, and nothing is written to `out`. If writing to `out` fails, nothing
/// is written to `err`.
pub fn run_text<W: Write, E: Write>(alloc: Global, script: &[u8], out: &mut W, err: &mut E) -> u8
    ensures statuses { result ≤ 2 }
    ensures one_writer { (out.new ≡ out.old) ⊎ (err.new ≡ err.old) }
    ensures ran { result ≡ 0 → CanRun script.now }
    ensures quiet { result ≡ 0 → err.new ≡ err.old }
    ensures not_valid { result ≡ 2 → CanRun script.now → ⊥ }
    ensures untouched { result ≡ 2 → out.new ≡ out.old }
    // The text written is that of a run of the script, with what was recovered after its stop.
    ensures printed { result ≡ 0 → (text : List ℕ) × TellsRun script.now text × Appends (W.contents out.old) (W.contents out.new) text }
    // Otherwise a fault is the cause, and nothing is written to `out`; or writing to `out` failed.
    ensures silent { (result ≡ 0 → ⊥) → IsSilent script.now result out.old out.new err.old err.new }
{
    match play(alloc, script) {
        Ok(played) => print_played(out, &played),
        Err(fault) => report(err, &fault),
    }
}

/// A script that can be run, and the geometry that its numbers give.
#[derive(Drop)]
pub struct Playable {
    pub script: Script,
    pub geometry: Geometry,
}

/// Reads a script and its geometry from a text.
///
/// # Errors
/// `Script` if the text is not a script, or if a device or a step of a port is not at the script's ports; then `Geometry` if
/// the numbers of ports and slots are not a geometry. `Memory` if reading the text runs out of memory.
pub fn read_playable(alloc: Global, text: &[u8]) -> Result<Playable, Fault<'static>>
    ensures said { IfOk result (λ playable. said_in text.now ≡ Some (said_of playable.script)) }
    ensures numbers { IfOk result (λ playable. IsSaidGeometry (said_of playable.script) playable.geometry) }
    ensures devices { IfOk result (λ playable. All MayVisit playable.script.devices.items) }
    ensures ran { OnOk result (CanRun text.now) }
    ensures cause { IfErr result (IsCause text.now) }
{
    let script = Script::read(alloc, text)?;
    if !script.fits_ports() {
        return Err(Fault::Script);
    }
    let geometry = geometry_of(script.ports, script.slots).ok_or(Fault::Geometry)?;
    Ok(Playable { script, geometry })
}

// Runs the script in a text.
fn play(alloc: Global, text: &[u8]) -> Result<Report, Fault<'static>>
    ensures ran { OnOk result (CanRun text.now) }
    ensures printed { IfOk result (λ played. TellsRun text.now (played_text played)) }
    ensures cause { IfErr result (IsCause text.now) }
{
    let ready = read_playable(alloc, text)?;
    let played = run(alloc, ready.geometry, &ready.script)?;
    Ok(played)
}

// Writes the text of a run, and returns the exit status: 0, or 1 if writing fails. The text is written piece by piece, and
// not kept.
fn print_played<W: Write>(out: &mut W, played: &Report) -> u8
    ensures status { (result ≡ 0) ⊎ (result ≡ 1) }
    ensures written { result ≡ 0 → Appends (W.contents out.old) (W.contents out.new) (played_text played.now) }
{
    match write_played(out, played) {
        Ok(()) => 0,
        Err(_) => 1,
    }
}

fn write_played<W: Write>(out: &mut W, played: &Report) -> io::Result<()>
    ensures { OnOk result (Appends (W.contents out.old) (W.contents out.new) (played_text played.now)) }
{
    write!(out, "{played}")?;
    out.flush()
}

// Writes a command's output, and returns the exit status: 0, or 1 if writing fails.
pub fn print<W: Write>(out: &mut W, text: &[u8]) -> u8
    ensures status { (result ≡ 0) ⊎ (result ≡ 1) }
    ensures written { result ≡ 0 → Appends (W.contents out.old) (W.contents out.new) text.now }
{
    match write_through(out, text) {
        Ok(()) => 0,
        Err(_) => 1,
    }
}

fn write_through<W: Write>(out: &mut W, text: &[u8]) -> io::Result<()>
    ensures { OnOk result (Appends (W.contents out.old) (W.contents out.new) text.now) }
{
    out.write_all(text)?;
    out.flush()
}

// Writes why a command failed, and returns its exit status, even if writing fails.
pub fn report<E: Write>(err: &mut E, fault: &Fault<'_>) -> u8
    ensures status { result ≡ status_of fault.now }
    ensures small { result ≤ 2 }
{
    let _ = write_fault(err, fault);
    fault.status()
}

// Writes the line that says why a command failed.
fn write_fault<E: Write>(err: &mut E, fault: &Fault<'_>) -> io::Result<()>
    ensures line { OnOk result (Appends (E.contents err.old) (E.contents err.new) (fault_line fault.now)) }
{
    writeln!(err, "error: {fault}")
}
