//! A running master on a disk, and the text that is printed of it.
ghost use Rattle.std.specs.Prelude.{◌≡◌, true, List, ℕ, [], length, vec_len, All, IfErr, IfOk, OnOk, IsTrue, Ok, string_bytes};
ghost use Rattle.iol_disk.specs.Content.{reads};
ghost use Rattle.iol_journal.specs.Kept.{IsKept};
ghost use Rattle.iol_journal.specs.Meaning.{Standing, standing_in};
ghost use Rattle.iol_disk.specs.Disk.{Shows};
ghost use Rattle.iol_types.specs.Command.{CommandValue};
ghost use Rattle.iol_front.specs.Fronts.{Start};
ghost use Rattle.iol_journal.specs.Journals.{JournalView};
ghost use Rattle.iol_flush.specs.Flushing.{Rests};
ghost use Rattle.iol_master.specs.Endings.{IsEnding, IsWhole};
ghost use Rattle.iol_commands.specs.Devices.{MayVisit};
ghost use Rattle.iol_commands.specs.Fault.{status_of};
ghost use Rattle.iol_commands.specs.Images.{TellsWhy};
ghost use Rattle.iol_commands.specs.Recovered.{TellsState};
ghost use Rattle.iol_live.specs.Ends.{IsLeftBy};
ghost use Rattle.iol_live.specs.Lived.{Fits, HasLinks, IsAfterWhatIsThere, IsLiveCause, IsRunCause, IsStartCause, TellsReceipts};
ghost use Rattle.iol_live.specs.Lived.{fits, lived_text};

use crate::asking::ask_all;
use crate::telling::Telling;
use iol_commands::{Fault, links_of, recover, text_of_disk};
use iol_disk::SectorDisk;
use iol_front::{Front, Name};
use iol_journal::Journal;
use iol_master::{Ending, Master, StartFault};
use iol_script::{Device, LiveScript};
use iol_sim::SimLink;
use iol_types::MasterState;
use std::alloc::Global;
use std::io::Write;
use std::marker::Brand;
use std::sync::Wait;
use std::thread::Threads;
use std::time::Clock;

/// Runs a master on a disk, with the devices of a script at its ports, and a client for each port that has changes in the
/// script. Returns the text to print, once all clients have their receipts, the master has ended, and the disk is recovered
/// again.
///
/// # Errors
/// Why the disk is not recovered; `Fit` if a device is at a port that does not exist; `Memory` or `Thread` if the master does
/// not start. Then `Disk` if a disk call fails; `Memory` if memory runs out, `Thread` if a client's thread cannot be made, and
/// `Call` if a client has no receipt. A change that has a receipt is on the disk in each case.
pub fn live_on_disk<
    D: SectorDisk + Drop + Send + 'static,
    E: Write,
    R: Threads + Wait + Clock + Copy + Send + 'static,
>(
    rt: &R,
    alloc: Global,
    disk: D,
    script: &LiveScript,
    telling: Telling,
    err: &mut E,
) -> Result<String, Fault<'static>>
    requires devices { All MayVisit script.now.devices.items }
    // On a disk that reads as it was written and that holds a journal, the text is the state after what the journal held and
    // some further commands.
    ensures lived { ((d : D) → IsTrue (D.disk d).honest) → IsKept (D.disk disk).sectors (reads (D.disk disk).content)
        → (there : Standing) → standing_in (D.disk disk).sectors (reads (D.disk disk).content) ≡ Ok there
        → IfOk result (λ text. IsAfterWhatIsThere (vec_len script.now.changes) there (string_bytes text)) }
    // On any disk, the text reports one receipt for each step of the script, and a state.
    ensures text { IfOk result (λ text. TellsReceipts (vec_len script.now.changes) (string_bytes text)) }
    ensures fits { OnOk result (Fits (D.disk disk) script.now.devices.items true) }
    ensures silent { telling ≡ Telling.Nothing → err.new ≡ err.old }
    // On a disk that reads as it was written and that holds a journal, the only faults are `Fit` and those of a run.
    ensures cause { ((d : D) → IsTrue (D.disk d).honest) → IsKept (D.disk disk).sectors (reads (D.disk disk).content)
        → IfErr result (IsLiveCause (D.disk disk) script.now.devices.items) }
    ensures status { IfErr result (λ fault. status_of fault ≡ 1) }
{
    let (journal, state) = recover(alloc, disk)?;
    if !fits(&script.devices, state.ports()) {
        return Err(Fault::Fit);
    }
    let front = Front::new(alloc, journal.number(), &state)?;
    live_with_front::<D, Brand, E, R>(rt, alloc, front, journal, state, script, telling, err)
}

// Returns whether each device is at one of this number of ports.
fn fits(devices: &[Device], ports: u8) -> bool
    ensures { result ≡ fits ports devices.now }
{
    devices.iter().all(|device| device.port.number() <= ports)
}

// Runs a master over a journal that was just recovered, under the name of a front that starts with it.
fn live_with_front<
    D: SectorDisk + Drop + Send + 'static,
    F: Name + 'static,
    E: Write,
    R: Threads + Wait + Clock + Copy + Send + 'static,
>(
    rt: &R,
    alloc: Global,
    front: Front,
    journal: Journal<D>,
    state: MasterState,
    script: &LiveScript,
    telling: Telling,
    err: &mut E,
) -> Result<String, Fault<'static>>
    requires devices { All MayVisit script.now.devices.items }
    requires name { front ≡ F.front }
    requires start { front.start ≡ record { number = journal.standing.number; state = journal.standing.state } }
    requires state { state ≡ journal.standing.state }
    requires history { journal.history
        ≡ record { first = journal.standing.number; start = journal.standing.state; commands = [] } }
    ensures lived { ((d : D) → IsTrue (D.disk d).honest) → Rests D.disk journal
        → IfOk result (λ text. IsAfterWhatIsThere (vec_len script.now.changes) journal.standing (string_bytes text)) }
    ensures text { IfOk result (λ text. TellsReceipts (vec_len script.now.changes) (string_bytes text)) }
    ensures silent { telling ≡ Telling.Nothing → err.new ≡ err.old }
    ensures cause { ((d : D) → IsTrue (D.disk d).honest) → Rests D.disk journal
        → IfErr result IsRunCause }
    ensures status { IfErr result (λ fault. status_of fault ≡ 1) }
{
    let Ok(links) = links_of(alloc, &script.devices, state.ports()) else {
        return Err(Fault::Memory);
    };
    match started::<D, F, R>(rt, alloc, front, journal, state, links) {
        Ok(master) => live_with(rt, alloc, master, script, telling, err),
        Err(fault) => Err(fault),
    }
}

// Starts a master over a journal that was just recovered, with a link for each port.
//
// # Errors
// `Memory` if memory runs out, `Thread` if a thread cannot be made.
fn started<
    D: SectorDisk + Drop + Send + 'static,
    F: Name + 'static,
    R: Threads + Wait + Clock + Copy + Send + 'static,
>(
    rt: &R,
    alloc: Global,
    front: Front,
    journal: Journal<D>,
    state: MasterState,
    links: Vec<SimLink>,
) -> Result<Master<D, F>, Fault<'static>>
    requires name { front ≡ F.front }
    requires start { front.start ≡ record { number = journal.standing.number; state = journal.standing.state } }
    requires state { state ≡ journal.standing.state }
    requires history { journal.history
        ≡ record { first = journal.standing.number; start = journal.standing.state; commands = [] } }
    requires count { vec_len links ≡ length state }
    ensures started { IfOk result (λ master. master ≡ journal) }
    ensures cause { IfErr result IsRunCause }
    ensures status { IfErr result (λ fault. status_of fault ≡ 1) }
{
    let publisher = front.publisher::<F>();
    match Master::start(rt, alloc, journal, state, publisher, links) {
        Ok(master) => Ok(master),
        Err(fault) => Err(of_start(&fault)),
    }
}

// Has the clients of a script request their changes of a running master, ends the master, and returns the text to print. A
// failed disk and unwritten commands are reported before a missing receipt.
fn live_with<
    D: SectorDisk + Drop + Send + 'static,
    F: Name + 'static,
    E: Write,
    R: Threads + Wait + Copy + Send + 'static,
>(
    rt: &R,
    alloc: Global,
    mut master: Master<D, F>,
    script: &LiveScript,
    telling: Telling,
    err: &mut E,
) -> Result<String, Fault<'static>>
    requires start { F.front.start ≡ record { number = master.standing.number; state = master.standing.state } }
    ensures lived { ((d : D) → IsTrue (D.disk d).honest) → Rests D.disk master
        → IfOk result (λ text. IsAfterWhatIsThere (vec_len script.now.changes) master.standing (string_bytes text)) }
    ensures text { IfOk result (λ text. TellsReceipts (vec_len script.now.changes) (string_bytes text)) }
    ensures silent { telling ≡ Telling.Nothing → err.new ≡ err.old }
    ensures cause { ((d : D) → IsTrue (D.disk d).honest) → Rests D.disk master
        → IfErr result IsRunCause }
    ensures status { IfErr result (λ fault. status_of fault ≡ 1) }
{
    let asked = ask_all(rt, alloc, &mut master, &script.changes, telling, err);
    let disk = left_by(master.shutdown(rt))?;
    asked?;
    text_of(alloc, disk, script.changes.len())
}

// Returns the disk that a master leaves, if no call of it failed and all is written.
fn left_by<D: SectorDisk + Drop, F: Name>(ending: Ending<D, F>) -> Result<D, Fault<'static>>
    ensures left { (start : Start) (first : JournalView D) → IsEnding D.disk start first ending
        → IfOk result (λ disk. (last : JournalView D) × (published : List CommandValue)
        × IsWhole D.disk start first last published × (disk ≡ last.disk)) }
    ensures told { IsLeftBy ending result }
    ensures cause { IfErr result IsRunCause }
    ensures status { IfErr result (λ fault. status_of fault ≡ 1) }
{
    match ending {
        Ending::Closed(journal, _) => Ok(journal.disk()),
        Ending::Unwritten(_, _) => Err(Fault::Memory),
        Ending::Faulted(_, _) => Err(Fault::Disk),
    }
}

// Returns why a master that has a link for each port does not start.
fn of_start<D: SectorDisk>(fault: &StartFault<D>) -> Fault<'static>
    requires links { HasLinks fault.now }
    ensures cause { IsStartCause fault.now result }
{
    match fault {
        StartFault::Ports(_) => unreachable!(),
        StartFault::Memory(_) => Fault::Memory,
        StartFault::Thread(_) => Fault::Thread,
    }
}

// Returns the text to print of a disk, after this number of receipts.
//
// # Errors
// Why the disk is not recovered, or `Memory` if memory runs out.
fn text_of<D: SectorDisk + Drop>(
    alloc: Global,
    disk: D,
    receipts: usize,
) -> Result<String, Fault<'static>>
    ensures text { IfOk result (λ text. (state : List ℕ) × TellsState (D.disk disk) state
        × (string_bytes text ≡ lived_text receipts state)) }
    ensures cause { IfErr result (λ fault. Shows (D.disk disk) (λ image. TellsWhy (standing_in (D.disk disk).sectors image) fault)) }
    ensures status { IfErr result (λ fault. status_of fault ≡ 1) }
{
    let state = text_of_disk(alloc, disk)?;
    Ok(format!(in alloc; "receipts {receipts}\n{state}")?)
}
