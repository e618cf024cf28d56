//! Applies the commands of an area's slots in order.

ghost use Rattle.std.specs.Prelude.{◌≡◌, ◌≤◌, ◌<◌, ◌+◌, ◌*◌, ◌++◌, ℕ, length, drop};
ghost use Rattle.std.specs.Prelude.{IsTrue, IfOk, IfErr, IfSome, IfNone, OnOk, OnErr, IsOk, Ok, Err};
ghost use Rattle.std.specs.Prelude.{Some, None, List, vec_capacity, if◌then◌else◌};
ghost use Rattle.iol_types.specs.Command.{value_of};
ghost use Rattle.iol_record.specs.Reading.{command_at, store_begun_at};
ghost use Rattle.iol_record.specs.declared.fault.RecordFault.{RecordFault};
ghost use Rattle.iol_record.specs.declared.version.Version.{Version};
ghost use Rattle.std.specs.Option.{option_map};
ghost use Rattle.iol_disk.specs.Disk.{Same, Shows};
ghost use Rattle.iol_layout.specs.Body.{head_of, slots_of, batch_of, commands_of, HoldsRecords};
ghost use Rattle.iol_recovery.specs.Faults.{Counted, IsFault};
ghost use Rattle.iol_layout.specs.Layout.{total};
ghost use Rattle.iol_layout.specs.Meaning.{log_from};
ghost use Rattle.iol_disk.specs.Gate.{body_sector};
ghost use Rattle.iol_layout.specs.Octets.{octets_at, sectors_reached};
ghost use Rattle.iol_recovery.specs.Reading.{Finds};
ghost use Rattle.iol_recovery.specs.Replay.{reached};
ghost use Rattle.iol_recovery.specs.Wants.{CommandsWant, BatchWants, LogWants};

use crate::cause::RecoverCause;
use iol_disk::{BODY_SECTORS, SECTOR_OCTETS, SectorDisk, Slot};
use iol_layout::{Area, BODY_HEAD_OCTETS, Head, Header, LAST_NUMBER, Layout, slots_of};
use iol_record::{RecordFault, Version, decode_command};
use iol_types::{Command, MasterState};
use std::alloc::{AllocError, Global};

// Where a journal continues after the slots that were replayed.
#[derive(Clone, Copy)]
pub(crate) struct End {
    pub used: usize,
    pub number: u64,
}

// Applies the commands of an area's slots, up to the first slot whose gate is closed.
pub(crate) fn replay_slots<D: SectorDisk>(
    alloc: Global,
    disk: &mut D,
    layout: Layout,
    area: Area,
    header: Header,
    state: &mut MasterState,
) -> Result<End, RecoverCause>
    requires fits { total layout ≤ (D.disk disk.old).sectors }
    requires base { header.base ≤ LAST_NUMBER }
    ensures finds { Finds (λ end. record { used = end.used; number = end.number; state = state.new }) (D.disk disk.old)
        (λ image. log_from layout area header.epoch image 0 0 layout.slots header.base state.old) result }
    ensures counted { Counted (D.disk disk.old) (D.disk disk.new) result }
    ensures within { IfOk result (λ end. (end.used ≤ layout.slots) × (header.base ≤ end.number)
        × (0 < end.used → header.base < end.number) × (end.number ≤ LAST_NUMBER)) }
    ensures ports { OnOk result (length state.new ≡ length state.old) }
    ensures same { Same (D.disk disk.old) (D.disk disk.new) }
{
    let mut body = Vec::with_capacity(alloc, BODY_SECTORS * SECTOR_OCTETS)?;
    replay_open_slots(alloc, disk, layout, area, header, state, &mut body)
}

// Does the same, with a buffer that has capacity for the body of a slot.
fn replay_open_slots<D: SectorDisk>(
    alloc: Global,
    disk: &mut D,
    layout: Layout,
    area: Area,
    header: Header,
    state: &mut MasterState,
    body: &mut Vec<u8>,
) -> Result<End, RecoverCause>
    requires fits { total layout ≤ (D.disk disk.old).sectors }
    requires base { header.base ≤ LAST_NUMBER }
    requires room { BODY_SECTORS * SECTOR_OCTETS ≤ vec_capacity body.old }
    ensures finds { Finds (λ end. record { used = end.used; number = end.number; state = state.new }) (D.disk disk.old)
        (λ image. log_from layout area header.epoch image 0 0 layout.slots header.base state.old) result }
    ensures memory { result ≡ Err RecoverCause.Memory
        → Shows (D.disk disk.old) (λ image. LogWants layout area header.epoch image header.base state.old) }
    ensures counted { Counted (D.disk disk.old) (D.disk disk.new) result }
    ensures within { IfOk result (λ end. (end.used ≤ layout.slots) × (header.base ≤ end.number)
        × (0 < end.used → header.base < end.number) × (end.number ≤ LAST_NUMBER)) }
    ensures ports { OnOk result (length state.new ≡ length state.old) }
    ensures same { Same (D.disk disk.old) (D.disk disk.new) }
{
    let version = layout.version();
    let mut number = header.base;
    let mut used = 0;
    while used < layout.slots() {
        let slot = layout.slot(area, used, 1);
        if !slot.is_open(disk)? {
            return Ok(End { used, number });
        }
        let span = read_head(disk, slot, body)?;
        if layout.slots() - used < span {
            return Err(RecoverCause::Damaged { sector: slot.body });
        }
        read_body(disk, layout.slot(area, used, span), body)?;
        number = match replay_body(alloc, version, body, header.epoch, number, state)? {
            Some(number) => number,
            None => return Err(RecoverCause::Damaged { sector: slot.body }),
        };
        used += span;
    }
    Ok(End { used, number })
}

// Reads the first sector of a body, and returns the number of slots that it takes, as its head says.
fn read_head<D: SectorDisk>(
    disk: &mut D,
    slot: Slot,
    body: &mut Vec<u8>,
) -> Result<usize, RecoverCause>
    requires fits { slot.gate + (1 + BODY_SECTORS) ≤ (D.disk disk.old).sectors }
    requires one { slot.span ≡ 1 }
    requires room { SECTOR_OCTETS ≤ vec_capacity body.old }
    ensures reads { OnOk result (Shows (D.disk disk.old) (λ image. body.new.items ≡ image slot.body)) }
    ensures size { OnOk result (length body.new.items ≡ SECTOR_OCTETS) }
    ensures span { IfOk result (λ span. span ≡ slots_of (head_of body.new.items).octets) }
    ensures room { vec_capacity body.old ≤ vec_capacity body.new }
    ensures fault { IfErr result IsFault }
    ensures takes_no_memory { result ≡ Err RecoverCause.Memory → ⊥ }
    ensures counted { Counted (D.disk disk.old) (D.disk disk.new) result }
    ensures same { Same (D.disk disk.old) (D.disk disk.new) }
{
    body.clear();
    push_sector(disk, slot, 0, body)?;
    Ok(slots_of(Head::read(body).octets as usize))
}

// Reads the further sectors that the records of a body reach.
fn read_body<D: SectorDisk>(
    disk: &mut D,
    slot: Slot,
    body: &mut Vec<u8>,
) -> Result<(), RecoverCause>
    requires fits { slot.gate + (1 + BODY_SECTORS) * slot.span ≤ (D.disk disk.old).sectors }
    requires first { Shows (D.disk disk.old) (λ image. body.old.items ≡ image slot.body) }
    requires size { length body.old.items ≡ SECTOR_OCTETS }
    requires span { slot.span ≡ slots_of (head_of body.old.items).octets }
    // What was read has the batch of the whole body.
    ensures reads { OnOk result (Shows (D.disk disk.old) (λ image. (version : Version) (epoch first : ℕ)
        → batch_of version epoch first body.new.items
        ≡ batch_of version epoch first (octets_at (λ j. image (body_sector slot.body j)) 0 (BODY_SECTORS * slot.span)))) }
    // What was read is the beginning of the whole body.
    ensures begins { OnOk result (Shows (D.disk disk.old) (λ image. (more : List ℕ)
        × (octets_at (λ j. image (body_sector slot.body j)) 0 (BODY_SECTORS * slot.span) ≡ body.new.items ++ more))) }
    ensures holds { OnOk result (IsTrue (D.disk disk.old).honest → HoldsRecords body.new.items) }
    ensures some { OnOk result (SECTOR_OCTETS ≤ length body.new.items) }
    ensures room { vec_capacity body.old ≤ vec_capacity body.new }
    ensures fault { IfErr result IsFault }
    ensures memory { result ≡ Err RecoverCause.Memory
        → vec_capacity body.old < SECTOR_OCTETS * sectors_reached (BODY_HEAD_OCTETS + (head_of body.old.items).octets) }
    ensures counted { Counted (D.disk disk.old) (D.disk disk.new) result }
    ensures same { Same (D.disk disk.old) (D.disk disk.new) }
{
    let octets = Head::read(body).octets as usize;
    let reached = (BODY_HEAD_OCTETS + octets).div_ceil(SECTOR_OCTETS);
    for j in 1..reached {
        push_sector(disk, slot, j, body)?;
    }
    Ok(())
}

fn push_sector<D: SectorDisk>(
    disk: &mut D,
    slot: Slot,
    j: usize,
    body: &mut Vec<u8>,
) -> Result<(), RecoverCause>
    requires inside { j < slot.sectors }
    requires fits { slot.gate + (1 + BODY_SECTORS) * slot.span ≤ (D.disk disk.old).sectors }
    ensures pushed { OnOk result (Shows (D.disk disk.old) (λ image. body.new.items ≡ body.old.items ++ image (body_sector slot.body j))) }
    ensures longer { OnOk result (length body.new.items ≡ length body.old.items + SECTOR_OCTETS) }
    ensures room { vec_capacity body.old ≤ vec_capacity body.new }
    ensures fault { IfErr result IsFault }
    ensures memory { result ≡ Err RecoverCause.Memory → vec_capacity body.old < length body.old.items + SECTOR_OCTETS }
    ensures counted { Counted (D.disk disk.old) (D.disk disk.new) result }
    ensures same { Same (D.disk disk.old) (D.disk disk.new) }
{
    let mut octets = [0; SECTOR_OCTETS];
    slot.read_sector(disk, j, &mut octets)?;
    body.extend_from_slice(&octets)?;
    Ok(())
}

// Applies the commands of a body. Returns the number of the last one, or `None` if the body has no legal batch that follows `number`.
fn replay_body(
    alloc: Global,
    version: Version,
    body: &[u8],
    epoch: u64,
    number: u64,
    state: &mut MasterState,
) -> Result<Option<u64>, AllocError>
    requires some { BODY_HEAD_OCTETS ≤ length body.now }
    requires bound { number ≤ LAST_NUMBER }
    ensures reached { HoldsRecords body.now → IfOk result (λ last. reached number state.old (batch_of version epoch (number + 1) body.now)
        ≡ option_map (λ last. record { number = last; state = state.new }) last) }
    ensures later { IfOk result (λ last. IfSome last (λ last. (number < last) × (last ≤ LAST_NUMBER))) }
    ensures memory { OnErr result (BatchWants version epoch (number + 1) state.old body.now) }
    ensures ports { OnOk result (length state.new ≡ length state.old) }
{
    let head = Head::read(body);
    if !head.fits(epoch, number + 1) {
        return Ok(None);
    }
    let end = BODY_HEAD_OCTETS + head.octets as usize;
    if end <= body.len()
        && replay(
            alloc,
            version,
            head.count,
            &body[BODY_HEAD_OCTETS..end],
            state,
        )?
    {
        Ok(Some(number + u64::from(head.count)))
    } else {
        Ok(None)
    }
}

// Decodes the command whose record the octets begin with, if there is one. Returns it and the number of octets of its record.
fn next_command(
    alloc: Global,
    version: Version,
    octets: &[u8],
) -> Result<Option<(Command, usize)>, AllocError>
    ensures found { IfOk result (λ next. IfSome next (λ (command, count).
        (count ≤ length octets.now) × (command_at version octets.now ≡ Ok (value_of command, drop count octets.now)))) }
    ensures none { IfOk result (λ next. IfNone next ((fault : RecordFault) × (command_at version octets.now ≡ Err fault))) }
    ensures memory { OnErr result (IsOk (store_begun_at version octets.now)) }
{
    match decode_command(alloc, version, octets) {
        Ok(found) => Ok(Some(found)),
        Err(RecordFault::Memory) => Err(AllocError),
        Err(_) => Ok(None),
    }
}

// Applies `count` commands. Returns whether each passes and their records fill the octets exactly.
fn replay(
    alloc: Global,
    version: Version,
    count: u16,
    records: &[u8],
    state: &mut MasterState,
) -> Result<bool, AllocError>
    ensures reached { IfOk result (λ all. (number : ℕ) → reached number state.old (commands_of version count records.now)
        ≡ (if all then Some (record { number = number + count; state = state.new }) else None)) }
    ensures memory { OnErr result (CommandsWant version count state.old records.now) }
    ensures ports { OnOk result (length state.new ≡ length state.old) }
{
    let mut rest = records;
    for _ in 0..count {
        let Some((command, read)) = next_command(alloc, version, rest)? else {
            return Ok(false);
        };
        if state.check(&command).is_err() {
            return Ok(false);
        }
        state.apply(command);
        rest = &rest[read..];
    }
    Ok(rest.is_empty())
}
