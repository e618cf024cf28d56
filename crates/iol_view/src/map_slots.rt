//! The slots of an area, in a map.
ghost use Rattle.std.specs.Prelude.{◌≡◌, ◌==◌, ◌≤◌, IfOk, string_bytes};
ghost use Rattle.std.specs.Fmt.{WritesOnOk};
ghost use Rattle.iol_disk.specs.Disk.{Same};
ghost use Rattle.iol_journal.specs.Layout.{total};
ghost use Rattle.iol_view.specs.Map.{commands_text, epoch_text, first_reach, has_numbers, head_text, next_reach, slot_text};

use crate::map_front::{Front, Standing};
use crate::map_lines::{Cells, Gate, Line, Lines, Part, Span};
use crate::map_text::SpanText;
use iol_disk::SectorDisk;
use iol_journal::survey::{BODY_SECTORS, Layout, SlotFront, read_slot};
use iol_journal::{Head, LAST_NUMBER, RecoverCause};
use std::alloc::{AllocError, Global};
use std::fmt;

// How far a recovery gets in the slots of an area.
#[derive(Clone, Copy)]
pub(crate) enum Reach {
    // To this slot: the area is in use, and the gates of the slots before it are open.
    Next,
    // Not to this slot, as a gate before it is closed.
    Behind,
    // To no slot, as the area is not in use.
    Idle,
}

// Adds a line for each slot of an area. The slots of a batch have one line together.
pub(crate) fn add_slots<D: SectorDisk>(
    alloc: Global,
    disk: &mut D,
    layout: Layout,
    front: Front,
    lines: &mut Lines,
) -> Result<(), RecoverCause>
    requires { total layout ≤ (D.disk disk.old).sectors }
    ensures { Same (D.disk disk.old) (D.disk disk.new) }
{
    let mut reach = first_reach(front.standing);
    let mut place = 0;
    while place < layout.slots() {
        let slot = read_slot(disk, layout, front.area, place)?;
        let span = span_of(slot.head, layout.slots() - place);
        let numbers = Span::counted(place + 1, span);
        lines.add(slot_line(alloc, front.header.epoch, numbers, slot, reach)?)?;
        reach = next_reach(reach, slot.head);
        place += span;
    }
    Ok(())
}

// Returns the number of slots of the batch that begins at a slot, with `left` slots left: 1 if the gate of the slot is closed,
// or if its head reports more than are left.
fn span_of(head: Option<Head>, left: usize) -> usize
    requires { 1 ≤ left }
    ensures { (1 ≤ result) × (result ≤ left) }
{
    match head {
        Some(head) if head.slots() <= left => head.slots(),
        _ => 1,
    }
}

// Returns how far a recovery gets at the first slot of an area.
fn first_reach(standing: Standing) -> Reach
    ensures { result ≡ first_reach standing }
{
    match standing {
        Standing::InUse => Reach::Next,
        Standing::Older | Standing::Undecided | Standing::Closed => Reach::Idle,
    }
}

// Returns how far a recovery gets at the next slot.
fn next_reach(reach: Reach, head: Option<Head>) -> Reach
    ensures { result ≡ next_reach reach head }
{
    match (reach, head) {
        (Reach::Next, None) => Reach::Behind,
        (Reach::Next, Some(_)) => Reach::Next,
        (Reach::Behind, _) => Reach::Behind,
        (Reach::Idle, _) => Reach::Idle,
    }
}

// Returns the line of a slot, or of the slots of a batch, in an area of this epoch.
fn slot_line(
    alloc: Global,
    epoch: u64,
    numbers: Span,
    slot: SlotFront,
    reach: Reach,
) -> Result<Line, AllocError>
    ensures { IfOk result (λ line. string_bytes line.text ≡ slot_text epoch slot.head reach) }
{
    let head = slot.head;
    let text = SlotText { epoch, head, reach }.to_string(alloc)?;
    let used = body_sectors(head);
    Ok(Line {
        part: Part::Slot,
        numbers,
        sectors: Span::counted(slot.gate, slot_sectors(numbers)),
        cells: Cells {
            gate: Some(gate_of(head)),
            used,
            unused: BODY_SECTORS.saturating_sub(used),
        },
        text,
        damaged: false,
    })
}

// Returns the number of sectors of these slots, with their gates.
fn slot_sectors(numbers: Span) -> usize {
    let slots = numbers.last.saturating_sub(numbers.first).saturating_add(1);
    slots.saturating_mul(1 + BODY_SECTORS)
}

// Returns the number of sectors of the first body of a batch that are used, by its head, which may be damaged.
fn body_sectors(head: Option<Head>) -> usize {
    match head {
        Some(head) => head.sectors().min(BODY_SECTORS),
        None => 0,
    }
}

fn gate_of(head: Option<Head>) -> Gate {
    match head {
        Some(_) => Gate::Open,
        None => Gate::Closed,
    }
}

// The text of a slot.
#[derive(Clone, Copy)]
struct SlotText {
    epoch: u64,
    head: Option<Head>,
    reach: Reach,
}

impl fmt::Display for SlotText {
    ghost use Rattle.std.specs.Prelude.{Some};
    ghost use Rattle.iol_view.specs.Map.{slot_text};

    ghost output = { λ text. Some (slot_text text.epoch text.head text.reach) };

    fn fmt<W: fmt::Write>(&self, f: &mut fmt::Formatter<W>) -> fmt::Result {
        match (self.head, self.reach) {
            (None, Reach::Next) => {
                f.write_str("gate closed, the first: slots behind it are not read")
            }
            (None, Reach::Behind) => f.write_str("gate closed"),
            (None, Reach::Idle) => f.write_str("gate closed"),
            (Some(_), Reach::Behind) => f.write_str("gate open behind a closed one: not read"),
            (Some(head), Reach::Next) => write_head(f, self.epoch, head),
            (Some(head), Reach::Idle) => write_head(f, self.epoch, head),
        }
    }
}

// Writes what the head of a body says, in an area of this epoch.
fn write_head<W: fmt::Write>(f: &mut fmt::Formatter<W>, epoch: u64, head: Head) -> fmt::Result
    ensures { WritesOnOk W.write_str_gives f.old result (head_text epoch head) f.new }
{
    let octets = head.octets;
    write_commands(f, head)?;
    write!(f, ", {octets} octets")?;
    write_epoch(f, epoch, head)
}

// Writes the commands that a head reports.
fn write_commands<W: fmt::Write>(f: &mut fmt::Formatter<W>, head: Head) -> fmt::Result
    ensures { WritesOnOk W.write_str_gives f.old result (commands_text head) f.new }
{
    let (first, count) = (head.first, head.count);
    if has_numbers(head) {
        let last = first + u64::from(count) - 1;
        let span = Span {
            first: first as usize,
            last: last as usize,
        };
        let word = "command";
        write!(f, "{}", SpanText { word, span })
    } else {
        write!(f, "first command {first}, count {count}")
    }
}

// Returns whether a head gives numbers to its commands.
fn has_numbers(head: Head) -> bool
    ensures { result ≡ has_numbers head }
{
    1 <= head.count && head.first <= LAST_NUMBER
}

// Writes the epoch of a head, if it is not that of the area.
fn write_epoch<W: fmt::Write>(f: &mut fmt::Formatter<W>, epoch: u64, head: Head) -> fmt::Result
    ensures { WritesOnOk W.write_str_gives f.old result (epoch_text epoch head) f.new }
{
    if is_of(epoch, head) {
        Ok(())
    } else {
        write!(f, ", epoch {}", head.epoch)
    }
}

fn is_of(epoch: u64, head: Head) -> bool
    ensures { result ≡ (head.epoch == epoch) }
{
    head.epoch == epoch
}
