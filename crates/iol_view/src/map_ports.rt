//! The records of an area's ports, in a map.
ghost use Rattle.std.specs.Prelude.{◌≡◌, ◌≤◌, ◌<◌};
ghost use Rattle.iol_disk.specs.Disk.{Same};
ghost use Rattle.iol_journal.specs.Layout.{total};
ghost use Rattle.iol_view.specs.Map.{record_in};

use crate::map_lines::{Cells, Line, Lines, Part, Span};
use iol_disk::{SECTOR_OCTETS, SectorDisk};
use iol_journal::survey::{Layout, read_port};
use iol_journal::{Area, RecoverCause};
use iol_types::{PortConfig, PortState, StoredSet};
use std::alloc::{AllocError, Global};
use std::fmt;

// Adds a line for each port of an area.
pub(crate) fn add_ports<D: SectorDisk>(
    alloc: Global,
    disk: &mut D,
    layout: Layout,
    area: Area,
    lines: &mut Lines,
) -> Result<(), RecoverCause>
    requires { total layout ≤ (D.disk disk.old).sectors }
    ensures { Same (D.disk disk.old) (D.disk disk.new) }
{
    let mut octets = Vec::new(alloc);
    for place in 0..layout.ports() {
        add_port(alloc, disk, layout, area, place, &mut octets, lines)?;
    }
    Ok(())
}

// Adds the line of the port at a place of an area.
fn add_port<D: SectorDisk>(
    alloc: Global,
    disk: &mut D,
    layout: Layout,
    area: Area,
    place: u8,
    octets: &mut Vec<u8>,
    lines: &mut Lines,
) -> Result<(), RecoverCause>
    requires within { total layout ≤ (D.disk disk.old).sectors }
    requires place { place < layout.ports }
    ensures { Same (D.disk disk.old) (D.disk disk.new) }
{
    let first = layout.port(area, usize::from(place));
    let sectors = layout.port_sectors();
    let port = found(read_port(alloc, disk, layout.version(), first, sectors, octets))?;
    let record = Record {
        number: usize::from(place) + 1,
        sectors: Span::counted(first, sectors),
        all: sectors,
        read: octets.len() / SECTOR_OCTETS,
    };
    match port_line(alloc, record, port) {
        Ok(line) => Ok(lines.add(line)?),
        Err(_) => Err(RecoverCause::Memory),
    }
}

// Returns the port that was read, or `None` if its sectors hold no record.
fn found(read: Result<PortState, RecoverCause>) -> Result<Option<PortState>, RecoverCause>
    ensures { result ≡ record_in read }
{
    match read {
        Ok(port) => Ok(Some(port)),
        Err(RecoverCause::Damaged { .. }) => Ok(None),
        Err(cause) => Err(cause),
    }
}

// The record of a port: its sectors, the number of sectors that it may have, and the number of them that were read.
#[derive(Clone, Copy)]
struct Record {
    number: usize,
    sectors: Span,
    all: usize,
    read: usize,
}

// Returns the line of a port.
fn port_line(alloc: Global, record: Record, port: Option<PortState>) -> Result<Line, AllocError> {
    let text = RecordText { record, port }.to_string(alloc)?;
    Ok(Line {
        part: Part::Port,
        numbers: Span::one(record.number),
        sectors: record.sectors,
        cells: Cells {
            gate: None,
            used: record.read,
            unused: record.all.saturating_sub(record.read),
        },
        text,
        damaged: false,
    })
}

// The text of a record.
#[derive(Drop)]
struct RecordText {
    record: Record,
    port: Option<PortState>,
}

impl fmt::Display for RecordText {
    fn fmt<W: fmt::Write>(&self, f: &mut fmt::Formatter<W>) -> fmt::Result {
        match &self.port {
            Some(port) => {
                let (read, all) = (self.record.read, self.record.all);
                write!(f, "{read} of {all} sectors, revision {}, ", port.revision())?;
                write!(
                    f,
                    "{}, {}",
                    ConfigText(port.config()),
                    SetText(port.stored())
                )?;
                match port.previous() {
                    Some(previous) => write!(f, ", previous {}", SetText(Some(previous))),
                    None => Ok(()),
                }
            }
            None => f.write_str("no record of a port"),
        }
    }
}

// The text of a configuration: each number after its name, and the label, if it has one.
#[derive(Drop)]
struct ConfigText(PortConfig);

impl fmt::Display for ConfigText {
    fn fmt<W: fmt::Write>(&self, f: &mut fmt::Formatter<W>) -> fmt::Result {
        let config = &self.0;
        let mode = config.mode.to_octet();
        let validation = config.validation.to_octet();
        let vendor = config.vendor;
        let device = config.device.number();
        write!(f, "mode {mode}, validation {validation}, ")?;
        write!(f, "vendor {vendor:04X}, device {device:06X}")?;
        if !config.label.is_empty() {
            write!(f, ", label \"{}\"", config.label)?;
        }
        Ok(())
    }
}

// The text of a parameter set of a port.
#[derive(Drop)]
struct SetText<'a>(Option<&'a StoredSet>);

impl fmt::Display for SetText<'_> {
    fn fmt<W: fmt::Write>(&self, f: &mut fmt::Formatter<W>) -> fmt::Result {
        let Some(stored) = self.0 else {
            return f.write_str("no set");
        };
        let (entries, octets) = (stored.set.len(), stored.set.octets());
        let checksum = stored.set.checksum();
        write!(
            f,
            "set of {entries} entries, {octets} octets, checksum {checksum:08X}"
        )
    }
}
