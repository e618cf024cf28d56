//! The front of an area in a map: its gate, its header, and whether it is in use.
ghost use Rattle.std.specs.Prelude.{◌≡◌, ◌≤◌, IfOk, string_bytes};
ghost use Rattle.iol_disk.specs.Disk.{Same};
ghost use Rattle.iol_journal.specs.Layout.{total};
ghost use Rattle.iol_view.specs.Map.{area_text, gate_text, standing_of, standing_text, version_text};

use crate::map_lines::{Cells, Gate, Line, Part, Span};
use iol_disk::{DiskFault, SectorDisk};
use iol_journal::survey::{Layout, read_header};
use iol_journal::{Area, Header, InUse};
use iol_record::Version;
use std::alloc::{AllocError, Global};
use std::fmt;

// The number of sectors of the gate and the header of an area.
const FRONT_SECTORS: usize = 2;

// The standing of an area.
#[derive(Clone, Copy)]
pub(crate) enum Standing {
    // It is in use: of the open areas it has the greatest epoch.
    InUse,
    // It is open, and the other is in use.
    Older,
    // It is open, and no area is in use.
    Undecided,
    // Its gate is closed.
    Closed,
}

// The front of an area: its standing, and its header.
#[derive(Clone, Copy)]
pub(crate) struct Front {
    pub area: Area,
    pub standing: Standing,
    pub header: Header,
}

// Returns the front of an area. Its header is read here if its gate is closed.
pub(crate) fn read_front<D: SectorDisk>(
    disk: &mut D,
    layout: Layout,
    area: Area,
    opened: Option<Header>,
    chosen: Option<InUse>,
) -> Result<Front, DiskFault>
    requires { total layout ≤ (D.disk disk.old).sectors }
    ensures { Same (D.disk disk.old) (D.disk disk.new) }
{
    match opened {
        Some(header) => Ok(Front {
            area,
            standing: standing_of(area, chosen),
            header,
        }),
        None => {
            let header = read_header(disk, layout, area)?;
            Ok(Front {
                area,
                standing: Standing::Closed,
                header,
            })
        }
    }
}

// Returns the standing of an area whose gate is open.
fn standing_of(area: Area, chosen: Option<InUse>) -> Standing
    ensures { result ≡ standing_of area chosen }
{
    let Some(used) = chosen else {
        return Standing::Undecided;
    };
    match (area, used.area) {
        (Area::A, Area::A) => Standing::InUse,
        (Area::A, Area::B) => Standing::Older,
        (Area::B, Area::A) => Standing::Older,
        (Area::B, Area::B) => Standing::InUse,
    }
}

// Returns the line of the gate and the header of an area.
pub(crate) fn area_line(alloc: Global, layout: Layout, front: Front) -> Result<Line, AllocError>
    ensures { IfOk result (λ line. string_bytes line.text ≡ area_text front.standing front.header) }
{
    let text = front.to_string(alloc)?;
    Ok(Line {
        part: part_of(front.area),
        numbers: Span::one(0),
        sectors: Span::counted(layout.gate(front.area), FRONT_SECTORS),
        cells: Cells {
            gate: Some(gate_of(front.standing)),
            used: 1,
            unused: 0,
        },
        text,
        damaged: false,
    })
}

fn part_of(area: Area) -> Part {
    match area {
        Area::A => Part::AreaA,
        Area::B => Part::AreaB,
    }
}

fn gate_of(standing: Standing) -> Gate {
    match standing {
        Standing::Closed => Gate::Closed,
        Standing::InUse | Standing::Older | Standing::Undecided => Gate::Open,
    }
}

impl fmt::Display for Front {
    ghost use Rattle.std.specs.Prelude.{Some};
    ghost use Rattle.iol_view.specs.Map.{area_text};

    ghost output = { λ front. Some (area_text front.standing front.header) };

    fn fmt<W: fmt::Write>(&self, f: &mut fmt::Formatter<W>) -> fmt::Result {
        let gate = gate_text(self.standing);
        let standing = standing_text(self.standing);
        let Header {
            epoch,
            base,
            version,
        } = self.header;
        let version = version_text(version);
        write!(
            f,
            "{gate}, epoch {epoch}, base {base}, {version}, {standing}"
        )
    }
}

// Returns the words for the gate of an area.
fn gate_text(standing: Standing) -> &'static str
    ensures { result.now ≡ gate_text standing }
{
    match standing {
        Standing::Closed => "gate closed",
        Standing::InUse | Standing::Older | Standing::Undecided => "gate open",
    }
}

// Returns the words for the version that a header names.
fn version_text(version: Option<Version>) -> &'static str
    ensures { result.now ≡ version_text version }
{
    match version {
        Some(Version::One) => "version 1",
        Some(Version::Two) => "version 2",
        None => "no version",
    }
}

// Returns the words for whether an area is in use, and why.
fn standing_text(standing: Standing) -> &'static str
    ensures { result.now ≡ standing_text standing }
{
    match standing {
        Standing::InUse => "in use: open, greatest epoch",
        Standing::Older => "not in use: older",
        Standing::Undecided => "not in use: no area is",
        Standing::Closed => "not in use: closed",
    }
}
