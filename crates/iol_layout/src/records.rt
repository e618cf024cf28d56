//! The sectors that the records of a state's ports take in an area.

ghost use Rattle.std.specs.Prelude.{◌≡◌, ◌≤◌, ◌<◌, ◌+◌, ◌*◌, ◌/◌, ◌++◌, [], ◌∷◌, length, map, IfOk, OnOk};
ghost use Rattle.std.specs.List.{range_with_len};
ghost use Rattle.iol_types.specs.State.{IsPort};
ghost use Rattle.iol_record.specs.Record.{port_octets, SpellsPort, SpellsState};
ghost use Rattle.iol_disk.specs.Calls.{write, Makes};
ghost use Rattle.iol_layout.specs.AreaPlans.{AreRecords, write_of};
ghost use Rattle.iol_layout.specs.AreaWrites.{port_writes};
ghost use Rattle.iol_layout.specs.Octets.{padded, sector_of};

use crate::area::Area;
use crate::layout::Layout;
use iol_disk::{DiskFault, SECTOR_OCTETS, SectorDisk};
use iol_record::{Version, encode_port};
use iol_types::{MasterState, PortId, PortState};
use std::alloc::{AllocError, Global};

/// A sector of a port's record, and its number on the disk.
#[derive(Drop)]
pub struct RecordSector {
    pub sector: usize,
    pub octets: [u8; SECTOR_OCTETS],
}

impl RecordSector {
    /// Writes the sector.
    ///
    /// # Errors
    /// `Write` if the disk fails.
    pub fn write<D: SectorDisk>(&self, disk: &mut D) -> Result<(), DiskFault>
        requires { self.now.sector < (D.disk disk.old).sectors }
        ensures { Makes (write_of self.now ∷ []) (D.disk disk.old) (D.disk disk.new) result }
    {
        disk.write(self.sector, &self.octets)
    }
}

// Encodes the record of a port, with zeros up to whole sectors.
fn padded_record(alloc: Global, version: Version, port: &PortState) -> Result<Vec<u8>, AllocError>
    requires { SpellsPort version port.now }
    ensures octets { IfOk result (λ octets. octets.items ≡ padded (port_octets version port.now)) }
    ensures in_range { OnOk result (IsPort port.now) }
{
    let mut octets = encode_port(alloc, version, port)?;
    let sectors = octets.len().div_ceil(SECTOR_OCTETS);
    octets.resize(SECTOR_OCTETS * sectors, 0)?;
    Ok(octets)
}

// Appends a record sector by sector; its first sector on the disk is `first`.
fn push_record(
    records: &mut Vec<RecordSector>,
    first: usize,
    octets: &[u8],
) -> Result<(), AllocError>
    requires bound { first < 10000 }
    requires small { length octets.now ≤ SECTOR_OCTETS * 17 }
    ensures { OnOk result (map write_of records.new.items
        ≡ map write_of records.old.items
        ++ map (λ j. write (first + j) (sector_of octets.now j)) (range_with_len 0 (length octets.now / SECTOR_OCTETS))) }
{
    for j in 0..octets.len() / SECTOR_OCTETS {
        let mut sector = [0; SECTOR_OCTETS];
        sector.copy_from_slice(&octets[SECTOR_OCTETS * j..SECTOR_OCTETS * (j + 1)]);
        records.push(RecordSector {
            sector: first + j,
            octets: sector,
        })?;
    }
    Ok(())
}

// Returns the sectors of the records of a state, port by port.
pub(crate) fn record_sectors(
    alloc: Global,
    layout: Layout,
    area: Area,
    state: &MasterState,
) -> Result<Vec<RecordSector>, AllocError>
    requires count { length state.now ≡ layout.ports }
    requires spelled { SpellsState layout.version state.now }
    ensures records { IfOk result (λ records. map write_of records.items ≡ port_writes layout area 0 state.now) }
    ensures sound { OnOk result (AreRecords layout area state.now) }
{
    let _sectors = layout.port_sectors();
    let version = layout.version();
    let mut records = Vec::with_capacity(alloc, usize::from(layout.ports()))?;
    for place in 0..layout.ports() {
        let first = layout.port(area, usize::from(place));
        let port = state.port(PortId::new(place + 1).unwrap()).unwrap();
        let octets = padded_record(alloc, version, port)?;
        push_record(&mut records, first, &octets)?;
    }
    Ok(records)
}
