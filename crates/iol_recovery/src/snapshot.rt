//! Reads the state from an area's port records.

ghost use Rattle.std.specs.Prelude.{◌≡◌, ◌<◌, ◌≤◌, ◌+◌, ◌*◌, ℕ, length, vec_capacity, IfOk, IfErr, IfSome, OnOk, Ok, Err};
ghost use Rattle.iol_disk.specs.Disk.{Same, Shows};
ghost use Rattle.iol_recovery.specs.Faults.{Counted, IsFault};
ghost use Rattle.iol_layout.specs.Layout.{total};
ghost use Rattle.iol_layout.specs.Meaning.{port_in, ports_from};
ghost use Rattle.iol_layout.specs.Octets.{octets_at};
ghost use Rattle.iol_recovery.specs.Reading.{Finds, SaysWhy};
ghost use Rattle.iol_recovery.specs.Wants.{PortWants, PortsWant};

use crate::cause::RecoverCause;
use iol_disk::{SECTOR_OCTETS, SectorDisk};
use iol_layout::{Area, Layout, PORT_SECTORS, read_sector};
use iol_record::{RecordFault, Version, decode_port, port_goes_on};
use iol_types::{MasterState, PortId, PortState};
use std::alloc::Global;

/// Reads the port whose record in this version begins at `sector` and has up to `sectors` sectors. Only the sectors that the record
/// reaches are read, and `octets` then holds them.
///
/// # Errors
/// `Damaged` with the first sector, if its sectors hold no record of a port; `Disk` with `Read` if the disk fails; `Memory` if out
/// of memory.
pub fn read_port<D: SectorDisk>(
    alloc: Global,
    disk: &mut D,
    version: Version,
    sector: usize,
    sectors: usize,
    octets: &mut Vec<u8>,
) -> Result<PortState, RecoverCause>
    requires fits { sector + sectors ≤ (D.disk disk.old).sectors }
    requires bound { sector + sectors < 1000000 }
    ensures finds { Finds (λ port. port) (D.disk disk.old) (λ image. port_in version image sector sectors) result }
    ensures memory { result ≡ Err RecoverCause.Memory
        → Shows (D.disk disk.old) (λ image. PortWants (vec_capacity octets.old) version image sector sectors) }
    ensures room { vec_capacity octets.old ≤ vec_capacity octets.new }
    ensures counted { Counted (D.disk disk.old) (D.disk disk.new) result }
    ensures same { Same (D.disk disk.old) (D.disk disk.new) }
{
    match read_at_once(alloc, disk, version, sector, sectors, octets)? {
        Some(port) => Ok(port),
        None => read_by_sectors(alloc, disk, version, sector, sectors, octets),
    }
}

// Decodes the port from all sectors that its record's lengths reach. Returns `None` if the record is still too short, or if out of
// memory: the contract says when that may happen only for a record that is decoded sector by sector.
fn read_at_once<D: SectorDisk>(
    alloc: Global,
    disk: &mut D,
    version: Version,
    sector: usize,
    sectors: usize,
    octets: &mut Vec<u8>,
) -> Result<Option<PortState>, RecoverCause>
    requires fits { sector + sectors ≤ (D.disk disk.old).sectors }
    requires bound { sector + sectors < 1000000 }
    ensures port { IfOk result (λ port. IfSome port (λ port. Shows (D.disk disk.old) (λ image. port_in version image sector sectors
        ≡ Ok port))) }
    ensures cause { IfErr result (λ told. Shows (D.disk disk.old) (λ image. SaysWhy (port_in version image sector sectors) told)) }
    ensures takes_no_memory { result ≡ Err RecoverCause.Memory → ⊥ }
    ensures room { vec_capacity octets.old ≤ vec_capacity octets.new }
    ensures counted { Counted (D.disk disk.old) (D.disk disk.new) result }
    ensures same { Same (D.disk disk.old) (D.disk disk.new) }
{
    match read_reached(disk, version, sector, sectors, octets) {
        Ok(()) => {}
        Err(RecoverCause::Memory) => return Ok(None),
        Err(told) => return Err(told),
    }
    match decode_port(alloc, version, octets) {
        Ok((port, _)) => Ok(Some(port)),
        Err(RecordFault::Short | RecordFault::Memory) => Ok(None),
        Err(RecordFault::BadTag) => Err(RecoverCause::Damaged { sector }),
        Err(RecordFault::BadField) => Err(RecoverCause::Damaged { sector }),
    }
}

// Reads the sectors that a record's lengths reach.
fn read_reached<D: SectorDisk>(
    disk: &mut D,
    version: Version,
    sector: usize,
    sectors: usize,
    octets: &mut Vec<u8>,
) -> Result<(), RecoverCause>
    requires fits { sector + sectors ≤ (D.disk disk.old).sectors }
    requires bound { sector + sectors < 1000000 }
    ensures read { OnOk result (Shows (D.disk disk.old) (λ image. (j : ℕ) × (j ≤ sectors)
        × (octets.new.items ≡ octets_at image sector j))) }
    ensures fault { IfErr result IsFault }
    ensures room { vec_capacity octets.old ≤ vec_capacity octets.new }
    ensures counted { Counted (D.disk disk.old) (D.disk disk.new) result }
    ensures same { Same (D.disk disk.old) (D.disk disk.new) }
{
    octets.clear();
    for j in 0..sectors {
        octets.extend_from_slice(&read_sector(disk, sector + j)?)?;
        if !port_goes_on(version, octets) {
            return Ok(());
        }
    }
    Ok(())
}

// Reads the port, and decodes its record after each sector.
fn read_by_sectors<D: SectorDisk>(
    alloc: Global,
    disk: &mut D,
    version: Version,
    sector: usize,
    sectors: usize,
    octets: &mut Vec<u8>,
) -> Result<PortState, RecoverCause>
    requires fits { sector + sectors ≤ (D.disk disk.old).sectors }
    requires bound { sector + sectors < 1000000 }
    ensures finds { Finds (λ port. port) (D.disk disk.old) (λ image. port_in version image sector sectors) result }
    ensures memory { result ≡ Err RecoverCause.Memory
        → Shows (D.disk disk.old) (λ image. PortWants (vec_capacity octets.old) version image sector sectors) }
    ensures room { vec_capacity octets.old ≤ vec_capacity octets.new }
    ensures counted { Counted (D.disk disk.old) (D.disk disk.new) result }
    ensures same { Same (D.disk disk.old) (D.disk disk.new) }
{
    octets.clear();
    for j in 0..sectors {
        octets.extend_from_slice(&read_sector(disk, sector + j)?)?;
        match decode_port(alloc, version, octets) {
            Ok((port, _)) => return Ok(port),
            Err(RecordFault::Short) => {}
            Err(RecordFault::Memory) => return Err(RecoverCause::Memory),
            Err(RecordFault::BadTag) => return Err(RecoverCause::Damaged { sector }),
            Err(RecordFault::BadField) => return Err(RecoverCause::Damaged { sector }),
        }
    }
    Err(RecoverCause::Damaged { sector })
}

// Reads the state from an area's port records.
pub(crate) fn read_ports<D: SectorDisk>(
    alloc: Global,
    disk: &mut D,
    layout: Layout,
    area: Area,
) -> Result<MasterState, RecoverCause>
    requires { total layout ≤ (D.disk disk.old).sectors }
    ensures finds { Finds (λ state. state) (D.disk disk.old) (λ image. ports_from layout area image 0 layout.ports) result }
    ensures counted { Counted (D.disk disk.old) (D.disk disk.new) result }
    ensures ports { IfOk result (λ state. length state ≡ layout.ports) }
    ensures same { Same (D.disk disk.old) (D.disk disk.new) }
{
    let mut state = MasterState::new(alloc, layout.ports())?;
    let mut octets = Vec::with_capacity(alloc, PORT_SECTORS * SECTOR_OCTETS)?;
    read_records(alloc, disk, layout, area, &mut state, &mut octets)?;
    Ok(state)
}

// Reads the ports of an area into a state of the same number of ports; `octets` is the buffer for a record.
fn read_records<D: SectorDisk>(
    alloc: Global,
    disk: &mut D,
    layout: Layout,
    area: Area,
    state: &mut MasterState,
    octets: &mut Vec<u8>,
) -> Result<(), RecoverCause>
    requires fits { total layout ≤ (D.disk disk.old).sectors }
    requires ports { length state.old ≡ layout.ports }
    requires room { PORT_SECTORS * SECTOR_OCTETS ≤ vec_capacity octets.old }
    ensures finds { Finds (λ _. state.new) (D.disk disk.old) (λ image. ports_from layout area image 0 layout.ports) result }
    ensures memory { result ≡ Err RecoverCause.Memory
        → Shows (D.disk disk.old) (λ image. PortsWant (PORT_SECTORS * SECTOR_OCTETS) layout area image) }
    ensures counted { Counted (D.disk disk.old) (D.disk disk.new) result }
    ensures ports { length state.new ≡ layout.ports }
    ensures same { Same (D.disk disk.old) (D.disk disk.new) }
{
    let version = layout.version();
    for place in 0..layout.ports() {
        let sector = layout.port(area, usize::from(place));
        let sectors = layout.port_sectors();
        let port = read_port(alloc, disk, version, sector, sectors, octets)?;
        state.set_port(PortId::new(place + 1).unwrap(), port);
    }
    Ok(())
}
