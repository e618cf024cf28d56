//! Formats a flash, by calls that are handed out.

ghost use Rattle.std.specs.Prelude.{◌≡◌, ◌⊎◌, true};
ghost use Rattle.std.specs.Option.{option_map};
ghost use Rattle.std.specs.List.{slice_get};
ghost use Rattle.iol_c.specs.FormatExports.{HandsOut, IsGeometryOf, OfGeometry, OutOfMemory, erase_then_format};
ghost use Rattle.iol_journal.specs.Erasing.{erase_calls};
ghost use Rattle.iol_handed.specs.HandedDisk.{call_of};
ghost use Rattle.iol_layout.specs.Layout.{layout_of, total};

use crate::codes::{INVALID, MEMORY, NOTHING, OK, SYNC, WRITE};
use crate::structs::DiskCall;
use iol_disk::SECTOR_OCTETS;
use iol_handed::{HandedCall, HandedFormat};
use iol_layout::{DISK_GATE, Geometry};
use std::alloc::Global;

/// Writes down the number of sectors of a flash for this number of ports and of slots.
#[unsafe(no_mangle)]
pub extern "C" fn iolm_format_sectors(ports: u16, slots: u16, sectors: &mut u64) -> u32
    ensures { OfGeometry ports slots ((result ≡ 5) × (sectors.new ≡ sectors.old)) (λ geometry.
        (result ≡ 0) × (sectors.new ≡ total (layout_of geometry))) }
{
    let Some(geometry) = geometry_of(ports, slots) else {
        return INVALID;
    };
    *sectors = geometry.sectors() as u64;
    OK
}

/// Hands out the call with this number, counted from 0, of an erasure followed by a format.
#[unsafe(no_mangle)]
pub extern "C" fn iolm_format_next(
    alloc: Global,
    ports: u16,
    slots: u16,
    number: usize,
    call: &mut DiskCall,
) -> u32
    ensures { OfGeometry ports slots ((result ≡ 5) × (call.new ≡ call.old)) (λ geometry.
        OutOfMemory call.old call.new result ⊎ HandsOut (slice_get (erase_then_format geometry) number) call.old call.new result) }
{
    let Some(geometry) = geometry_of(ports, slots) else {
        return INVALID;
    };
    if number < 3 {
        return hand_out(erase_call(number), call);
    }
    match HandedFormat::new(alloc, geometry) {
        Ok(format) => hand_out(format.call(number - 3), call),
        Err(_) => MEMORY,
    }
}

// Returns the geometry for this number of ports and of slots, if there is one.
fn geometry_of(ports: u16, slots: u16) -> Option<Geometry>
    ensures { IsGeometryOf (record { ports = ports; slots = slots }) result }
{
    Geometry::new(ports, slots)
}

// Returns the call with this number of an erasure.
#[tactic(auto, unfolding(iol_disk::specs::Gate::closed_gate))]
fn erase_call(number: usize) -> Option<HandedCall>
    ensures { option_map call_of result ≡ slice_get (erase_calls true) number }
{
    match number {
        0 | 2 => Some(HandedCall::Sync),
        1 => Some(HandedCall::Write {
            sector: DISK_GATE,
            octets: [0; SECTOR_OCTETS],
        }),
        _ => None,
    }
}

// Writes a call down, and returns its code.
fn hand_out(handed: Option<HandedCall>, call: &mut DiskCall) -> u32
    ensures { HandsOut (option_map call_of handed) call.old call.new result }
{
    match handed {
        Some(HandedCall::Write { sector, octets }) => {
            call.sector = sector as u64;
            call.octets = octets;
            WRITE
        }
        Some(HandedCall::Sync) => SYNC,
        None => NOTHING,
    }
}
