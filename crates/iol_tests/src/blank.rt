//! A disk, and the configuration of a port.

use iol_disk::MemoryDisk;
use iol_journal::{Geometry, format};
use iol_types::{DeviceId, Label, PortConfig, PortMode, Validation};
use std::alloc::Global;
use std::process::Abort;

/// Makes a disk of this number of sectors on which nothing was written.
pub fn blank<R: Abort>(rt: &R, alloc: Global, sectors: usize) -> MemoryDisk {
    MemoryDisk::new(alloc, sectors).expect(rt, "a disk")
}

/// Makes a formatted disk.
pub fn formatted<R: Abort>(rt: &R, alloc: Global, geometry: Geometry) -> MemoryDisk {
    let mut disk = blank(rt, alloc, geometry.sectors());
    format(alloc, &mut disk, geometry).expect(rt, "a format");
    disk
}

/// Returns IOL_MANUAL with Backup and Restore, for vendor 500 and device 43981.
pub fn config() -> PortConfig {
    PortConfig {
        mode: PortMode::IolManual,
        validation: Validation::BackupAndRestore,
        vendor: 500,
        device: DeviceId::new(43981).unwrap(),
        label: Label::empty(),
    }
}
