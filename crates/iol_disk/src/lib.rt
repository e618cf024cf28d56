//! Disks of sectors, what a power stop may leave on them, and slots: a gate and the sectors after it.
//!
//! A caller reads, writes and syncs whole sectors through [`SectorDisk`]. Each contract says what a read returns, and what a
//! stop at any moment may leave. [`MemoryDisk`] is such a disk, and can be stopped: a [`Pick`] says what the stop leaves of the
//! sectors that were written since the last sync. [`FaultDisk`] wraps a disk and makes one of its calls fail, and
//! [`RecordedDisk`] wraps one and records its calls. [`ImageFile`] is a file of sectors; only its size and its faults are
//! promised. [`FileLength`] reports the length of a file, and [`LockFile`] locks it for as long as it is open.
//!
//! A [`Slot`] has a gate and a body. What the body holds counts only if the gate is open. The gate is a sector of its own, so
//! that one write opens or closes it. A writer fills the body while the gate is closed, syncs, and opens the gate; whatever a
//! stop then leaves of the gate, the body after it is whole. Each of the five calls of a slot makes one call of the disk, and
//! none allocates memory.
//!
//! Read `disk` first, then `memory`, `fault_disk`, `recorded_disk`, `image_file` and `slot`; `specs/Content.antt` and
//! `specs/Gate.antt` have the definitions. Proofs of other crates cite the laws of `proofs/DiskLaws.antt` and
//! `proofs/SlotLaws.antt`.
#![tactic(auto)]

mod cell;
mod cells;
mod disk;
pub mod examples;
mod fault;
mod fault_disk;
mod file_length;
mod image_fault;
mod image_file;
mod lock_file;
mod memory;
mod new_file;
mod pick;
mod recorded_disk;
mod slot;
pub mod slot_examples;
mod undo;

pub use disk::{SECTOR_OCTETS, SectorDisk};
pub use fault::DiskFault;
pub use fault_disk::{Due, FaultDisk};
pub use file_length::FileLength;
pub use image_fault::ImageFault;
pub use image_file::ImageFile;
pub use lock_file::LockFile;
pub use memory::MemoryDisk;
pub use pick::Pick;
pub use recorded_disk::{DiskCall, RecordedDisk};
pub use slot::{BODY_SECTORS, GATE_MARK, Slot};
