//! A slot and its five calls, each of which makes one call of the disk.

ghost use Rattle.std.specs.Prelude.{◌≡◌, ◌<◌, ◌≤◌, ◌+◌, ◌*◌, ◌^◌, ℕ, true, false, IsTrue, OnOk, OnErr, IfOk};
ghost use Rattle.iol_disk.specs.Content.{reads, wrote};
ghost use Rattle.iol_disk.specs.Disk.{After, Same, WroteSome, FailsOnlyAs};
ghost use Rattle.iol_disk.specs.Moments.{LeavesOnly};
ghost use Rattle.iol_disk.specs.declared.fault.DiskFault.{DiskFault};
ghost use Rattle.iol_disk.specs.declared.slot.TheConstants.{BODY_SECTORS};
ghost use Rattle.iol_disk.specs.Gate.{is_open, open_gate, closed_gate, body_sector, IsShut, AreSynced};

use crate::disk::{SECTOR_OCTETS, SectorDisk};
use crate::fault::DiskFault;

/// The octets at the beginning of an open gate (docs/FORMATS.md, "Gates").
pub const GATE_MARK: [u8; 8] = [0xA5, 0x5A, 0xA5, 0x5A, 0xA5, 0x5A, 0xA5, 0x5A];

/// The number of body sectors after one gate.
pub const BODY_SECTORS: usize = 16;

/// A gate and the body after it, as sectors of a disk. A body may extend over further slots, whose gates stay closed and
/// are not read.
#[derive(Clone, Copy)]
pub struct Slot {
    /// The sector of the gate.
    pub gate: usize,
    /// The first sector of the body.
    pub body: usize,
    /// The number of slots that the body takes.
    pub span: usize,
    /// The number of sectors in the body.
    pub sectors: usize,
    ghost gate_first: { body ≡ gate + 1 },
    ghost whole: { sectors ≡ BODY_SECTORS * span },
    ghost small: { body + (1 + BODY_SECTORS) * span < 2 ^ 64 },
}

impl Slot {
    /// Reads the gate, and returns whether it is open.
    pub fn is_open<D: SectorDisk>(&self, disk: &mut D) -> Result<bool, DiskFault>
        requires { self.now.gate < (D.disk disk.old).sectors }
        ensures open { IfOk result (λ answer. IsTrue (D.disk disk.old).honest → answer
            ≡ is_open (reads (D.disk disk.old).content self.now.gate)) }
        ensures same { Same (D.disk disk.old) (D.disk disk.new) }
        ensures fault { FailsOnlyAs DiskFault.Read (D.disk disk.old) (D.disk disk.new) result }
    {
        let mut octets = [0; SECTOR_OCTETS];
        disk.read(self.gate, &mut octets)?;
        Ok(octets.starts_with(&GATE_MARK))
    }

    /// Reads sector `j` of the body, counted from 0. On failure, `octets` is unchanged.
    pub fn read_sector<D: SectorDisk>(
        &self,
        disk: &mut D,
        j: usize,
        octets: &mut [u8; SECTOR_OCTETS],
    ) -> Result<(), DiskFault>
        requires inside { j < self.now.sectors }
        requires fits { self.now.gate + (1 + BODY_SECTORS) * self.now.span ≤ (D.disk disk.old).sectors }
        ensures read { OnOk result (IsTrue (D.disk disk.old).honest → octets.new
            ≡ reads (D.disk disk.old).content (body_sector self.now.body j)) }
        ensures kept { OnErr result (octets.new ≡ octets.old) }
        ensures same { Same (D.disk disk.old) (D.disk disk.new) }
        ensures fault { FailsOnlyAs DiskFault.Read (D.disk disk.old) (D.disk disk.new) result }
    {
        disk.read(self.body + j + j / BODY_SECTORS, octets)
    }

    /// Writes sector `j` of the body, counted from 0. On failure, the sector still counts as written.
    pub fn write_sector<D: SectorDisk>(
        &self,
        disk: &mut D,
        j: usize,
        octets: &[u8; SECTOR_OCTETS],
    ) -> Result<(), DiskFault>
        requires inside { j < self.now.sectors }
        requires fits { self.now.gate + (1 + BODY_SECTORS) * self.now.span ≤ (D.disk disk.old).sectors }
        ensures wrote { OnOk result (After (wrote (body_sector self.now.body j) octets.now) (D.disk disk.old) (D.disk disk.new)) }
        ensures wrote_some { OnErr result (WroteSome (body_sector self.now.body j) (D.disk disk.old) (D.disk disk.new)) }
        ensures fault { FailsOnlyAs DiskFault.Write (D.disk disk.old) (D.disk disk.new) result }
        // If the gate is closed, it stays closed whatever a stop leaves.
        ensures behind { IsShut self.now.gate (D.disk disk.old)
            → LeavesOnly (D.disk disk.old) (D.disk disk.new) (λ image. is_open (image self.now.gate) ≡ false) }
    {
        disk.write(self.body + j + j / BODY_SECTORS, octets)
    }

    /// Opens the gate. On failure, the gate still counts as written, and may be open or closed.
    pub fn open_gate<D: SectorDisk>(&self, disk: &mut D) -> Result<(), DiskFault>
        requires { self.now.gate < (D.disk disk.old).sectors }
        ensures wrote { OnOk result (After (wrote self.now.gate open_gate) (D.disk disk.old) (D.disk disk.new)) }
        ensures open { OnOk result (IsTrue (D.disk disk.old).honest → is_open (reads (D.disk disk.new).content self.now.gate) ≡ true) }
        ensures wrote_some { OnErr result (WroteSome self.now.gate (D.disk disk.old) (D.disk disk.new)) }
        ensures fault { FailsOnlyAs DiskFault.Write (D.disk disk.old) (D.disk disk.new) result }
        // If the body is synced, it is whole whatever a stop leaves of the gate.
        ensures whole { AreSynced self.now.body self.now.sectors (D.disk disk.old) → LeavesOnly (D.disk disk.old) (D.disk disk.new)
            (λ image. (j : ℕ) → j < self.now.sectors → image (body_sector self.now.body j)
            ≡ reads (D.disk disk.old).content (body_sector self.now.body j)) }
    {
        let mut octets = [0; SECTOR_OCTETS];
        octets[..GATE_MARK.len()].copy_from_slice(&GATE_MARK);
        disk.write(self.gate, &octets)
    }

    /// Closes the gate. On failure, the gate still counts as written, and may be open or closed.
    pub fn close_gate<D: SectorDisk>(&self, disk: &mut D) -> Result<(), DiskFault>
        requires { self.now.gate < (D.disk disk.old).sectors }
        ensures wrote { OnOk result (After (wrote self.now.gate closed_gate) (D.disk disk.old) (D.disk disk.new)) }
        ensures closed { OnOk result (IsTrue (D.disk disk.old).honest → is_open (reads (D.disk disk.new).content self.now.gate) ≡ false) }
        ensures wrote_some { OnErr result (WroteSome self.now.gate (D.disk disk.old) (D.disk disk.new)) }
        ensures fault { FailsOnlyAs DiskFault.Write (D.disk disk.old) (D.disk disk.new) result }
    {
        disk.write(self.gate, &[0; SECTOR_OCTETS])
    }
}
