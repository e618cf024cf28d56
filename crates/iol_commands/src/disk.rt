//! The disk of a run.
ghost use Rattle.std.specs.Prelude.{◌≡◌};
ghost use Rattle.iol_disk.specs.FaultDisk.{inner};
ghost use Rattle.iol_commands.specs.Played.{FailsAsSaid};

use iol_disk::{DiskFault, FaultDisk, MemoryDisk};
use iol_script::FailingCall;

// Makes the call fail that a script names. If it names none, no call fails.
pub(crate) fn failing(disk: MemoryDisk, fail: Option<FailingCall>) -> FaultDisk<MemoryDisk>
    ensures disk { inner result ≡ disk }
    ensures fails { FailsAsSaid fail result }
{
    match fail {
        Some(call) => FaultDisk::new(disk, call.kind, u64::from(call.number)),
        None => FaultDisk::new(disk, DiskFault::Read, 0),
    }
}
