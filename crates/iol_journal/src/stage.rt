//! The stages of a checkpoint, one for each disk call.

ghost use Rattle.std.specs.Prelude.{◌≡◌};

use crate::phase::Phase;
use iol_layout::Idle;

/// The next disk call of a checkpoint (docs/FORMATS.md, "Orders of disk calls").
#[derive(Clone, Copy)]
pub enum CheckpointStage {
    /// The write that makes the header of the other area older than any, if it is not.
    ClearHeader,
    /// The sync that makes that header durable.
    SyncHeader,
    /// The write that closes the gate of the other area.
    CloseGate,
    /// The sync that makes the closed gate durable.
    SyncClosed,
    /// The write that closes the gate of this slot.
    CloseSlot(usize),
    /// The sync that makes the closed slots durable.
    SyncSlots,
    /// The write of the header: the next epoch, and the number of commands so far.
    WriteHeader,
    /// The write of this sector of the ports' records.
    WriteRecord(usize),
    /// The sync that makes header and records durable.
    SyncRecords,
    /// A disk call of a batch that was written while the checkpoint was paused and is carried into the other area.
    Carry(Phase),
    /// The write that opens the gate of the other area.
    OpenGate,
    /// The sync that makes the open gate durable.
    SyncOpen,
}

impl CheckpointStage {
    ghost use Rattle.std.specs.Prelude.{◌≡◌, ◌<◌};
    ghost use Rattle.iol_journal.specs.Checkpoints.{first_stage, next_batch, next_stage, IsStage};
    ghost use Rattle.iol_journal.specs.Drafts.{can_pause, idle_at, owing};

    // The first stage. A torn write may leave a gate open, so if only the closed gate makes the area harmless, its header is made
    // older first.
    pub(crate) fn first(idle: Idle) -> CheckpointStage
        ensures { result ≡ first_stage idle }
    {
        match idle {
            Idle::Older => CheckpointStage::CloseGate,
            Idle::Closed => CheckpointStage::ClearHeader,
        }
    }

    // The stage after the records or after a batch, with `owed` batches owed.
    fn next_batch(owed: usize) -> CheckpointStage
        ensures { result ≡ next_batch owed }
    {
        if 0 < owed {
            CheckpointStage::Carry(Phase::Body(0))
        } else {
            CheckpointStage::OpenGate
        }
    }

    /// Whether the gate of the other area is not yet written.
    pub fn can_pause(self) -> bool
        ensures { result ≡ can_pause self }
    {
        !matches!(self, CheckpointStage::SyncOpen)
    }

    /// What makes the other area harmless before the disk call of this stage.
    pub fn idle(self) -> Idle
        ensures { result ≡ idle_at self }
    {
        match self {
            CheckpointStage::CloseGate | CheckpointStage::SyncClosed => Idle::Older,
            _ => Idle::Closed,
        }
    }

    // The stage once one more batch is owed.
    pub(crate) fn owing(self) -> CheckpointStage
        ensures { result ≡ owing self }
    {
        match self {
            CheckpointStage::OpenGate => CheckpointStage::Carry(Phase::Body(0)),
            _ => self,
        }
    }

    // The stage after this one: `sectors` are those of the first owed batch, and `owed` is the number of owed batches.
    pub(crate) fn next(
        self,
        slots: usize,
        records: usize,
        sectors: usize,
        owed: usize,
    ) -> Option<CheckpointStage>
        requires stage { IsStage slots records sectors owed self }
        requires short { sectors < 1000000 }
        ensures { result ≡ next_stage slots records sectors owed self }
    {
        match self {
            CheckpointStage::ClearHeader => Some(CheckpointStage::SyncHeader),
            CheckpointStage::SyncHeader => Some(CheckpointStage::CloseGate),
            CheckpointStage::CloseGate => Some(CheckpointStage::SyncClosed),
            CheckpointStage::SyncClosed => Some(CheckpointStage::CloseSlot(0)),
            CheckpointStage::CloseSlot(slot) if slot + 1 < slots => Some(CheckpointStage::CloseSlot(
                slot + 1,
            )),
            CheckpointStage::CloseSlot(_) => Some(CheckpointStage::SyncSlots),
            CheckpointStage::SyncSlots => Some(CheckpointStage::WriteHeader),
            CheckpointStage::WriteHeader if 0 < records => Some(CheckpointStage::WriteRecord(0)),
            CheckpointStage::WriteHeader => Some(CheckpointStage::SyncRecords),
            CheckpointStage::WriteRecord(i) if i + 1 < records => Some(CheckpointStage::WriteRecord(
                i + 1,
            )),
            CheckpointStage::WriteRecord(_) => Some(CheckpointStage::SyncRecords),
            CheckpointStage::SyncRecords => Some(CheckpointStage::next_batch(owed)),
            CheckpointStage::Carry(phase) => match phase.next(sectors) {
                Some(phase) => Some(CheckpointStage::Carry(phase)),
                None => Some(CheckpointStage::next_batch(owed - 1)),
            },
            CheckpointStage::OpenGate => Some(CheckpointStage::SyncOpen),
            CheckpointStage::SyncOpen => None,
        }
    }
}
