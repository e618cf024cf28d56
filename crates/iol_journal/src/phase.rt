//! The next disk call of a batch that is being written.

ghost use Rattle.std.specs.Prelude.{◌≡◌, ◌<◌};

/// The next disk call of a batch that is being written.
#[derive(Clone, Copy)]
pub enum Phase {
    /// The write of this sector of the body.
    Body(usize),
    /// The sync that makes the body durable.
    SyncBody,
    /// The write that opens the slot's gate.
    Gate,
    /// The sync that makes the open gate durable.
    SyncGate,
}

impl Phase {
    ghost use Rattle.iol_journal.specs.Batches.{next_phase, IsPhase};

    /// The phase after this one, for a body of `sectors` sectors; `None` after the last.
    pub fn next(self, sectors: usize) -> Option<Phase>
        requires phase { IsPhase sectors self }
        requires short { sectors < 1000000 }
        ensures { result ≡ next_phase sectors self }
    {
        match self {
            Phase::Body(j) if j + 1 < sectors => Some(Phase::Body(j + 1)),
            Phase::Body(_) => Some(Phase::SyncBody),
            Phase::SyncBody => Some(Phase::Gate),
            Phase::Gate => Some(Phase::SyncGate),
            Phase::SyncGate => None,
        }
    }
}
