//! Why a batch is refused.

use std::alloc::AllocError;
use thiserror::Error;

/// Why a batch was not begun. `TooLarge` is checked first, and `NeedsCheckpoint` next.
#[derive(Clone, Copy, Debug, PartialEq, Eq, Error)]
pub enum BeginCause {
    /// It has more than 64 commands, or takes more slots than an area has.
    #[error("the batch is too large")]
    TooLarge,
    /// It takes more slots than are free; in an older layout none is free.
    #[error("too few slots are free")]
    NeedsCheckpoint,
    /// Out of memory.
    #[error("out of memory")]
    Memory,
    /// It has no command, its first number does not follow the journal's, a number is over 2^62, or a command
    /// does not pass the check of the state that it meets.
    #[error("the batch does not follow the journal")]
    Misfit,
}

impl From<AllocError> for BeginCause {
    ghost use Rattle.std.specs.Prelude.{◌≡◌};
    ghost use Rattle.iol_journal.specs.declared.refusal.BeginCause.TheVariants.{Memory};

    ghost from_gives = { λ _ cause. cause ≡ Memory };

    fn from(_error: AllocError) -> BeginCause {
        BeginCause::Memory
    }
}
