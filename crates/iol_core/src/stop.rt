//! Why a core accepts no more commands and uploads.

ghost use Rattle.std.specs.Prelude.{◌≡◌};
ghost use Rattle.iol_core.specs.Submit.{stopped_by};

/// Why no more commands and uploads are accepted.
#[derive(Clone, Copy, Debug, PartialEq, Eq)]
pub enum StopCause {
    /// The master is shut down: waiting commands are still written.
    Closed,
    /// A disk call failed: nothing more is written.
    DiskFailed,
    /// The master ends, and memory ran out for the waiting commands: nothing more is written, and the disk
    /// is sound.
    OutOfMemory,
}

impl StopCause {
    // The cause that remains when this one comes after an earlier one, if there was one.
    pub(crate) fn after(self, stopped: Option<StopCause>) -> StopCause
        ensures { result ≡ stopped_by stopped self }
    {
        match (stopped, self) {
            (Some(StopCause::DiskFailed), _) => StopCause::DiskFailed,
            (Some(StopCause::OutOfMemory), StopCause::Closed) => StopCause::OutOfMemory,
            (_, cause) => cause,
        }
    }
}
