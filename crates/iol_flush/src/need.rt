//! The call that a flusher needs next, as a value.

/// The call that a flusher needs next.
#[derive(Clone, Copy, PartialEq, Eq)]
pub enum Need {
    /// A batch: [`give`](crate::Flusher::give).
    Batch,
    /// A batch, or if there is none the next disk call of the checkpoint that is due:
    /// [`disk_step`](crate::Flusher::disk_step).
    BatchOrDisk,
    /// A disk call: [`disk_step`](crate::Flusher::disk_step).
    Disk,
    /// The batch is durable, and is to be published: [`publish`](crate::Flusher::publish).
    Publish,
    /// No further call: a disk call has failed.
    Stopped,
}
