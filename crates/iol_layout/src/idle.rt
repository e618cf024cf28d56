//! Why the area that is not in use is harmless.

/// Why the area that is not in use is harmless.
#[derive(Clone, Copy)]
pub enum Idle {
    /// Its header has an older epoch.
    Older,
    /// Its gate is closed.
    Closed,
}
