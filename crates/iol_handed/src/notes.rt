//! The reports of a port that its next step has not used yet.

ghost use Rattle.std.specs.Prelude.{◌≡◌};
ghost use Rattle.iol_handed.specs.Notes.{event_kept, noted_after};

use iol_port::UPLOAD_REQUEST;

/// The reason why a settled port is called.
#[derive(Clone, Copy, PartialEq, Eq)]
pub enum Attention {
    /// There is none.
    None,
    /// The port is to look at its device again.
    Woken,
    /// The port's device is gone.
    Gone,
}

/// The reports of a port that its next step has not used yet.
#[derive(Clone, Copy)]
pub struct PortNotes {
    /// The EventCode of an event of the port's device.
    pub event: Option<u16>,
    /// The reason why the port is called.
    pub attention: Attention,
}

/// The notes of a port of which nothing was reported.
pub const NO_NOTES: PortNotes = PortNotes {
    event: None,
    attention: Attention::None,
};

// Returns the event that is kept once one more comes: the last one, but always one by which a device asks for
// an upload.
pub(crate) fn event_kept(kept: Option<u16>, code: u16) -> Option<u16>
    ensures { result ≡ event_kept kept code }
{
    if kept == Some(UPLOAD_REQUEST) {
        kept
    } else {
        Some(code)
    }
}

// Returns the notes that are left after a step: that a device is gone, until the port has heard it or is
// settled.
pub(crate) fn noted_after(attention: Attention, heard: bool, settled: bool) -> PortNotes
    ensures { result ≡ noted_after attention heard settled }
{
    let attention = if attention == Attention::Gone && !heard && !settled {
        Attention::Gone
    } else {
        Attention::None
    };
    PortNotes {
        event: None,
        attention,
    }
}
