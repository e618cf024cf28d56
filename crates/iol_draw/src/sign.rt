//! The signs of a picture. Each has a shape of its own, which differs from the others in black and white too.

use std::fmt;

#[derive(Clone, Copy, PartialEq, Eq)]
pub(crate) enum Sign {
    // A filled triangle is a command that is accepted.
    Accepted,
    // A line is a command that waits for the disk, from where it is accepted to where it is acknowledged.
    Waits,
    // A dot is an acknowledgement of commands.
    Acknowledged,
    // An empty triangle on its tip is a command that is refused.
    Refused,
    // A ring is a page that was read.
    Page,
    // A tick is an exchange.
    Exchange,
    // A zigzag is a device that is lost.
    Loss,
    // A block is a sector that was written.
    Write,
    // An empty diamond is a gate that was opened.
    Opened,
    // A filled diamond is a gate that was closed.
    Closed,
    // A line with two ends through the lane is a sync.
    Sync,
    // A cross is a disk call that failed.
    Failed,
}

// These are all signs, in the order of the legend.
pub(crate) const SIGNS: [Sign; 12] = [
    Sign::Accepted,
    Sign::Waits,
    Sign::Acknowledged,
    Sign::Refused,
    Sign::Page,
    Sign::Exchange,
    Sign::Loss,
    Sign::Write,
    Sign::Opened,
    Sign::Closed,
    Sign::Sync,
    Sign::Failed,
];

impl Sign {
    // Returns the class of the sign, and its meaning.
    pub(crate) fn name(self) -> (&'static str, &'static str) {
        match self {
            Sign::Accepted => ("accepted", "command accepted"),
            Sign::Waits => ("durable", "waits for the disk"),
            Sign::Acknowledged => ("acknowledged", "acknowledged"),
            Sign::Refused => ("refused", "command refused"),
            Sign::Page => ("page", "page read"),
            Sign::Exchange => ("exchange", "exchange"),
            Sign::Loss => ("loss", "device lost"),
            Sign::Write => ("write", "sector written"),
            Sign::Opened => ("opened", "gate opened"),
            Sign::Closed => ("closed", "gate closed"),
            Sign::Sync => ("sync", "sync"),
            Sign::Failed => ("failed", "disk call failed"),
        }
    }

    // Returns its shape around its place in a lane. A sync goes from one row of the disk to the other.
    fn shape(self) -> &'static str {
        match self {
            Sign::Sync => "M0 -12v48M-3 -12h6M-3 36h6",
            sign => sign.small_shape(),
        }
    }

    // Returns its shape around its place in the legend.
    fn small_shape(self) -> &'static str {
        match self {
            Sign::Accepted => "M0 -5l4 8h-8z",
            Sign::Waits => "M-6 -4l12 8",
            Sign::Acknowledged => "M-4 0a4 4 0 1 0 8 0a4 4 0 1 0 -8 0z",
            Sign::Refused => "M0 5l-4 -8h8z",
            Sign::Page => "M-3 0a3 3 0 1 0 6 0a3 3 0 1 0 -6 0z",
            Sign::Exchange => "M0 -4v8",
            Sign::Loss => "M-5 3l3 -6l4 6l3 -6",
            Sign::Write => "M-3 -3h6v6h-6z",
            Sign::Opened | Sign::Closed => "M0 -5l3 5l-3 5l-3 -5z",
            Sign::Sync => "M0 -5v10M-3 -5h6M-3 5h6",
            Sign::Failed => "M-5 -5l10 10M5 -5l-10 10",
        }
    }

    // Returns whether its inside is black.
    fn is_filled(self) -> bool {
        matches!(
            self,
            Sign::Accepted | Sign::Acknowledged | Sign::Write | Sign::Closed
        )
    }
}

// Begins a sign at this place in a lane; its title and its end are to follow.
pub(crate) fn write_sign<W: fmt::Write>(
    f: &mut fmt::Formatter<W>,
    sign: Sign,
    left: usize,
    top: usize,
) -> fmt::Result {
    write_shape(f, sign, sign.shape(), left, top)
}

// Begins a sign at this place in the legend; its end is to follow.
pub(crate) fn write_small_sign<W: fmt::Write>(
    f: &mut fmt::Formatter<W>,
    sign: Sign,
    left: usize,
    top: usize,
) -> fmt::Result {
    write_shape(f, sign, sign.small_shape(), left, top)
}

fn write_shape<W: fmt::Write>(
    f: &mut fmt::Formatter<W>,
    sign: Sign,
    shape: &str,
    left: usize,
    top: usize,
) -> fmt::Result {
    let (class, _) = sign.name();
    let fill = if sign.is_filled() { "black" } else { "white" };
    write!(
        f,
        "<path class='{class}' transform='translate({left} {top})' d='{shape}' stroke='black' fill='{fill}'>"
    )
}
