//! The look of a status: its bar, and what is written in it. Bars differ in black and white too: transfers are higher, and
//! what went wrong is dark.

use iol_port::PortStatus;

// A bar: the colours of its inside and of its text, its height, and the largest number of letters of its text.
#[derive(Clone, Copy)]
pub(crate) struct Look {
    pub fill: &'static str,
    pub ink: &'static str,
    pub height: usize,
    pub letters: usize,
}

// Returns the look of a status.
pub(crate) fn look_of(status: PortStatus) -> Look {
    match status {
        PortStatus::Off => quiet("white", 3),
        PortStatus::Lost => quiet("white", 4),
        PortStatus::Starting => quiet("#eeeeee", 8),
        PortStatus::Ready => quiet("#c9e7ca", 5),
        PortStatus::ReadyLocked | PortStatus::ReadyEmpty => quiet("#c9e7ca", 12),
        PortStatus::Uploading => transfer("#a9c1ec", 9),
        PortStatus::Storing => transfer("#ece3a0", 7),
        PortStatus::Downloading => transfer("#f1cb98", 11),
        PortStatus::Mismatch(_) | PortStatus::Failed(_) => Look {
            fill: "#444444",
            ink: "white",
            height: 12,
            letters: 20,
        },
    }
}

// Returns the bar of a status in which no parameters are transferred.
fn quiet(fill: &'static str, letters: usize) -> Look {
    Look {
        fill,
        ink: "black",
        height: 12,
        letters,
    }
}

// Returns the bar of a transfer.
fn transfer(fill: &'static str, letters: usize) -> Look {
    Look {
        fill,
        ink: "black",
        height: 16,
        letters,
    }
}
