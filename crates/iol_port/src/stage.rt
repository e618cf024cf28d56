//! The stages of a port.

use crate::fault::PortFault;
use iol_core::{DownloadPermit, Ticket, UploadPermit, Work};
use iol_link::{IdentFault, Page};
use iol_transfer::{Download, StateProperty, Upload};
use iol_types::DataSet;
use std::sync::Arc;

// How a port has settled, with the page of its device if the device is there.
#[derive(Clone, Copy)]
pub(crate) enum Rest {
    Off,
    Lost,
    Failed(PortFault),
    Ready(Page),
    ReadyLocked(Page),
    ReadyEmpty(Page),
    Mismatch(IdentFault, Page),
}

// A device that fits its port's configuration: the work of the port, the device's page, and the connection on which the page
// was read.
#[derive(Clone, Copy)]
pub(crate) struct FoundDevice {
    pub(crate) work: Work,
    pub(crate) page: Page,
    pub(crate) connection: u64,
}

// Why a page is read.
#[derive(Clone, Copy)]
pub(crate) enum PageFor {
    // To check whether the device of a settled port is still there.
    Comparing { work: Work, rest: Rest },
    // To check whether the device fits the port's configuration.
    Identifying { work: Work },
}

// Why the core is asked for the port's work.
#[derive(Clone, Copy)]
pub(crate) enum AttendFor {
    // A settled port was woken.
    Waking {
        rest: Rest,
    },
    // To check whether what was read of a device still counts.
    Confirming {
        found: FoundDevice,
        property: StateProperty,
        checksum: u32,
    },
    // The set of an upload was not taken, since the port was configured again.
    Restarting,
}

// What is sent to the device outside a transfer. `left` says how often it may still be sent if the device is busy.
#[derive(Clone, Copy)]
pub(crate) enum ExchangeFor {
    ReadingState {
        found: FoundDevice,
        left: u8,
    },
    ReadingChecksum {
        found: FoundDevice,
        property: StateProperty,
        left: u8,
    },
    // DS_UploadEnd: the set is durable.
    EndingUpload {
        page: Page,
        left: u8,
    },
    // DS_Break: nothing more is stored. No permit is held.
    Stopping {
        storing: bool,
    },
    // DS_Break: the port was configured again. No permit is held.
    Yielding,
}

// The direction of a transfer.
#[derive(Clone, Copy)]
pub(crate) enum Transfer {
    Upload,
    Download,
}

// A permit that a port holds.
pub(crate) enum Held {
    Upload(UploadPermit),
    Download(DownloadPermit),
}

// Why a port awaits an answer of its device. A transfer holds its permit until it ends.
pub(crate) enum AwaitsAnswer {
    Exchanging(ExchangeFor),
    Uploading(UploadPermit, Page, Upload),
    Downloading(DownloadPermit, Page, Download),
    // DS_Break is sent, and after its answer the permit is returned.
    Breaking(Held, PortFault),
}

// Why a port awaits a reply of the core. It holds no permit.
#[derive(Clone, Copy)]
pub(crate) enum AwaitsCore {
    Attending(AttendFor),
    BeginningUpload(FoundDevice),
    BeginningDownload(FoundDevice, u32),
    // The set and its permit are with the core.
    Filed(Page),
    Storing(Ticket, Page),
    // The permit is with the core.
    Returned(Transfer, Rest),
}

// Why a port holds a permit that its next call of the core takes.
pub(crate) enum SpendsPermit {
    Filing(UploadPermit, Page, Arc<DataSet>),
    Returning(Held, Rest),
}

// The stage of a port. Its variant says what may be fed to the port, apart from events.
pub(crate) enum Stage {
    // The port may be woken.
    Settled(Rest),
    // The port is fed the page of its device, or that the device was lost.
    Page(PageFor),
    // The port is fed an answer of its device, or that the device was lost.
    Answer(AwaitsAnswer),
    // The port is fed the core's reply to its call.
    Core(AwaitsCore),
    // The port is fed nothing until it has called the core.
    Permit(SpendsPermit),
}

// How a port continues.
pub(crate) enum Next {
    To(Stage),
    // The port starts with this work.
    Start(Work),
}
