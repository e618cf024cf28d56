//! The answers, as they are written to structs of C.

ghost use Rattle.std.specs.Prelude.{◌≡◌};
ghost use Rattle.iol_c.specs.Shown.{failed_status, mismatch_octet, plain_status, set_struct, status_struct, transfer_status, view_struct};
ghost use Rattle.iol_c.specs.Shown.{failure_octet, isdu_octet, transfer_octet, permit_octet, download_octet, storing_octet};

use crate::configs::config_struct;
use crate::structs::{PortView, SetSize, Status};
use iol_core::{DownloadFault, PermitFault};
use iol_handed::{SetView, View};
use iol_link::{IdentFault, IsduFault};
use iol_port::{PortFault, PortStatus, StoringFault};
use iol_transfer::TransferFault;

/// Returns a status as C has it.
pub(crate) fn status_struct(status: PortStatus) -> Status
    ensures { result ≡ status_struct status }
{
    match status {
        PortStatus::Off => plain_status(0),
        PortStatus::Lost => plain_status(1),
        PortStatus::Starting => plain_status(2),
        PortStatus::Ready => plain_status(3),
        PortStatus::ReadyLocked => plain_status(4),
        PortStatus::ReadyEmpty => plain_status(5),
        PortStatus::Uploading => plain_status(6),
        PortStatus::Storing => plain_status(7),
        PortStatus::Downloading => plain_status(8),
        PortStatus::Mismatch(fault) => Status {
            detail: mismatch_octet(fault),
            ..plain_status(9)
        },
        PortStatus::Failed(fault) => failed_status(fault),
    }
}

// Returns a status with no further detail.
fn plain_status(status: u8) -> Status
    ensures { result ≡ plain_status status }
{
    Status {
        status,
        detail: 0,
        error: 0,
        additional: 0,
    }
}

// Returns a failure, with ErrorCode and AdditionalCode if a device has refused a request.
fn failed_status(fault: PortFault) -> Status
    ensures { result ≡ failed_status fault }
{
    match fault {
        PortFault::Transfer(fault) => transfer_status(fault),
        fault => Status {
            detail: failure_octet(fault),
            ..plain_status(10)
        },
    }
}

// Returns a failed exchange or transfer, with ErrorCode and AdditionalCode if a device has refused a request.
fn transfer_status(fault: TransferFault) -> Status
    ensures { result ≡ transfer_status fault }
{
    match fault {
        TransferFault::Refused { error, additional } => Status {
            error,
            additional,
            ..plain_status(10)
        },
        fault => Status {
            detail: transfer_octet(fault),
            ..plain_status(10)
        },
    }
}

// Returns the number for why a device is not the wanted one.
fn mismatch_octet(fault: IdentFault) -> u8
    ensures { result ≡ mismatch_octet fault }
{
    match fault {
        IdentFault::Vendor => 0,
        IdentFault::Device => 1,
        IdentFault::Revision => 2,
        IdentFault::NoIsdu => 3,
    }
}

// Returns the number for what has failed.
fn failure_octet(fault: PortFault) -> u8
    ensures { result ≡ failure_octet fault }
{
    match fault {
        PortFault::Isdu(fault) => isdu_octet(fault),
        PortFault::Transfer(fault) => transfer_octet(fault),
        PortFault::Permit(fault) => permit_octet(fault),
        PortFault::Download(fault) => download_octet(fault),
        PortFault::Storing(fault) => storing_octet(fault),
    }
}

// Returns the number for the fault of an exchange or a transfer.
fn transfer_octet(fault: TransferFault) -> u8
    ensures { result ≡ transfer_octet fault }
{
    match fault {
        TransferFault::Refused { .. } => 0,
        TransferFault::Unexpected => 1,
        TransferFault::Size => 2,
        TransferFault::List => 3,
        TransferFault::Busy => 4,
        TransferFault::Memory => 5,
    }
}

// Returns the number for octets that are no answer.
fn isdu_octet(fault: IsduFault) -> u8
    ensures { result ≡ isdu_octet fault }
{
    match fault {
        IsduFault::Empty => 6,
        IsduFault::Reserved => 7,
        IsduFault::WrongService => 8,
        IsduFault::Length => 9,
        IsduFault::Check => 10,
    }
}

// Returns the number for why a port gets no permit to upload.
fn permit_octet(fault: PermitFault) -> u8
    ensures { result ≡ permit_octet fault }
{
    match fault {
        PermitFault::Stopped => 11,
        PermitFault::NotAllowed => 12,
        PermitFault::WrongDevice => 13,
        PermitFault::Taken => 14,
    }
}

// Returns the number for why a port gets no permit to download.
fn download_octet(fault: DownloadFault) -> u8
    ensures { result ≡ download_octet fault }
{
    match fault {
        DownloadFault::NotAllowed => 12,
        DownloadFault::Empty => 17,
        DownloadFault::WrongDevice => 13,
        DownloadFault::Taken => 14,
        DownloadFault::Same => 15,
        DownloadFault::Memory => 5,
    }
}

// Returns the number for why the set of a finished upload is not stored.
fn storing_octet(fault: StoringFault) -> u8
    ensures { result ≡ storing_octet fault }
{
    match fault {
        StoringFault::Stopped => 11,
        StoringFault::Exhausted => 16,
    }
}

/// Returns the durable state of a port as C has it.
pub(crate) fn view_struct(view: &View) -> PortView
    ensures { result ≡ view_struct view.now }
{
    PortView {
        config: config_struct(&view.config),
        revision: view.revision,
        present: set_struct(view.present),
        previous: set_struct(view.previous),
    }
}

// Returns the size and the checksum of a set as C has them.
fn set_struct(set: Option<SetView>) -> SetSize
    ensures { result ≡ set_struct set }
{
    match set {
        Some(set) => SetSize {
            is_there: true,
            checksum: set.checksum,
            entries: set.entries as u64,
            octets: set.octets as u64,
        },
        None => SetSize {
            is_there: false,
            checksum: 0,
            entries: 0,
            octets: 0,
        },
    }
}
