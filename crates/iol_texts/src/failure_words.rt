//! The words for a mismatch and for a failure of a port: its cause, and what to do.
ghost use Rattle.std.specs.Prelude.{◌≡◌};
ghost use Rattle.iol_port.specs.Telling.{isdu_told, transfer_told, permit_told, download_told, storing_told};
ghost use Rattle.iol_texts.specs.Failures.{failure_cause, failure_words, mismatch_words};

use crate::error_types::ErrorType;
use iol_core::{DownloadFault, PermitFault};
use iol_link::{IdentFault, IsduFault};
use iol_port::{PortFault, StoringFault};
use iol_transfer::TransferFault;
use std::fmt;

// Why a port has failed, and what to do.
#[derive(Clone, Copy)]
pub(crate) struct FailureWords(pub(crate) PortFault);

impl fmt::Display for FailureWords {
    ghost use Rattle.std.specs.Prelude.{Some};
    ghost use Rattle.iol_port.specs.Telling.{failure_told};
    ghost use Rattle.iol_texts.specs.Failures.{failure_words};

    ghost output = { λ words. Some (failure_words (failure_told words.0)) };

    fn fmt<W: fmt::Write>(&self, f: &mut fmt::Formatter<W>) -> fmt::Result {
        match self.0 {
            PortFault::Isdu(fault) => f.write_str(isdu_cause(fault)),
            PortFault::Transfer(fault) => write!(f, "{}", TransferWords(fault)),
            PortFault::Permit(fault) => f.write_str(permit_cause(fault)),
            PortFault::Download(fault) => f.write_str(download_cause(fault)),
            PortFault::Storing(fault) => f.write_str(storing_cause(fault)),
        }
    }
}

// Why an exchange or a transfer of a port has failed, and what to do.
#[derive(Clone, Copy)]
struct TransferWords(TransferFault);

impl fmt::Display for TransferWords {
    ghost use Rattle.std.specs.Prelude.{Some};
    ghost use Rattle.iol_port.specs.Telling.{transfer_told};
    ghost use Rattle.iol_texts.specs.Failures.{failure_words};

    ghost output = { λ words. Some (failure_words (transfer_told words.0)) };

    fn fmt<W: fmt::Write>(&self, f: &mut fmt::Formatter<W>) -> fmt::Result {
        match self.0 {
            TransferFault::Refused { error, additional } => {
                let refusal = ErrorType { error, additional };
                write!(
                    f,
                    "the device refused a request, {refusal}: see its manual, and connect it again"
                )
            }
            fault => f.write_str(transfer_cause(fault)),
        }
    }
}

// Why octets are no answer, and what to do.
fn isdu_cause(fault: IsduFault) -> &'static str
    ensures { result.now ≡ failure_words (isdu_told fault) }
{
    match fault {
        IsduFault::Empty =>
            "the answer has no octet: check the cable, and connect the device again",
        IsduFault::Reserved =>
            "the answer has a reserved I-Service or length: check the cable, and connect the device again",
        IsduFault::WrongService =>
            "the answer is of another service: check the cable, and connect the device again",
        IsduFault::Length =>
            "the answer has a wrong count of octets: check the cable, and connect the device again",
        IsduFault::Check =>
            "the answer has a wrong CHKPDU: check the cable, and connect the device again",
    }
}

// Why an exchange or a transfer has failed, and what to do, without the octets of a refusal.
fn transfer_cause(fault: TransferFault) -> &'static str
    ensures { result.now ≡ failure_cause (transfer_told fault) }
{
    match fault {
        TransferFault::Refused { .. } => "the device refused a request",
        TransferFault::Unexpected =>
            "the device answered something else than was asked: check the device, and connect it again",
        TransferFault::Size =>
            "the device's set counts over 4,096 octets: configure the port with validation 00 to 02",
        TransferFault::List =>
            "the device's Index_List cannot be followed: check the device's Data Storage, and connect it again",
        TransferFault::Busy =>
            "the device was busy sixteen times in a row: wait until it is idle, and connect it again",
        TransferFault::Memory =>
            "out of memory: give the master more, and connect the device again",
    }
}

// Why a port gets no permit to upload, and what to do.
fn permit_cause(fault: PermitFault) -> &'static str
    ensures { result.now ≡ failure_words (permit_told fault) }
{
    match fault {
        PermitFault::Stopped =>
            "a disk call has failed, and nothing more is stored: replace the disk, and start the master anew",
        PermitFault::NotAllowed =>
            "the port keeps no set, or was configured meanwhile: configure IOL_MANUAL with validation 03 or 04",
        PermitFault::WrongDevice =>
            "the port or its set is for another device: configure the port for this one",
        PermitFault::Taken =>
            "a transfer of the port is not yet done: connect the device again later",
    }
}

// Why a port gets no permit to download, and what to do.
fn download_cause(fault: DownloadFault) -> &'static str
    ensures { result.now ≡ failure_words (download_told fault) }
{
    match fault {
        DownloadFault::NotAllowed =>
            "the port keeps no set, or was configured meanwhile: configure IOL_MANUAL with validation 03 or 04",
        DownloadFault::Empty => "no set is stored for the port any more: connect the device again",
        DownloadFault::WrongDevice =>
            "the port or its set is for another device: configure the port for this one",
        DownloadFault::Taken =>
            "a transfer of the port is not yet done: connect the device again later",
        DownloadFault::Same => "the device has the stored set already: connect it again",
        DownloadFault::Memory =>
            "out of memory: give the master more, and connect the device again",
    }
}

// Why the set of a finished upload is not stored, and what to do.
fn storing_cause(fault: StoringFault) -> &'static str
    ensures { result.now ≡ failure_words (storing_told fault) }
{
    match fault {
        StoringFault::Stopped =>
            "a disk call has failed, and nothing more is stored: replace the disk, and start the master anew",
        StoringFault::Exhausted => "no command number is left: format a new disk",
    }
}

// Why a device is not the one that its port requires, and what to do.
pub(crate) fn mismatch_words(fault: IdentFault) -> &'static str
    ensures { result.now ≡ mismatch_words fault }
{
    match fault {
        IdentFault::Vendor =>
            "another VendorID than is configured: connect the configured device, or configure this one",
        IdentFault::Device =>
            "another DeviceID than is configured: connect the configured device, or configure this one",
        IdentFault::Revision =>
            "a RevisionID below 11, V1.1: connect a device of V1.1, or configure validation 00 or 01",
        IdentFault::NoIsdu =>
            "the device supports no ISDUs: connect one that does, or configure validation 00 to 02",
    }
}
