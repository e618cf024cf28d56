//! The words for the status of a port (docs/FORMATS.md, "Texts").

use crate::names::{
    download_name, isdu_name, mismatch_name, permit_name, storing_name, transfer_name,
};
use iol_port::{PortFault, PortStatus};
use iol_transfer::TransferFault;
use std::fmt;

/// The status of a port, in the words of a trace.
#[derive(Drop)]
pub struct StatusText(pub PortStatus);

impl fmt::Display for StatusText {
    ghost use Rattle.std.specs.Prelude.{Some};
    ghost use Rattle.iol_port.specs.Telling.{status_told};
    ghost use Rattle.iol_texts.specs.Texts.{status_text};

    ghost output = { λ status. Some (status_text (status_told status.0)) };

    fn fmt<W: fmt::Write>(&self, f: &mut fmt::Formatter<W>) -> fmt::Result {
        match self.0 {
            PortStatus::Off => f.write_str("off"),
            PortStatus::Lost => f.write_str("lost"),
            PortStatus::Starting => f.write_str("starting"),
            PortStatus::Ready => f.write_str("ready"),
            PortStatus::ReadyLocked => f.write_str("ready locked"),
            PortStatus::ReadyEmpty => f.write_str("ready empty"),
            PortStatus::Uploading => f.write_str("uploading"),
            PortStatus::Storing => f.write_str("storing"),
            PortStatus::Downloading => f.write_str("downloading"),
            PortStatus::Mismatch(fault) => write!(f, "mismatch {}", mismatch_name(fault)),
            PortStatus::Failed(fault) => write!(f, "failed {}", FailureText(fault)),
        }
    }
}

// Why a port has failed, in words.
#[derive(Drop)]
struct FailureText(PortFault);

impl fmt::Display for FailureText {
    ghost use Rattle.std.specs.Prelude.{Some};
    ghost use Rattle.iol_port.specs.Telling.{failure_told};
    ghost use Rattle.iol_texts.specs.Texts.{failure_text};

    ghost output = { λ failure. Some (failure_text (failure_told failure.0)) };

    fn fmt<W: fmt::Write>(&self, f: &mut fmt::Formatter<W>) -> fmt::Result {
        match self.0 {
            PortFault::Isdu(fault) => f.write_str(isdu_name(fault)),
            PortFault::Transfer(fault) => write!(f, "{}", TransferText(fault)),
            PortFault::Permit(fault) => f.write_str(permit_name(fault)),
            PortFault::Download(fault) => f.write_str(download_name(fault)),
            PortFault::Storing(fault) => f.write_str(storing_name(fault)),
        }
    }
}

// Why an exchange or a transfer of a port has failed, in words.
#[derive(Drop)]
struct TransferText(TransferFault);

impl fmt::Display for TransferText {
    ghost use Rattle.std.specs.Prelude.{Some};
    ghost use Rattle.iol_port.specs.Telling.{transfer_told};
    ghost use Rattle.iol_texts.specs.Texts.{failure_text};

    ghost output = { λ failure. Some (failure_text (transfer_told failure.0)) };

    #[tactic(auto, using(std::proofs::lemmas::Fmt::hex_byte))]
    fn fmt<W: fmt::Write>(&self, f: &mut fmt::Formatter<W>) -> fmt::Result {
        match self.0 {
            TransferFault::Refused { error, additional } => {
                write!(f, "Refused {error:02X} {additional:02X}")
            }
            fault => f.write_str(transfer_name(fault)),
        }
    }
}
