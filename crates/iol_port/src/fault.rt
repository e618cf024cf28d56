//! Why a port fails.

ghost use Rattle.std.specs.Prelude.{◌≡◌};
ghost use Rattle.iol_port.specs.Faults.{read_fault, write_fault};

use iol_core::{DownloadFault, PermitFault};
use iol_link::{Answer, IsduFault};
use iol_transfer::TransferFault;
use thiserror::Error;

/// Why the set of a finished upload is not stored.
#[derive(Clone, Copy, Debug, PartialEq, Eq, Error)]
pub enum StoringFault {
    /// Nothing more is stored: the master is shut down, or its disk has failed.
    #[error("the master has stopped")]
    Stopped,
    /// No command number is left.
    #[error("no number is left")]
    Exhausted,
}

/// Why a port fails, by what has failed.
#[derive(Clone, Copy, Debug, PartialEq, Eq, Error)]
pub enum PortFault {
    /// The octets of the device are no answer.
    #[error("{0}")]
    Isdu(IsduFault),
    /// An exchange or a transfer has ended in a fault; it is `Memory` also if the set of a finished upload cannot be kept.
    #[error("{0}")]
    Transfer(TransferFault),
    /// The core gives no permit to upload.
    #[error("{0}")]
    Permit(PermitFault),
    /// The core gives no permit to download.
    #[error("{0}")]
    Download(DownloadFault),
    /// The set of a finished upload is not stored.
    #[error("{0}")]
    Storing(StoringFault),
}

impl PortFault {
    // The fault of a read whose answer is not the expected one.
    pub(crate) fn of_read(answer: Result<Answer, IsduFault>) -> PortFault
        ensures { result ≡ read_fault answer }
    {
        match answer {
            Err(fault) => PortFault::Isdu(fault),
            Ok(Answer::Busy) => PortFault::Transfer(TransferFault::Busy),
            Ok(Answer::ReadFault { error, additional }) => {
                PortFault::Transfer(TransferFault::Refused { error, additional })
            }
            Ok(Answer::ReadOk(_)) => PortFault::Transfer(TransferFault::Unexpected),
            Ok(Answer::WriteOk) => PortFault::Transfer(TransferFault::Unexpected),
            Ok(Answer::WriteFault { .. }) => PortFault::Transfer(TransferFault::Unexpected),
        }
    }

    // The fault of a write whose answer is not the expected one.
    pub(crate) fn of_write(answer: Result<Answer, IsduFault>) -> PortFault
        ensures { result ≡ write_fault answer }
    {
        match answer {
            Err(fault) => PortFault::Isdu(fault),
            Ok(Answer::Busy) => PortFault::Transfer(TransferFault::Busy),
            Ok(Answer::WriteFault { error, additional }) => {
                PortFault::Transfer(TransferFault::Refused { error, additional })
            }
            Ok(Answer::ReadOk(_)) => PortFault::Transfer(TransferFault::Unexpected),
            Ok(Answer::WriteOk) => PortFault::Transfer(TransferFault::Unexpected),
            Ok(Answer::ReadFault { .. }) => PortFault::Transfer(TransferFault::Unexpected),
        }
    }
}
