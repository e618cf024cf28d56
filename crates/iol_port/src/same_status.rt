//! The equality of two statuses of a port, case by case.

ghost use Rattle.std.specs.Prelude.{◌≡◌, ◌↔◌, IsTrue};

use crate::fault::PortFault;
use crate::status::PortStatus;
use iol_transfer::TransferFault;

// Whether both statuses are equal.
pub(crate) fn is_same_status(one: PortStatus, other: PortStatus) -> bool
    ensures { IsTrue result ↔ (one ≡ other) }
{
    match one {
        PortStatus::Off => matches!(other, PortStatus::Off),
        PortStatus::Lost => matches!(other, PortStatus::Lost),
        PortStatus::Starting => matches!(other, PortStatus::Starting),
        PortStatus::Ready => matches!(other, PortStatus::Ready),
        PortStatus::ReadyLocked => matches!(other, PortStatus::ReadyLocked),
        PortStatus::ReadyEmpty => matches!(other, PortStatus::ReadyEmpty),
        PortStatus::Uploading => matches!(other, PortStatus::Uploading),
        PortStatus::Storing => matches!(other, PortStatus::Storing),
        PortStatus::Downloading => matches!(other, PortStatus::Downloading),
        PortStatus::Mismatch(fault) => match other {
            PortStatus::Mismatch(also) => fault == also,
            _ => false,
        },
        PortStatus::Failed(fault) => match other {
            PortStatus::Failed(also) => is_same_fault(fault, also),
            _ => false,
        },
    }
}

// Whether both faults are equal.
fn is_same_fault(one: PortFault, other: PortFault) -> bool
    ensures { IsTrue result ↔ (one ≡ other) }
{
    match one {
        PortFault::Isdu(fault) => match other {
            PortFault::Isdu(also) => fault == also,
            _ => false,
        },
        PortFault::Transfer(fault) => match other {
            PortFault::Transfer(also) => is_same_transfer(fault, also),
            _ => false,
        },
        PortFault::Permit(fault) => match other {
            PortFault::Permit(also) => fault == also,
            _ => false,
        },
        PortFault::Download(fault) => match other {
            PortFault::Download(also) => fault == also,
            _ => false,
        },
        PortFault::Storing(fault) => match other {
            PortFault::Storing(also) => fault == also,
            _ => false,
        },
    }
}

// Whether both faults of a transfer are equal.
fn is_same_transfer(one: TransferFault, other: TransferFault) -> bool
    ensures { IsTrue result ↔ (one ≡ other) }
{
    match one {
        TransferFault::Refused { error, additional } => is_refusal(other, error, additional),
        TransferFault::Unexpected => matches!(other, TransferFault::Unexpected),
        TransferFault::Size => matches!(other, TransferFault::Size),
        TransferFault::List => matches!(other, TransferFault::List),
        TransferFault::Busy => matches!(other, TransferFault::Busy),
        TransferFault::Memory => matches!(other, TransferFault::Memory),
    }
}

// Whether the fault is a refusal with this ErrorCode and AdditionalCode.
fn is_refusal(fault: TransferFault, code: u8, more: u8) -> bool
    ensures { IsTrue result ↔ (TransferFault.Refused code more ≡ fault) }
{
    match fault {
        TransferFault::Refused { error, additional } => error == code && additional == more,
        _ => false,
    }
}
