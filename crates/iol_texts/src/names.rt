//! The names in a trace: why a command is refused, why a device does not fit its port, and why a port has failed
//! (docs/FORMATS.md, "Texts").
ghost use Rattle.std.specs.Prelude.{◌≡◌};
ghost use Rattle.iol_core.specs.Telling.{refusal_of};
ghost use Rattle.iol_port.specs.Telling.{isdu_told, transfer_told, permit_told, download_told, storing_told};
ghost use Rattle.iol_texts.specs.Texts.{command_name, refusal_name, mismatch_name, failure_name, failure_text};

use iol_core::{DownloadFault, PermitFault, SubmitFault};
use iol_link::{IdentFault, IsduFault};
use iol_port::StoringFault;
use iol_transfer::TransferFault;
use iol_types::CommandFault;

/// The name of a refusal in the trace.
pub fn refusal_name(fault: SubmitFault) -> &'static str
    ensures { result.now ≡ refusal_name (refusal_of fault) }
{
    match fault {
        SubmitFault::Stopped => "Stopped",
        SubmitFault::Command(cause) => command_name(cause),
        SubmitFault::QueueFull => "QueueFull",
        SubmitFault::Exhausted => "Exhausted",
    }
}

// The name in the trace of the fault of a command that does not pass.
fn command_name(cause: CommandFault) -> &'static str
    ensures { result.now ≡ command_name cause }
{
    match cause {
        CommandFault::UnknownPort => "UnknownPort",
        CommandFault::RevisionSpent => "RevisionSpent",
        CommandFault::NotAllowed => "NotAllowed",
        CommandFault::StaleRevision => "StaleRevision",
        CommandFault::WrongDevice => "WrongDevice",
        CommandFault::NoPrevious => "NoPrevious",
    }
}

// The name of what does not fit the port.
pub(crate) fn mismatch_name(fault: IdentFault) -> &'static str
    ensures { result.now ≡ mismatch_name fault }
{
    match fault {
        IdentFault::Vendor => "vendor",
        IdentFault::Device => "device",
        IdentFault::Revision => "revision",
        IdentFault::NoIsdu => "isdu",
    }
}

// The name in the trace of octets that are no answer. Nothing else is told of them, so the name is the whole text.
pub(crate) fn isdu_name(fault: IsduFault) -> &'static str
    ensures { result.now ≡ failure_text (isdu_told fault) }
{
    match fault {
        IsduFault::Empty => "Empty",
        IsduFault::Reserved => "Reserved",
        IsduFault::WrongService => "WrongService",
        IsduFault::Length => "Length",
        IsduFault::Check => "Check",
    }
}

// The name in the trace of the fault of an exchange or a transfer. The two octets of a refusal come after it.
pub(crate) fn transfer_name(fault: TransferFault) -> &'static str
    ensures { result.now ≡ failure_name (transfer_told fault) }
{
    match fault {
        TransferFault::Refused { .. } => "Refused",
        TransferFault::Unexpected => "Unexpected",
        TransferFault::Size => "Size",
        TransferFault::List => "List",
        TransferFault::Busy => "Busy",
        TransferFault::Memory => "Memory",
    }
}

// The name in the trace of the reason why a port gets no permit to upload.
pub(crate) fn permit_name(fault: PermitFault) -> &'static str
    ensures { result.now ≡ failure_text (permit_told fault) }
{
    match fault {
        PermitFault::Stopped => "Stopped",
        PermitFault::NotAllowed => "NotAllowed",
        PermitFault::WrongDevice => "WrongDevice",
        PermitFault::Taken => "Taken",
    }
}

// The name in the trace of the reason why a port gets no permit to download.
pub(crate) fn download_name(fault: DownloadFault) -> &'static str
    ensures { result.now ≡ failure_text (download_told fault) }
{
    match fault {
        DownloadFault::NotAllowed => "NotAllowed",
        // An answer of no octet has the same name.
        DownloadFault::Empty => "Empty",
        DownloadFault::WrongDevice => "WrongDevice",
        DownloadFault::Taken => "Taken",
        DownloadFault::Same => "Same",
        DownloadFault::Memory => "Memory",
    }
}

// The name in the trace of the reason why the set of a finished upload is not stored.
pub(crate) fn storing_name(fault: StoringFault) -> &'static str
    ensures { result.now ≡ failure_text (storing_told fault) }
{
    match fault {
        StoringFault::Stopped => "Stopped",
        StoringFault::Exhausted => "Exhausted",
    }
}
