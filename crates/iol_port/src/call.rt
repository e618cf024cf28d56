//! The calls that a port makes of the core, and their replies.

ghost use Rattle.std.specs.Prelude.{◌≡◌, IfOk};
ghost use Rattle.iol_types.specs.DataSet.{IsSet};
ghost use Rattle.iol_port.specs.Calls.{Replies, IsReplyTo, MayBeMade, Passes, call_of};

use iol_core::{
    Core, DownloadBegun, DownloadFault, DownloadPermit, FinishFault, PermitFault, Ticket,
    TicketState, UploadPermit, Work,
};
use iol_front::Name;
use iol_types::{DataSet, DeviceId, PortId};
use std::sync::Arc;

/// A call of the core that a port asks for. The caller must make it, since it may hold a permit.
pub enum CoreCall {
    /// Asks what the port is to work with.
    Attend(PortId),
    /// Asks for a permit to upload from a device on a connection.
    BeginUpload {
        port: PortId,
        vendor: u16,
        device: DeviceId,
        connection: u64,
    },
    /// Files the set that was uploaded under this permit.
    FinishUpload(UploadPermit, Arc<DataSet>),
    /// Returns a permit to upload.
    AbandonUpload(UploadPermit),
    /// Asks whether a command is durable.
    AskTicket(Ticket),
    /// Asks for a permit to download to a device that has this checksum.
    BeginDownload {
        port: PortId,
        vendor: u16,
        device: DeviceId,
        checksum: u32,
    },
    /// Returns a permit to download.
    EndDownload(DownloadPermit),
}

/// The core's reply to a call. It must be fed to the machine that asked for the call, since it may hold a permit.
pub enum Reply {
    Attended(Option<Work>),
    BegunUpload(Result<UploadPermit, PermitFault>),
    FinishedUpload(Result<Ticket, FinishFault>),
    AbandonedUpload,
    Ticket(TicketState),
    BegunDownload(Result<DownloadBegun, DownloadFault>),
    EndedDownload,
}

impl CoreCall {
    /// Makes the call, and returns the core's reply.
    pub fn make<F: Name>(self, core: &mut Core<F>) -> Reply
        requires { MayBeMade (call_of self) }
        ensures replies { Replies (call_of self) core.old core.new result }
        ensures of_the_call { IsReplyTo (call_of self) result }
        // A Store that the core accepts is legal in its live state.
        ensures passes { Passes (call_of self) core.old result }
    {
        match self {
            CoreCall::Attend(port) => Reply::Attended(core.attend(port)),
            CoreCall::BeginUpload {
                port,
                vendor,
                device,
                connection,
            } => Reply::BegunUpload(core.begin_upload(port, vendor, device, connection)),
            CoreCall::FinishUpload(permit, set) => {
                Reply::FinishedUpload(core.finish_upload(permit, set))
            }
            CoreCall::AbandonUpload(permit) => {
                core.abandon_upload(permit);
                Reply::AbandonedUpload
            }
            CoreCall::AskTicket(ticket) => Reply::Ticket(core.ticket(ticket)),
            CoreCall::BeginDownload {
                port,
                vendor,
                device,
                checksum,
            } => {
                let begun = core.begin_download(port, vendor, device, checksum);
                look_at_set(&begun);
                Reply::BegunDownload(begun)
            }
            CoreCall::EndDownload(permit) => {
                core.end_download(permit);
                Reply::EndedDownload
            }
        }
    }
}

// Does nothing. Its contract says what the type's invariant says: a download begins with a parameter set.
fn look_at_set(begun: &Result<DownloadBegun, DownloadFault>)
    ensures { IfOk begun.now (λ begun. IsSet begun.set.value) }
{
    if let Ok(begun) = begun {
        let _ = begun.set.octets();
    }
}
