//! What a port does next, and its status meanwhile.

ghost use Rattle.std.specs.Prelude.{◌≡◌, ℕ};
ghost use Rattle.iol_port.specs.Calls.{BeginUpload, BeginDownload, MayBeMade, call_of};
ghost use Rattle.iol_port.specs.Stage.{IsStage};
ghost use Rattle.iol_port.specs.Status.{status_of, status_at_rest, status_exchanging, status_returning, status_during, transfer_of};
ghost use Rattle.iol_port.specs.LinkWants.{link_wanted};
ghost use Rattle.iol_port.specs.View.{awaiting_answer, awaiting_core, spending, stage_of};
ghost use Rattle.iol_port.specs.Wanted.{AnswerTo, ReplyTo, wanted, wanted_of, after_action, request_for, return_of, IfAsks};

use crate::action::{Action, Want};
use crate::call::CoreCall;
use crate::stage::{
    AttendFor, AwaitsAnswer, AwaitsCore, ExchangeFor, FoundDevice, Held, PageFor, Rest,
    SpendsPermit, Stage, Transfer,
};
use crate::status::PortStatus;
use iol_link::Request;
use iol_transfer::{DATA_STORAGE, DsCommand, PARAMETER_CHECKSUM, STATE_PROPERTY};
use iol_types::PortId;

// Returns the next action, and the stage after it.
pub(crate) fn act(port: PortId, stage: Stage) -> (Action, Stage)
    requires { IsStage (stage_of stage) }
    ensures wanted { wanted_of result.0 ≡ wanted port (stage_of stage) }
    ensures may_be_made { IfAsks result.0 MayBeMade }
    ensures after { stage_of result.1 ≡ after_action (stage_of stage) }
    ensures holds { IsStage (stage_of result.1) }
{
    match { stage } {
        Stage::Settled(rest) => (Action::Idle, Stage::Settled(rest)),
        Stage::Page(what) => (Action::ReadPage, Stage::Page(what)),
        Stage::Answer(awaits) => (Action::Exchange(request_of(&awaits)), Stage::Answer(awaits)),
        Stage::Core(awaits) => (ask(port, &awaits), Stage::Core(awaits)),
        Stage::Permit(spends) => {
            let (call, awaits) = spend(spends);
            (Action::Ask(call), Stage::Core(awaits))
        }
    }
}

// Returns what the port needs from its link.
pub(crate) fn want(stage: &Stage) -> Want
    ensures { result ≡ link_wanted (stage_of stage.now) }
{
    match stage {
        Stage::Page(_) => Want::Page,
        Stage::Answer(awaits) => Want::Answer(request_of(awaits)),
        Stage::Settled(_) | Stage::Core(_) | Stage::Permit(_) => Want::Nothing,
    }
}

// Returns the call whose reply the stage awaits. A call that took a permit was made already, so the port is idle.
fn ask(port: PortId, awaits: &AwaitsCore) -> Action
    ensures wanted { wanted_of result ≡ wanted port (awaiting_core awaits.now) }
    ensures may_be_made { IfAsks result MayBeMade }
    ensures after { after_action (awaiting_core awaits.now) ≡ awaiting_core awaits.now }
{
    match awaits {
        AwaitsCore::Attending(_) => Action::Ask(CoreCall::Attend(port)),
        AwaitsCore::BeginningUpload(found) => Action::Ask(begin_upload(port, found)),
        AwaitsCore::BeginningDownload(found, checksum) => {
            Action::Ask(begin_download(port, found, *checksum))
        }
        AwaitsCore::Storing(ticket, _) => Action::Ask(CoreCall::AskTicket(*ticket)),
        AwaitsCore::Filed(_) => Action::Idle,
        AwaitsCore::Returned(_, _) => Action::Idle,
    }
}

// Returns the call that takes the permit, and the reply to await after it.
fn spend(spends: SpendsPermit) -> (CoreCall, AwaitsCore)
    requires { IsStage (spending spends) }
    ensures wanted { (port : ℕ) → wanted port (spending spends) ≡ ReplyTo (call_of result.0) }
    ensures may_be_made { MayBeMade (call_of result.0) }
    ensures after { awaiting_core result.1 ≡ after_action (spending spends) }
    ensures holds { IsStage (awaiting_core result.1) }
{
    match spends {
        SpendsPermit::Filing(permit, page, set) => {
            (CoreCall::FinishUpload(permit, set), AwaitsCore::Filed(page))
        }
        SpendsPermit::Returning(held, rest) => {
            let transfer = transfer_of(&held);
            (return_of(held), AwaitsCore::Returned(transfer, rest))
        }
    }
}

// Returns the call for a permit to upload from this device.
fn begin_upload(port: PortId, found: &FoundDevice) -> CoreCall
    ensures { call_of result ≡ BeginUpload port found.now.page.vendor found.now.page.device found.now.connection }
{
    CoreCall::BeginUpload {
        port,
        vendor: found.page.vendor(),
        device: found.page.device(),
        connection: found.connection,
    }
}

// Returns the call for a permit to download to this device, which has this checksum.
fn begin_download(port: PortId, found: &FoundDevice, checksum: u32) -> CoreCall
    ensures { call_of result ≡ BeginDownload port found.now.page.vendor found.now.page.device checksum }
{
    CoreCall::BeginDownload {
        port,
        vendor: found.page.vendor(),
        device: found.page.device(),
        checksum,
    }
}

// Returns the request whose answer the stage awaits.
fn request_of(awaits: &AwaitsAnswer) -> Request
    ensures wanted { (port : ℕ) → wanted port (awaiting_answer awaits.now) ≡ AnswerTo result }
    ensures link { link_wanted (awaiting_answer awaits.now) ≡ Want.Answer result }
{
    match awaits {
        AwaitsAnswer::Exchanging(what) => request_for(what),
        AwaitsAnswer::Uploading(_, _, upload) => upload.next(),
        AwaitsAnswer::Downloading(_, _, download) => download.next(),
        AwaitsAnswer::Breaking(_, _) => DsCommand::Break.request(),
    }
}

// Returns the request of an exchange outside a transfer.
fn request_for(what: &ExchangeFor) -> Request
    ensures { result ≡ request_for what.now }
{
    match what {
        ExchangeFor::ReadingState { .. } => Request::Read {
            index: DATA_STORAGE,
            subindex: STATE_PROPERTY,
        },
        ExchangeFor::ReadingChecksum { .. } => Request::Read {
            index: DATA_STORAGE,
            subindex: PARAMETER_CHECKSUM,
        },
        ExchangeFor::EndingUpload { .. } => DsCommand::UploadEnd.request(),
        ExchangeFor::Stopping { .. } => DsCommand::Break.request(),
        ExchangeFor::Yielding => DsCommand::Break.request(),
    }
}

// Returns the transfer that a permit is for.
fn transfer_of(held: &Held) -> Transfer
    ensures { result ≡ transfer_of held.now }
{
    match held {
        Held::Upload(_) => Transfer::Upload,
        Held::Download(_) => Transfer::Download,
    }
}

// Makes the call that returns a permit to the core.
fn return_of(held: Held) -> CoreCall
    ensures { call_of result ≡ return_of held }
{
    match held {
        Held::Upload(permit) => CoreCall::AbandonUpload(permit),
        Held::Download(permit) => CoreCall::EndDownload(permit),
    }
}

// Returns the status at a stage.
pub(crate) fn status(stage: &Stage) -> PortStatus
    ensures { result ≡ status_of (stage_of stage.now) }
{
    match stage {
        Stage::Settled(rest) => status_at_rest(rest),
        Stage::Page(PageFor::Comparing { work: _, rest }) => status_at_rest(rest),
        Stage::Page(PageFor::Identifying { .. }) => PortStatus::Starting,
        Stage::Answer(AwaitsAnswer::Exchanging(what)) => status_exchanging(what),
        Stage::Answer(AwaitsAnswer::Uploading(_, _, _)) => PortStatus::Uploading,
        Stage::Answer(AwaitsAnswer::Downloading(_, _, _)) => PortStatus::Downloading,
        Stage::Answer(AwaitsAnswer::Breaking(held, _)) => status_during(transfer_of(held)),
        Stage::Core(awaits) => status_asking(awaits),
        Stage::Permit(SpendsPermit::Filing(_, _, _)) => PortStatus::Uploading,
        Stage::Permit(SpendsPermit::Returning(held, rest)) => {
            status_returning(transfer_of(held), rest)
        }
    }
}

// Returns the status while a reply of the core is awaited.
fn status_asking(awaits: &AwaitsCore) -> PortStatus
    ensures { result ≡ status_of (awaiting_core awaits.now) }
{
    match awaits {
        AwaitsCore::Attending(AttendFor::Waking { rest }) => status_at_rest(rest),
        AwaitsCore::Attending(AttendFor::Confirming { .. }) => PortStatus::Starting,
        AwaitsCore::Attending(AttendFor::Restarting) => PortStatus::Uploading,
        AwaitsCore::BeginningUpload(_) => PortStatus::Starting,
        AwaitsCore::BeginningDownload(_, _) => PortStatus::Starting,
        AwaitsCore::Filed(_) => PortStatus::Uploading,
        AwaitsCore::Storing(_, _) => PortStatus::Storing,
        AwaitsCore::Returned(transfer, rest) => status_returning(*transfer, rest),
    }
}

// Returns the status of a settled port.
fn status_at_rest(rest: &Rest) -> PortStatus
    ensures { result ≡ status_at_rest rest.now }
{
    match rest {
        Rest::Off => PortStatus::Off,
        Rest::Lost => PortStatus::Lost,
        Rest::Failed(fault) => PortStatus::Failed(*fault),
        Rest::Ready(_) => PortStatus::Ready,
        Rest::ReadyLocked(_) => PortStatus::ReadyLocked,
        Rest::ReadyEmpty(_) => PortStatus::ReadyEmpty,
        Rest::Mismatch(fault, _) => PortStatus::Mismatch(*fault),
    }
}

// Returns the status during an exchange outside a transfer.
fn status_exchanging(what: &ExchangeFor) -> PortStatus
    ensures { result ≡ status_exchanging what.now }
{
    match what {
        ExchangeFor::ReadingState { .. } => PortStatus::Starting,
        ExchangeFor::ReadingChecksum { .. } => PortStatus::Starting,
        ExchangeFor::EndingUpload { .. } => PortStatus::Storing,
        ExchangeFor::Stopping { storing: true } => PortStatus::Storing,
        ExchangeFor::Stopping { storing: false } => PortStatus::Uploading,
        ExchangeFor::Yielding => PortStatus::Uploading,
    }
}

// Returns the status until a permit is returned.
fn status_returning(transfer: Transfer, rest: &Rest) -> PortStatus
    ensures { result ≡ status_returning transfer rest.now }
{
    if matches!(rest, Rest::Lost) {
        return PortStatus::Lost;
    }
    status_during(transfer)
}

// Returns the status during a transfer.
fn status_during(transfer: Transfer) -> PortStatus
    ensures { result ≡ status_during transfer }
{
    match transfer {
        Transfer::Upload => PortStatus::Uploading,
        Transfer::Download => PortStatus::Downloading,
    }
}
