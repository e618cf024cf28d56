//! An upload of a port, from its permit to its last message.

ghost use Rattle.std.specs.Prelude.{◌≡◌, ◌⊎◌, Ok};
ghost use Rattle.iol_transfer.specs.Machine.{step};
ghost use Rattle.iol_transfer.specs.declared.fault.TransferFault.TheVariants as transfer;
ghost use Rattle.iol_port.specs.Answers.{uploaded, upload_answered, RunsOut};
ghost use Rattle.iol_port.specs.Calls.{HandsBack, IsUnder};
ghost use Rattle.iol_port.specs.Heard.{upload_begun, upload_finished, ticket_told};
ghost use Rattle.iol_port.specs.Stage.{IsStage, Uploading, Filing, Breaking};
ghost use Rattle.iol_port.specs.View.{stage_of};
ghost use Rattle.iol_port.specs.declared.fault.PortFault.TheVariants as fault;
ghost use Rattle.iol_port.specs.declared.stage.Held.TheVariants as held;

use crate::exchanging::{break_off, fail, send};
use crate::fault::{PortFault, StoringFault};
use crate::stage::{AwaitsAnswer, AwaitsCore, ExchangeFor, Held, SpendsPermit, Stage};
use iol_core::{FinishFault, PermitFault, Ticket, TicketState, UploadPermit};
use iol_link::{Answer, IsduFault, Page};
use iol_transfer::{MOST_REQUESTS, TransferFault, Upload, UploadStep};
use iol_types::DataSet;
use std::alloc::Global;
use std::sync::Arc;

// Begins an upload with the permit that the core gave, or fails if it refused one.
pub(crate) fn begin(alloc: Global, page: Page, begun: Result<UploadPermit, PermitFault>) -> Stage
    ensures stage { stage_of result ≡ upload_begun page begun }
    ensures holds { IsStage (stage_of result) }
{
    match begun {
        Ok(permit) => {
            let grant = permit.grant();
            let upload = Upload::begin(alloc, grant.vendor, grant.device);
            Stage::Answer(AwaitsAnswer::Uploading(permit, page, upload))
        }
        Err(fault) => fail(PortFault::Permit(fault)),
    }
}

// Takes the device's answer to a request of the upload.
pub(crate) fn answer(
    alloc: Global,
    permit: UploadPermit,
    page: Page,
    upload: Upload,
    answer: Result<Answer, IsduFault>,
) -> Stage
    requires { IsStage (Uploading permit page upload) }
    ensures stage { (stage_of result ≡ upload_answered permit page upload answer)
        ⊎ RunsOut (Uploading permit page upload) answer (stage_of result) }
    ensures holds { IsStage (stage_of result) }
{
    match answer {
        Ok(answer) => feed(alloc, permit, page, upload, answer),
        Err(fault) => break_off(Held::Upload(permit), PortFault::Isdu(fault)),
    }
}

// Feeds an answer to the upload.
fn feed(alloc: Global, permit: UploadPermit, page: Page, upload: Upload, answer: Answer) -> Stage
    requires { IsStage (Uploading permit page upload) }
    ensures stage { (stage_of result ≡ uploaded permit page (step upload answer))
        ⊎ RunsOut (Uploading permit page upload) (Ok answer) (stage_of result) }
    ensures holds { IsStage (stage_of result) }
{
    let mut upload = upload;
    match upload.feed(answer) {
        UploadStep::More => Stage::Answer(AwaitsAnswer::Uploading(permit, page, upload)),
        UploadStep::Whole(set) => file(alloc, permit, page, set),
        UploadStep::Fault(fault) => break_off(Held::Upload(permit), PortFault::Transfer(fault)),
    }
}

// Files the set of a finished upload, or breaks the upload off if out of memory.
fn file(alloc: Global, permit: UploadPermit, page: Page, set: DataSet) -> Stage
    requires { IsUnder permit set }
    ensures stage { (stage_of result ≡ Filing permit page set)
        ⊎ (stage_of result ≡ Breaking (held.Upload permit) (fault.Transfer transfer.Memory)) }
    ensures holds { IsStage (stage_of result) }
{
    match Arc::new(alloc, set) {
        Ok(set) => Stage::Permit(SpendsPermit::Filing(permit, page, set)),
        Err(_) => break_off(
            Held::Upload(permit),
            PortFault::Transfer(TransferFault::Memory),
        ),
    }
}

// Takes the core's reply to the filed set.
pub(crate) fn finish(page: Page, finished: Result<Ticket, FinishFault>) -> Stage
    requires { HandsBack finished }
    ensures stage { stage_of result ≡ upload_finished page finished }
    ensures holds { IsStage (stage_of result) }
{
    match finished {
        Ok(ticket) => Stage::Core(AwaitsCore::Storing(ticket, page)),
        Err(FinishFault::Stopped) => send(ExchangeFor::Stopping { storing: false }),
        Err(FinishFault::ConfigChanged) => send(ExchangeFor::Yielding),
        Err(FinishFault::QueueFull(permit, set)) => {
            Stage::Permit(SpendsPermit::Filing(permit, page, set))
        }
        Err(FinishFault::Exhausted(permit, _set)) => break_off(
            Held::Upload(permit),
            PortFault::Storing(StoringFault::Exhausted),
        ),
        Err(FinishFault::Memory(permit, _set)) => break_off(
            Held::Upload(permit),
            PortFault::Transfer(TransferFault::Memory),
        ),
    }
}

// Takes the core's reply whether the set is durable.
pub(crate) fn store(ticket: Ticket, page: Page, state: TicketState) -> Stage
    ensures stage { stage_of result ≡ ticket_told ticket page state }
    ensures holds { IsStage (stage_of result) }
{
    match state {
        TicketState::Waiting => Stage::Core(AwaitsCore::Storing(ticket, page)),
        TicketState::Durable => send(ExchangeFor::EndingUpload {
            page,
            left: MOST_REQUESTS,
        }),
        TicketState::Unsure => send(ExchangeFor::Stopping { storing: true }),
    }
}
