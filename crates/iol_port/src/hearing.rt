//! How a port continues after an answer of its device or a reply of the core.

ghost use Rattle.std.specs.Prelude.{◌≡◌, ◌⊎◌};
ghost use Rattle.iol_link.specs.Reading.{answer_of};
ghost use Rattle.iol_port.specs.Answers.{answered, RunsOut};
ghost use Rattle.iol_port.specs.Heard.{replied, FitsReply};
ghost use Rattle.iol_port.specs.Stage.{IsStage, IsNext};
ghost use Rattle.iol_port.specs.View.{awaiting_answer, awaiting_core, stage_of, next_of};

use crate::call::Reply;
use crate::exchanging::{answer_in, exchange};
use crate::losing::give_back;
use crate::stage::{AwaitsAnswer, AwaitsCore, Next, Rest, Stage};
use crate::{attending, downloading, uploading};
use std::alloc::Global;

// Takes an answer of the device.
pub(crate) fn answer(alloc: Global, awaits: AwaitsAnswer, octets: &[u8]) -> Stage
    requires { IsStage (awaiting_answer awaits) }
    ensures stage { (stage_of result ≡ answered (awaiting_answer awaits) (answer_of octets.now))
        ⊎ RunsOut (awaiting_answer awaits) (answer_of octets.now) (stage_of result) }
    ensures holds { IsStage (stage_of result) }
{
    let answer = answer_in(octets);
    match { awaits } {
        AwaitsAnswer::Exchanging(what) => exchange(what, answer),
        AwaitsAnswer::Uploading(permit, page, upload) => {
            uploading::answer(alloc, permit, page, upload, answer)
        }
        AwaitsAnswer::Downloading(permit, page, download) => {
            downloading::answer(permit, page, download, answer)
        }
        AwaitsAnswer::Breaking(held, fault) => give_back(held, Rest::Failed(fault)),
    }
}

// Takes a reply of the core.
pub(crate) fn reply(
    alloc: Global,
    started_revision: Option<u64>,
    upload_requested: bool,
    awaits: &AwaitsCore,
    reply: Reply,
) -> Next
    requires { FitsReply (awaiting_core awaits.now) reply }
    ensures next { next_of result ≡ replied started_revision upload_requested (awaiting_core awaits.now) reply }
    ensures holds { IsNext (next_of result) }
{
    match (awaits, reply) {
        (AwaitsCore::Attending(what), Reply::Attended(work)) => {
            attending::attended(started_revision, upload_requested, *what, work)
        }
        (AwaitsCore::BeginningUpload(found), Reply::BegunUpload(begun)) => {
            Next::To(uploading::begin(alloc, found.page, begun))
        }
        (AwaitsCore::BeginningDownload(found, _checksum), Reply::BegunDownload(begun)) => {
            Next::To(downloading::begin(found.page, begun))
        }
        (AwaitsCore::Filed(page), Reply::FinishedUpload(finished)) => {
            Next::To(uploading::finish(*page, finished))
        }
        (AwaitsCore::Storing(ticket, page), Reply::Ticket(state)) => {
            Next::To(uploading::store(*ticket, *page, state))
        }
        (AwaitsCore::Returned(_transfer, rest), Reply::AbandonedUpload | Reply::EndedDownload) => {
            Next::To(Stage::Settled(*rest))
        }
        _ => unreachable!(),
    }
}
