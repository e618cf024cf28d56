//! A download of a port.

ghost use Rattle.std.specs.Prelude.{◌≡◌};
ghost use Rattle.iol_port.specs.Answers.{download_answered};
ghost use Rattle.iol_port.specs.Heard.{download_begun};
ghost use Rattle.iol_port.specs.Stage.{IsStage};
ghost use Rattle.iol_port.specs.View.{stage_of};

use crate::exchanging::{break_off, fail};
use crate::fault::PortFault;
use crate::losing::give_back;
use crate::stage::{AwaitsAnswer, Held, Rest, Stage};
use iol_core::{DownloadBegun, DownloadFault, DownloadPermit};
use iol_link::{Answer, IsduFault, Page};
use iol_transfer::{Download, DownloadStep};

// Begins a download with the permit and the set that the core returned, or fails if it refused them.
pub(crate) fn begin(page: Page, begun: Result<DownloadBegun, DownloadFault>) -> Stage
    ensures stage { stage_of result ≡ download_begun page begun }
    ensures holds { IsStage (stage_of result) }
{
    match begun {
        Ok(DownloadBegun { permit, set }) => {
            Stage::Answer(AwaitsAnswer::Downloading(permit, page, Download::begin(set)))
        }
        Err(fault) => fail(PortFault::Download(fault)),
    }
}

// Takes the device's answer to a request of the download.
pub(crate) fn answer(
    permit: DownloadPermit,
    page: Page,
    download: Download,
    answer: Result<Answer, IsduFault>,
) -> Stage
    ensures stage { stage_of result ≡ download_answered permit page download answer }
    ensures holds { IsStage (stage_of result) }
{
    let mut download = download;
    match answer {
        Ok(answer) => match download.feed(answer) {
            DownloadStep::More => Stage::Answer(AwaitsAnswer::Downloading(permit, page, download)),
            DownloadStep::Whole => give_back(Held::Download(permit), Rest::Ready(page)),
            DownloadStep::Fault(fault) => {
                break_off(Held::Download(permit), PortFault::Transfer(fault))
            }
        },
        Err(fault) => break_off(Held::Download(permit), PortFault::Isdu(fault)),
    }
}
