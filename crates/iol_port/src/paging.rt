//! How a port continues after it has read the page of its device.

ghost use Rattle.std.specs.Prelude.{◌≡◌};
ghost use Rattle.iol_link.specs.Page.{page_of};
ghost use Rattle.iol_port.specs.Heard.{page_heard, found_by, settled_with, first_stage};
ghost use Rattle.iol_port.specs.Stage.{IsStage, IsNext};
ghost use Rattle.iol_port.specs.View.{stage_of, next_of};

use crate::exchanging::send;
use crate::stage::{ExchangeFor, FoundDevice, Next, PageFor, Rest, Stage};
use iol_core::Work;
use iol_link::{PAGE_OCTETS, Page, validate};
use iol_transfer::MOST_REQUESTS;
use iol_types::{PortMode, Validation};

// Takes the page that was read on a connection.
pub(crate) fn page(what: PageFor, connection: u64, octets: &[u8; PAGE_OCTETS]) -> Next
    ensures next { next_of result ≡ page_heard what connection (page_of octets.now) }
    ensures holds { IsNext (next_of result) }
{
    let page = Page::read(octets);
    match what {
        PageFor::Comparing { work, rest } => {
            if is_settled_with(&rest, &page) {
                Next::To(Stage::Settled(rest))
            } else {
                Next::Start(work)
            }
        }
        PageFor::Identifying { work } => match validate(&work.config, &page) {
            Ok(()) => Next::To(find(work, connection, page)),
            Err(fault) => Next::To(Stage::Settled(Rest::Mismatch(fault, page))),
        },
    }
}

// Whether a settled port keeps this page.
fn is_settled_with(rest: &Rest, page: &Page) -> bool
    ensures { result ≡ settled_with rest.now page.now }
{
    match rest {
        Rest::Ready(own) => own == page,
        Rest::ReadyLocked(own) => own == page,
        Rest::ReadyEmpty(own) => own == page,
        Rest::Mismatch(_, own) => own == page,
        Rest::Off | Rest::Lost | Rest::Failed(_) => false,
    }
}

// Examines the Data Storage of a device that fits, or settles as ready if the validation does not restore.
fn find(work: Work, connection: u64, page: Page) -> Stage
    ensures stage { stage_of result ≡ found_by work connection page }
    ensures holds { IsStage (stage_of result) }
{
    if matches!(
        work.config.validation,
        Validation::BackupAndRestore | Validation::Restore
    ) {
        let found = FoundDevice {
            work,
            page,
            connection,
        };
        send(ExchangeFor::ReadingState {
            found,
            left: MOST_REQUESTS,
        })
    } else {
        Stage::Settled(Rest::Ready(page))
    }
}

// Starts the port with this work: it reads the page, or is off if it is not IOL_MANUAL.
pub(crate) fn start(work: Work) -> Stage
    ensures stage { stage_of result ≡ first_stage work }
    ensures holds { IsStage (stage_of result) }
{
    if matches!(work.config.mode, PortMode::IolManual) {
        Stage::Page(PageFor::Identifying { work })
    } else {
        Stage::Settled(Rest::Off)
    }
}
