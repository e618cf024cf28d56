//! The return of a held permit, after the device was lost or when the machine ends.

ghost use Rattle.std.specs.Prelude.{◌≡◌};
ghost use Rattle.iol_port.specs.Ending.{released, ended};
ghost use Rattle.iol_port.specs.Heard.{lost};
ghost use Rattle.iol_port.specs.Stage.{IsStage, Returning};
ghost use Rattle.iol_port.specs.View.{awaiting_answer, stage_of};

use crate::stage::{AwaitsAnswer, Held, Rest, SpendsPermit, Stage};
use iol_core::Core;
use iol_front::Name;

// The device was lost while the port awaited its answer.
pub(crate) fn lose(awaits: AwaitsAnswer) -> Stage
    ensures stage { stage_of result ≡ lost (awaiting_answer awaits) }
    ensures holds { IsStage (stage_of result) }
{
    match awaits {
        AwaitsAnswer::Exchanging(_what) => Stage::Settled(Rest::Lost),
        AwaitsAnswer::Uploading(permit, _page, _upload) => {
            give_back(Held::Upload(permit), Rest::Lost)
        }
        AwaitsAnswer::Downloading(permit, _page, _download) => {
            give_back(Held::Download(permit), Rest::Lost)
        }
        AwaitsAnswer::Breaking(held, _fault) => give_back(held, Rest::Lost),
    }
}

// Returns a permit with the next call of the core. The port then settles as `rest`.
pub(crate) fn give_back(held: Held, rest: Rest) -> Stage
    ensures stage { stage_of result ≡ Returning held rest }
    ensures holds { IsStage (stage_of result) }
{
    Stage::Permit(SpendsPermit::Returning(held, rest))
}

// Returns the permit that a stage holds, if it holds one, and drops the rest of the stage.
pub(crate) fn release<F: Name>(stage: Stage, core: &mut Core<F>)
    ensures { core.new ≡ ended core.old (stage_of stage) }
{
    match { stage } {
        Stage::Answer(awaits) => release_transfer(awaits, core),
        Stage::Permit(SpendsPermit::Filing(permit, _page, _set)) => core.abandon_upload(permit),
        Stage::Permit(SpendsPermit::Returning(held, _rest)) => release_held(held, core),
        Stage::Settled(_) | Stage::Page(_) | Stage::Core(_) => {}
    }
}

// Returns the permit of the transfer whose answer is awaited, if there is one.
fn release_transfer<F: Name>(awaits: AwaitsAnswer, core: &mut Core<F>)
    ensures { core.new ≡ ended core.old (awaiting_answer awaits) }
{
    match awaits {
        AwaitsAnswer::Exchanging(_what) => {}
        AwaitsAnswer::Uploading(permit, _page, _upload) => core.abandon_upload(permit),
        AwaitsAnswer::Downloading(permit, _page, _download) => core.end_download(permit),
        AwaitsAnswer::Breaking(held, _fault) => release_held(held, core),
    }
}

// Returns a permit to the core.
fn release_held<F: Name>(held: Held, core: &mut Core<F>)
    ensures { core.new ≡ released core.old held }
{
    match held {
        Held::Upload(permit) => core.abandon_upload(permit),
        Held::Download(permit) => core.end_download(permit),
    }
}
