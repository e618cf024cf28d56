//! How a port continues once the core has returned its work.

ghost use Rattle.std.specs.Prelude.{◌≡◌};
ghost use Rattle.iol_port.specs.Stage.{IsStage, IsNext, Attending};
ghost use Rattle.iol_port.specs.Heard.{attended, resumed, is_under, decided, confirmed};
ghost use Rattle.iol_port.specs.View.{stage_of, next_of};

use crate::decision::{Decision, decide};
use crate::stage::{AttendFor, AwaitsCore, FoundDevice, Next, PageFor, Rest, Stage};
use iol_core::Work;
use iol_transfer::StateProperty;

// Returns the stage in which the port asks the core for its work.
pub(crate) fn attend(what: AttendFor) -> Stage
    ensures stage { stage_of result ≡ Attending what }
    ensures holds { IsStage (stage_of result) }
{
    Stage::Core(AwaitsCore::Attending(what))
}

// Continues with the work that the core returned, or settles as off without any.
pub(crate) fn attended(
    started_revision: Option<u64>,
    upload_requested: bool,
    what: AttendFor,
    work: Option<Work>,
) -> Next
    ensures next { next_of result ≡ attended started_revision upload_requested what work }
    ensures holds { IsNext (next_of result) }
{
    let Some(work) = work else {
        return Next::To(Stage::Settled(Rest::Off));
    };
    match what {
        AttendFor::Waking { rest } => {
            if is_under(started_revision, work.revision) && !upload_requested {
                resume(rest, work)
            } else {
                Next::Start(work)
            }
        }
        AttendFor::Confirming {
            found,
            property,
            checksum,
        } => confirm(found, property, checksum, work),
        AttendFor::Restarting => Next::Start(work),
    }
}

fn is_under(started_revision: Option<u64>, revision: u64) -> bool
    ensures { result ≡ is_under started_revision revision }
{
    match started_revision {
        Some(started) => started == revision,
        None => false,
    }
}

// Wakes a settled port whose configuration has not changed since it started.
fn resume(rest: Rest, work: Work) -> Next
    ensures next { next_of result ≡ resumed rest work }
    ensures holds { IsNext (next_of result) }
{
    match rest {
        Rest::Off => Next::To(Stage::Settled(Rest::Off)),
        Rest::Lost => Next::Start(work),
        Rest::Failed(_) => Next::Start(work),
        Rest::Ready(_) | Rest::ReadyLocked(_) | Rest::ReadyEmpty(_) | Rest::Mismatch(_, _) => {
            Next::To(Stage::Page(PageFor::Comparing { work, rest }))
        }
    }
}

// Decides from what was read of a device, or starts again if the port was configured meanwhile.
fn confirm(found: FoundDevice, property: StateProperty, checksum: u32, work: Work) -> Next
    ensures next { next_of result ≡ confirmed found property checksum work }
    ensures holds { IsNext (next_of result) }
{
    if found.work.revision != work.revision {
        return Next::Start(work);
    }
    let decision = decide(
        work.config.validation,
        property.state(),
        property.flag(),
        checksum,
        work.checksum,
    );
    Next::To(stage_decided(found, checksum, decision))
}

fn stage_decided(found: FoundDevice, checksum: u32, decision: Decision) -> Stage
    ensures stage { stage_of result ≡ decided found checksum decision }
    ensures holds { IsStage (stage_of result) }
{
    match decision {
        Decision::Ready => Stage::Settled(Rest::Ready(found.page)),
        Decision::ReadyLocked => Stage::Settled(Rest::ReadyLocked(found.page)),
        Decision::ReadyEmpty => Stage::Settled(Rest::ReadyEmpty(found.page)),
        Decision::Upload => Stage::Core(AwaitsCore::BeginningUpload(found)),
        Decision::Download => Stage::Core(AwaitsCore::BeginningDownload(found, checksum)),
    }
}
