//! Laws of traces, for proofs only: no code calls them. Proofs of other crates cite them from `proofs/Words.antt` and
//! `proofs/CrashPrefix.antt`.

ghost use Rattle.std.specs.Prelude.{◌≡◌, ℕ, true, IsTrue, List, ◌++◌, All};
ghost use Rattle.iol_types.specs.State.{State, legal};
ghost use Rattle.iol_disk.specs.Content.{Image, IsImageSince};
ghost use Rattle.iol_disk.specs.Disk.{Disk};
ghost use Rattle.iol_journal.specs.Runs.{HasPrefix};
ghost use Rattle.iol_core.specs.Events.{Stamp};
ghost use Rattle.iol_core.specs.Links.{IsLinkRun};
ghost use Rattle.iol_core.specs.Words.{accepted, numbers, acked, RiseByOne};
ghost use Rattle.iol_core.specs.CrashPrefix.{CrashPrefix, marks_of};

use iol_link::DeviceLink;

/// Commands accepted in later events come after those accepted before.
pub fn accepts_after()
    ensures { (events more : List Stamp) → accepted (events ++ more) ≡ accepted events ++ accepted more }
{}

/// How far commands are acknowledged after more events.
pub fn acknowledges_after()
    ensures { (first : ℕ) (events more : List Stamp) → acked first (events ++ more) ≡ acked (acked first events) more }
{}

/// If every image since a moment of a run has all commands acknowledged by then, the run satisfies `CrashPrefix`.
pub fn leaves_a_prefix()
    ensures { (d : Disk) (begun first : ℕ) (start : State) (events : List Stamp) → legal start (accepted events) ≡ true
        → RiseByOne first (numbers events)
        → All (λ mark. IsTrue d.honest → (image : Image) → IsImageSince mark.clock d.content image
        → HasPrefix d.sectors first start (accepted events) mark.acknowledged image) (marks_of begun first events)
        → CrashPrefix d begun first start events }
{}

/// A link run that begins where another ends joins it: the events of both are the events of one run.
pub fn link_runs_join<L: DeviceLink>()
    ensures { (port : ℕ) (events more : List Stamp) (first middle last : L) → IsLinkRun L.number L.steps port events first middle
        → IsLinkRun L.number L.steps port more middle last → IsLinkRun L.number L.steps port (events ++ more) first last }
{}
