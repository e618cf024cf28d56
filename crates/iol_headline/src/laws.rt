//! Laws of whole traces, which no code calls.

ghost use Rattle.std.specs.Prelude.{◌≡◌, ℕ, List, length};
ghost use Rattle.iol_types.specs.State.{State};
ghost use Rattle.iol_core.specs.Events.{Stamp};
ghost use Rattle.iol_engine.specs.Acknowledged.{AcksRise};
ghost use Rattle.iol_run.specs.PortRuns.{ArePortRuns};
ghost use Rattle.iol_run.specs.declared.step.Step.{Step};
ghost use Rattle.iol_headline.specs.Laws.{IsLawful};

use iol_link::DeviceLink;

/// A trace is lawful if its events of each port are a run of that port's machine, and its acknowledged numbers do not fall.
pub fn ports_are_lawful<L: DeviceLink>()
    ensures lawful { (first : ℕ) (start : State) (made : List Step) (links : List L) (events : List Stamp) (last : List L)
        → length last ≡ length links
        → ArePortRuns L.number L.steps first start made links events last → AcksRise first events → IsLawful first start events }
{}
