//! Examples of an engine with values, which check its definitions. Each is proved by computing.

ghost use Rattle.std.specs.Prelude.{◌≡◌, [], ◌∷◌, true, false, Some, None};
ghost use Rattle.iol_core.specs.Examples.{blank_core, configure_one};
ghost use Rattle.iol_link.specs.Page.{PageValue};
ghost use Rattle.iol_port.specs.Stage.{Storing, new_machine};
ghost use Rattle.iol_port.specs.declared.action.Want.TheVariants as want;
ghost use Rattle.iol_engine.specs.Answered.{FitsWant};
ghost use Rattle.iol_engine.specs.Waits.{waits_in};
ghost use Rattle.iol_engine.specs.declared.handed.Answered.TheVariants as answered;

/// A port waits for the disk while its set, which it has filed as command 8, is not durable. One that has filed nothing does not wait,
/// nor does one whose set is durable, nor a port that is not there.
pub fn a_port_that_waits()
    ensures waiting { (page : PageValue)
        → waits_in (blank_core (configure_one ∷ [])) (Some (record (new_machine 1) { stage = Storing 8 page })) ≡ true }
    ensures durable { (page : PageValue)
        → waits_in (blank_core (configure_one ∷ [])) (Some (record (new_machine 1) { stage = Storing 7 page })) ≡ false }
    ensures nothing_filed { waits_in (blank_core (configure_one ∷ [])) (Some (new_machine 1)) ≡ false }
    ensures not_there { waits_in (blank_core (configure_one ∷ [])) None ≡ false }
{}

/// The loss of a device fits if its page was wanted, and not if nothing was. No answer fits if nothing was wanted, and not if a page
/// was.
pub fn an_answer_that_fits()
    ensures lost { FitsWant want.Page answered.Gone }
    ensures unasked { FitsWant want.Nothing answered.Gone → ⊥ }
    ensures nothing { FitsWant want.Nothing answered.Nothing }
    ensures unanswered { FitsWant want.Page answered.Nothing → ⊥ }
{}
