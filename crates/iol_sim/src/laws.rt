//! Laws of simulated links and devices. No code calls them.

ghost use Rattle.std.specs.Prelude.{◌≡◌, ◌≢◌, ◌≤◌, ◌<◌, ℕ, List, length, map, All, slice_get, Ok};
ghost use Rattle.std.specs.Map.{keys_of};
ghost use Rattle.iol_types.specs.DataSet.{Entry};
ghost use Rattle.iol_transfer.specs.List.{reading_of, list_octets};
ghost use Rattle.iol_transfer.specs.declared.list.Next.TheVariants as next;
ghost use Rattle.iol_sim.specs.Parameters.{AreParameters};
ghost use Rattle.iol_link.specs.declared.parts.TheConstants.{ISDU_OCTETS};
ghost use Rattle.iol_link.specs.Link.{LinkCall, LinkAnswer, Answered, Run, Exchange, last_connection};
ghost use Rattle.iol_sim.specs.SimLink.{Sim, SimStep};
ghost use Rattle.iol_sim.specs.Script.{Script, ScriptStep, AnswersInOrder};

/// Exchanges with a script link, before its last connection, are answered with its answers in order,
/// and are then `Lost`.
pub fn a_script_answers_in_order()
    ensures { (first last : Script) (made : List Answered) (requests : List (List ℕ))
        → Run (λ s. s.connection) ScriptStep first made last → first.connection < last_connection
        → map (λ m. m.call) made ≡ map Exchange requests
        → All (λ octets. length octets ≤ ISDU_OCTETS) requests
        → AnswersInOrder first requests (map (λ m. m.answer) made) last }
{}

/// A call to a simulated link changes no visit except the one of the present device.
pub fn a_call_steps_one_device()
    ensures { (old new : Sim) (call : LinkCall) (answer : LinkAnswer) → SimStep old call answer new
        → (place : ℕ) → place ≢ old.place → slice_get new.visits place ≡ slice_get old.visits place }
{}

/// Calls to a simulated link that begin and end on the same connection are all answered by one
/// device.
pub fn one_device_answers_on_a_connection()
    ensures { (first last : Sim) (made : List Answered)
        → Run (λ s. s.connection) SimStep first made last → last.connection ≡ first.connection
        → last.place ≡ first.place }
{}

/// The Index_List of the parameters of a simulated device is read as their keys, in order, and as
/// the end of the list.
pub fn a_device_lists_its_keys()
    ensures { (parameters : List Entry) → AreParameters parameters
        → reading_of (list_octets (keys_of parameters) next.End) ≡ Ok (keys_of parameters, next.End) }
{}
