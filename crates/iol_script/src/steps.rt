//! The steps of a script, and the stop after them.
ghost use Rattle.std.specs.Prelude.{◌≡◌, None, Some, IfOk};
ghost use Rattle.toml.specs.View.{items_view};
ghost use Rattle.iol_script.specs.LiveScript.{change_by};
ghost use Rattle.iol_script.specs.Steps.{before_stop, steps_of};

use crate::script::ScriptFault;
use crate::step::Step;
use crate::stop::read_stop;
use iol_disk::Pick;
use iol_types::Change;
use std::alloc::Global;
use toml::Value;

// Splits off the stop: returns the values before it and what it keeps. Without a stop it returns all values and `New`.
pub(crate) fn before_stop(values: &[Value]) -> (&[Value], Pick)
    ensures { (items_view result.0.now, result.1) ≡ before_stop (items_view values.now) }
{
    if let Some((last, before)) = values.split_last() {
        if let Some(keep) = read_stop(last) {
            return (before, keep);
        }
    }
    (values, Pick::New)
}

// Reads steps from values, none of which may be a stop.
//
// # Errors
// `NotValid` if a value is not a step; `Memory` if it is out of memory.
pub(crate) fn read_steps(alloc: Global, values: &[Value]) -> Result<Vec<Step>, ScriptFault>
    ensures steps { IfOk result (λ steps. steps_of (items_view values.now) ≡ Some steps.items) }
    ensures not_valid { result ≡ Err ScriptFault.NotValid → steps_of (items_view values.now) ≡ None }
{
    let mut steps = Vec::with_capacity(alloc, values.len())?;
    for value in values {
        // Both arms return the step that was read. The prover has to meet a change here to know what a step is made of.
        let step = match Step::read(value).ok_or(ScriptFault::NotValid)? {
            Step::Ask(change) => Step::Ask(change),
            step => step,
        };
        steps.push(step)?;
    }
    Ok(steps)
}

// Returns the change that a step requests, if the step is a client's.
pub(crate) fn change_by(step: Step) -> Option<Change>
    ensures { result ≡ change_by step }
{
    match step {
        Step::Ask(change) => Some(change),
        _ => None,
    }
}
