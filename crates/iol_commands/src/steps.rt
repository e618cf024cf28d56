//! The steps of a script, as tasks of a run.
ghost use Rattle.std.specs.Prelude.{◌≡◌, ◌++◌, IfOk, OnOk};
ghost use Rattle.iol_commands.specs.Steps.{tasks_of};

use iol_run::Task;
use iol_script::Step as ScriptStep;
use std::alloc::{AllocError, Global};

// Returns the schedule of a script: the tasks of its steps, in their order.
//
// # Errors
// `AllocError` if memory runs out.
pub(crate) fn tasks_of(alloc: Global, steps: &[ScriptStep]) -> Result<Vec<Task>, AllocError>
    ensures { IfOk result (λ tasks. tasks.items ≡ tasks_of steps.now) }
{
    let mut tasks = Vec::with_capacity(alloc, steps.len())?;
    add_tasks(&mut tasks, steps)?;
    Ok(tasks)
}

// Adds the tasks of steps, in their order.
fn add_tasks(tasks: &mut Vec<Task>, steps: &[ScriptStep]) -> Result<(), AllocError>
    ensures { OnOk result (tasks.new.items ≡ tasks.old.items ++ tasks_of steps.now) }
{
    for step in steps {
        let task: Task = match *step {
            ScriptStep::Ask(change) => Task::Client(change),
            ScriptStep::Port { port, times } => Task::Port { port, times },
            ScriptStep::Flush { times } => Task::Flush { times },
            ScriptStep::Drain => Task::Drain,
        };
        tasks.push(task)?;
    }
    Ok(())
}
