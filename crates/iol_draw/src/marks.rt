//! The marks of a whole run.

use crate::mark::{Mark, Wait};
use crate::marking::Marking;
use crate::port_marks::PortMarks;
use iol_explain::{Explained, ToldCall, calls_before, calls_between, calls_of_run};
use std::alloc::{AllocError, Global};

// The marks of a run, and the number of columns that they take.
#[derive(Drop)]
pub(crate) struct Marks<'a> {
    pub signs: Vec<Mark>,
    pub waits: Vec<Wait>,
    pub ports: Vec<PortMarks<'a>>,
    pub columns: usize,
}

// Makes the marks of a run, whose explained lines are `lines`. A disk call comes before the event of its step.
pub(crate) fn marks_of<'a>(
    alloc: Global,
    run: &Explained,
    lines: &'a [&'a str],
) -> Result<Marks<'a>, AllocError> {
    let mut marking = Marking::new(alloc, run.geometry, lines)?;
    let calls = calls_of_run(&run.calls);
    let mut told = 0;
    for (place, stamped) in run.events.iter().enumerate() {
        let before = calls_before(&run.events_before, told, place);
        add_calls(&mut marking, calls_between(calls, told, before))?;
        marking.event(&stamped.event)?;
        told = before;
    }
    add_calls(&mut marking, calls_between(calls, told, calls.len()))?;
    marking.end()?;
    let Marking {
        signs,
        waits,
        ports,
        column,
        ..
    } = marking;
    Ok(Marks {
        signs,
        waits,
        ports,
        columns: column,
    })
}

fn add_calls(marking: &mut Marking, calls: &[ToldCall]) -> Result<(), AllocError> {
    for call in calls {
        marking.call(*call)?;
    }
    Ok(())
}
