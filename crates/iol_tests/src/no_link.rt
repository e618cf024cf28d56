//! A port without a link, and a link that is made.

use crate::blank::formatted;
use arrayvec::ArrayVec;
use iol_journal::Geometry;
use iol_run::{RunFault, Task, run_schedule};
use iol_sim::ScriptLink;
use std::process::Abort;

#[test]
fn a_port_without_a_link_runs_nothing(rt: HostRuntime) {
    let geometry = Geometry::new(1, 4).unwrap();
    let disk = formatted(&rt, rt.alloc(), geometry);
    let links = Vec::<ScriptLink>::new(rt.alloc());
    match run_schedule(rt.alloc(), disk, links, &[Task::Drain]) {
        Err(RunFault::Ports(_disk)) => {}
        _ => panic!(rt; "a port has no link"),
    }
}

#[test]
fn a_link_with_given_answers_is_made(rt: HostRuntime) {
    let mut answers = Vec::new(rt.alloc());
    answers.push(ArrayVec::new()).expect(&rt, "memory");
    assert!(rt; ScriptLink::new(rt.alloc(), answers).is_ok());
}
