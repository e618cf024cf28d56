//! Runs of a master on one thread, over any disk and any links. A schedule of steps comes in, a trace of events goes out.
//!
//! [`run_schedule`] recovers a disk and carries out the tasks of a schedule: a client asks for a change, a port makes steps, or
//! the flusher makes turns. Each step reports its events, stamped with the disk's clock, which only contracts see. The
//! [`Trace`] has the events in their order, the place of each disk call among them, the durable state at the end, and the
//! disk. [`Run`] does the same step by step.
//!
//! Modules in reading order:
//! - `engine_on_disk` is an engine and the flusher that writes its batches to the disk, `turn` is the result of a turn of the
//!   flusher, and `moment` is a moment of the disk.
//! - `step` and `task` are the parts of a schedule, and `run` and `schedule` carry it out.
//!
//! `specs/Turns.antt` says what a turn of the flusher does, `specs/Ports.antt` what a step of a port does, and `specs/Steps.antt` what
//! a step reports. `specs/Tasks.antt` says what a task does, `specs/Answers.antt` how a client is answered, and
//! `specs/Schedules.antt` what holds of a whole trace.
#![tactic(auto)]

mod engine_on_disk;
mod moment;
mod run;
mod schedule;
mod step;
mod task;
mod turn;

pub use engine_on_disk::EngineOnDisk;
pub use moment::Moment;
pub use run::{Run, Stamped};
pub use schedule::{Ended, RunFault, Trace, run_schedule};
pub use step::Step;
pub use task::Task;
pub use turn::{Turn, Turned};
