//! `iolmaster serve`: a master that runs until it is told to end, on an image file, with drivers at its ports.
//!
//! It takes the path of an image, the drivers at its ports, and lines of requests; it prints lines of answers and events. A thread
//! of each port carries out the requests of that port, so that requests of different ports do not wait for one another; a status is
//! answered at once. One thread alone prints. Two threads read and write the files of each driver, and a port's link waits for them.
//!
//! Modules in reading order: `hearing`, the thread that reads lines; `spelling` and `printing`, the texts and the thread that prints
//! them; `waiting`, the number of requests that wait; `asking`, the thread of a port; `responding`, which has requests answered;
//! `reporting`, the thread that reports what is new; `conducting`, the thread that has requests answered and ends the master;
//! `serving`, a master on any disk with any links; `either_link` and `paced_link`, links over links; `driver_files` and
//! `driver_threads`, the files of a driver and the threads that read and write them; `file_transport` and `patience`, a transport
//! over these threads, and how long it waits; `command`, the command on an image file.
#![tactic(auto)]

mod asking;
mod command;
mod conducting;
mod driver_files;
mod driver_threads;
mod either_link;
mod file_transport;
mod hearing;
mod paced_link;
mod patience;
mod printing;
mod reporting;
mod responding;
mod serving;
mod spelling;
mod waiting;

pub use command::{Driver, Serving, serve_image};
pub use either_link::EitherLink;
pub use paced_link::{CYCLE_MILLISECONDS, PacedLink};
pub use printing::{Printed, Prompt};
pub use serving::{Conversation, serve};
pub use waiting::MOST_WAITING;
