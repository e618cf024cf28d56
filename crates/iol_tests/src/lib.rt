//! Tests of what no command of the program makes, nor a call of the library for C. The cases and tests of `tests` try all else.
//!
//! - `isdu`: the codec compared with a plain reader of ISDUs. `link`: a link of which nothing is claimed.
//! - `plain`: a recovery compared with `plain_reading`, which is written from docs/FORMATS.md alone. `example_store`: the store of
//!   `iol_example`.
//! - `paused`: a checkpoint that is paused while batches are written. `older_layout`: the one that renews a disk of an earlier release.
//! - `largest`: the largest record of a command, and batches that do not follow others. `full_ports`: the largest record of a port, and
//!   the checkpoint of ports with the largest sets.
//! - `front`, `core_reads`, `flush`: passes of two threads, a view of a port with a set, batches that do not fit. `stranger`: a batch that
//!   a core did not take.
//! - `cut_file`: a file of which a read has failed. `no_link`: a run of a port without a link, and a link that is made. `texts`: the texts
//!   of faults.
//!
//! `blank` and `scene` have what the tests begin with.
#![tactic(auto)]

#[cfg(test)]
mod blank;
#[cfg(test)]
mod core_reads;
#[cfg(test)]
mod cut_file;
#[cfg(test)]
mod example_store;
#[cfg(test)]
mod flush;
#[cfg(test)]
mod front;
#[cfg(test)]
mod full_ports;
#[cfg(test)]
mod isdu;
#[cfg(test)]
mod largest;
#[cfg(test)]
mod link;
#[cfg(test)]
mod no_link;
#[cfg(test)]
mod older_layout;
#[cfg(test)]
mod paused;
#[cfg(test)]
mod plain;
#[cfg(test)]
mod plain_reading;
#[cfg(test)]
mod scene;
#[cfg(test)]
mod stranger;
#[cfg(test)]
mod texts;
