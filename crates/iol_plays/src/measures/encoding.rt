//! The records of the largest sets, compared with plain copies of the same number of octets.

use crate::measures::commands::{largest_set, set_of_short_parameters};
use crate::measures::plain::{Pair, nanoseconds_since};
use anyhow::Context;
use iol_record::{Version, encode_command};
use iol_types::{Command, DataSet, PortId};
use std::alloc::Global;
use std::sync::Arc;
use std::time::Instant;

// The number of records that are made, and copied, in a round.
const TIMES: u16 = 1000;

/// Times the encoding of sets that count 4,096 octets, of few long parameters and of many short ones. Prints what a record takes, and
/// what a copy of its octets takes.
pub(crate) fn measure_encoding(rt: &HostRuntime, rounds: usize) -> anyhow::Result<()> {
    let alloc = rt.alloc();
    let few = store(alloc, largest_set(alloc)?)?;
    time(rt, "encoding of a set of 18 parameters", &few, rounds)?;
    let many = store(alloc, set_of_short_parameters(alloc)?)?;
    time(rt, "encoding of a set of 1,024 parameters", &many, rounds)
}

fn store(alloc: Global, set: DataSet) -> anyhow::Result<Command> {
    Ok(Command::Store {
        port: PortId::new(1).context("no port number")?,
        revision: 1,
        set: Arc::new(alloc, set)?,
    })
}

fn time(rt: &HostRuntime, name: &str, command: &Command, rounds: usize) -> anyhow::Result<()> {
    let record = encode_command(rt.alloc(), Version::newest(), command)?;
    for _ in 0..rounds {
        let start = Instant::now(rt)?;
        for _ in 0..TIMES {
            drop(encode_command(rt.alloc(), Version::newest(), command)?);
        }
        let journal = nanoseconds_since(rt, start)?;
        let start = Instant::now(rt)?;
        for _ in 0..TIMES {
            drop(record.clone()?);
        }
        let plain = nanoseconds_since(rt, start)?;
        Pair { journal, plain }.print(rt, name, u64::from(TIMES))?;
    }
    Ok(())
}
