//! The largest values that take memory, which no command of the program makes.

use crate::example_store::{refusal, store_of};
use iol_journal::{Batch, BeginCause};
use iol_record::examples::STORE_RECORD;
use iol_record::{LARGEST_COMMAND_RECORD, Version, decode_command, encode_command};
use iol_types::{Command, PortId};
use std::alloc::Global;
use std::process::Abort;

fn add<R: Abort>(rt: &R, record: &mut Vec<u8>, octets: &[u8]) {
    record.extend_from_slice(octets).expect(rt, "memory");
}

// Makes the record of a Store of 1,024 parameters that have no octets.
fn largest_record<R: Abort>(rt: &R, alloc: Global) -> Vec<u8> {
    let mut record = Vec::new(alloc);
    add(rt, &mut record, &STORE_RECORD[..20]);
    add(rt, &mut record, &[0x04, 0x00]);
    for index in 0x0100_u16..0x0500 {
        add(rt, &mut record, &index.to_be_bytes());
        add(rt, &mut record, &[0x00, 0x00]);
    }
    record
}

// Returns the number of octets of a record that are read, and the record of the command that is read.
fn read_again<R: Abort>(rt: &R, alloc: Global, record: &[u8]) -> (usize, Vec<u8>) {
    let version = Version::newest();
    let (command, octets) = decode_command(alloc, version, record).expect(rt, "memory");
    let written = encode_command(alloc, version, &command).expect(rt, "memory");
    (octets, written)
}

#[test]
fn a_store_of_1024_parameters_is_read_and_written(rt: HostRuntime) {
    let record = largest_record(&rt, rt.alloc());
    let (octets, written) = read_again(&rt, rt.alloc(), &record);
    assert!(rt; octets == LARGEST_COMMAND_RECORD);
    assert!(rt; written.as_slice() == record.as_slice());
}

// Makes a batch of `clears` Clears of port 1 and then one of port `last`, the first under this number.
fn batch<R: Abort>(rt: &R, alloc: Global, first: u64, clears: usize, last: Option<u8>) -> Batch {
    let mut commands = Vec::new(alloc);
    for _ in 0..clears {
        let port = PortId::new(1).expect(rt, "a port");
        commands.push(Command::Clear { port }).expect(rt, "memory");
    }
    if let Some(last) = last {
        let port = PortId::new(last).expect(rt, "a port");
        commands.push(Command::Clear { port }).expect(rt, "memory");
    }
    Batch { first, commands }
}

// The batches come after one command of two ports: none, one under its number, one after a gap, and one whose second command
// is for a port that does not exist.
const MISFITS: [(u64, usize, Option<u8>); 4] = [
    (2, 0, None),
    (1, 1, None),
    (3, 1, None),
    (2, 1, Some(3)),
];

#[test]
fn a_batch_that_does_not_follow_after_another_is_a_misfit(rt: HostRuntime) {
    for (first, clears, last) in MISFITS {
        let batch = batch(&rt, rt.alloc(), first, clears, last);
        let cause = refusal(&rt, store_of(&rt, rt.alloc(), 1), batch);
        assert!(rt; cause == BeginCause::Misfit, "{clears} from {first}");
    }
}
