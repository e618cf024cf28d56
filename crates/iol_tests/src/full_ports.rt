//! Ports with two sets that count 4,096 each, and labels of 32 octets: their records, and their checkpoint with a stop after each disk
//! call.

use crate::blank::{blank, config};
use crate::example_store::{found, opened};
use crate::paused::stepped;
use crate::scene::{begun, finish};
use iol_disk::{MemoryDisk, Pick};
use iol_example::{create, open};
use iol_journal::{Batch, Checkpointing, Geometry, Journal};
use iol_record::{LARGEST_PORT_RECORD_OF_TWO, Version, decode_port, encode_port};
use iol_types::{
    Command, DataSet, Key, Label, MasterState, PortConfig, PortId, PortState, SetBuilder, StoredSet,
};
use std::alloc::Global;
use std::process::Abort;
use std::sync::Arc;

// The commands of a port are a batch of two slots.
const COMMANDS: u8 = 3;

const SLOTS: u16 = 2;

const PICKS: [Pick; 4] = [Pick::Old, Pick::New, Pick::Zero, Pick::Pattern];

// Makes a set that counts 4,096: 17 parameters of 232 octets and one of 80, all of which are this octet.
fn full_set<R: Abort>(rt: &R, alloc: Global, octet: u8) -> Arc<DataSet> {
    let mut set = SetBuilder::new(alloc);
    for index in 64..82 {
        let octets = [octet; 232];
        let count = if index < 81 { 232 } else { 80 };
        let key = Key { index, subindex: 0 };
        set.add(key, &octets[..count]).expect(rt, "an entry");
    }
    let config = config();
    let set = set.finish(config.vendor, config.device, u32::from(octet));
    Arc::new(alloc, set).expect(rt, "memory")
}

fn labelled<R: Abort>(rt: &R) -> PortConfig {
    let label = Label::new(&[b'~'; 32]).expect(rt, "a label");
    PortConfig { label, ..config() }
}

fn store<R: Abort>(rt: &R, port: PortId, set: &Arc<DataSet>) -> Command {
    Command::Store {
        port,
        revision: 1,
        set: Arc::try_clone(set).expect(rt, "memory"),
    }
}

// Makes a journal of no commands, with the slots of a batch for each of `ports` ports.
fn empty_journal<R: Abort>(rt: &R, alloc: Global, ports: u8) -> Journal<MemoryDisk> {
    // In version 2 an area gives up a slot for two ports.
    let slots = (SLOTS * u16::from(ports)).saturating_add(u16::from(ports) / 2 + 1);
    let geometry = Geometry::new(u16::from(ports), slots).expect(rt, "a geometry");
    match create(alloc, blank(rt, alloc, geometry.sectors()), geometry) {
        Ok(journal) => journal,
        Err(_) => panic!(rt; "a disk is formatted and recovered"),
    }
}

// Returns the commands of a port: a Configure, and a Store of each set.
fn commands<R: Abort>(rt: &R, alloc: Global, number: u8, sets: &[Arc<DataSet>; 2]) -> Vec<Command> {
    let port = PortId::new(number).expect(rt, "a port");
    let config = labelled(rt);
    let configure = Command::Configure { port, config };
    let [first, second] = sets;
    let stores = [configure, store(rt, port, first), store(rt, port, second)];
    Vec::from_array(alloc, stores).expect(rt, "memory")
}

// Returns the journal after a batch of these commands.
fn with_batch<R: Abort>(
    rt: &R,
    journal: Journal<MemoryDisk>,
    commands: Vec<Command>,
) -> Journal<MemoryDisk> {
    let first = journal.number().saturating_add(1);
    let (journal, written) = finish(rt, begun(rt, journal, Batch { first, commands }));
    let _batch = written.into_batch();
    journal
}

// Makes a journal of `ports` ports that each have the second set, and the first one as their previous set.
fn journal<R: Abort>(
    rt: &R,
    alloc: Global,
    ports: u8,
    sets: &[Arc<DataSet>; 2],
) -> Journal<MemoryDisk> {
    let mut journal = empty_journal(rt, alloc, ports);
    for number in 1..=ports {
        journal = with_batch(rt, journal, commands(rt, alloc, number, sets));
    }
    journal
}

fn checkpoint<R: Abort>(rt: &R, journal: Journal<MemoryDisk>) -> Checkpointing<MemoryDisk> {
    assert!(rt; journal.is_half_used(), "slots are used");
    match journal.checkpoint() {
        Ok(checkpointing) => checkpointing,
        Err(_) => panic!(rt; "memory"),
    }
}

// Returns the number of disk calls of that checkpoint: a gate, the gates of slots, a header, 17 sectors a port, a gate, and four syncs.
fn calls(ports: u8) -> usize {
    let given_up = (8 * usize::from(ports) + 16) / 17;
    let slots = usize::from(SLOTS) * usize::from(ports) + usize::from(ports) / 2 + 1;
    (7 + 17 * usize::from(ports)).saturating_add(slots.saturating_sub(given_up))
}

// Returns whether a set of a port is this one, taken under the label.
fn is_set<R: Abort>(rt: &R, stored: Option<&StoredSet>, set: &Arc<DataSet>) -> bool {
    match stored {
        Some(stored) => *stored.set == **set && stored.recorded == labelled(rt),
        None => false,
    }
}

fn has_all<R: Abort>(rt: &R, state: &MasterState, ports: u8, sets: &[Arc<DataSet>; 2]) -> bool {
    let [first, second] = sets;
    for number in 1..=ports {
        let port = PortId::new(number).expect(rt, "a port");
        let port = state.port(port).expect(rt, "a port");
        if !is_set(rt, port.stored(), second) || !is_set(rt, port.previous(), first) {
            return false;
        }
    }
    true
}

// Returns the number of commands that are found on a disk, and whether each port has both sets.
fn found_with_sets<R: Abort>(
    rt: &R,
    alloc: Global,
    disk: MemoryDisk,
    ports: u8,
    sets: &[Arc<DataSet>; 2],
) -> Option<(u64, bool)> {
    let (journal, state) = open(alloc, disk).ok()?;
    Some((journal.number(), has_all(rt, &state, ports, sets)))
}

// Asserts that a stop after this number of disk calls of the checkpoint, which keeps sectors as this pick says, leaves all sets.
fn assert_kept<R: Abort>(
    rt: &R,
    alloc: Global,
    ports: u8,
    sets: &[Arc<DataSet>; 2],
    calls: usize,
    pick: Pick,
) {
    let begun = checkpoint(rt, journal(rt, alloc, ports, sets));
    let left = stepped(rt, begun, calls).disk().stop(pick);
    let Some((number, has_all)) = found_with_sets(rt, alloc, left, ports, sets) else {
        panic!(rt; "a journal is found behind {calls}")
    };
    assert!(rt; number == u64::from(COMMANDS) * u64::from(ports), "{calls}");
    assert!(rt; has_all, "{calls}");
}

#[test]
fn a_stop_at_any_call_of_the_checkpoint_of_one_full_port_leaves_its_sets(rt: HostRuntime) {
    let sets = [full_set(&rt, rt.alloc(), 1), full_set(&rt, rt.alloc(), 2)];
    for call in 0..calls(1) {
        for pick in PICKS {
            assert_kept(&rt, rt.alloc(), 1, &sets, call, pick);
        }
    }
}

// The picks take turns: there are enough calls that each pick is kept at each kind of sector.
#[test]
fn a_stop_at_any_call_of_the_checkpoint_of_32_full_ports_leaves_their_sets(rt: HostRuntime) {
    let sets = [full_set(&rt, rt.alloc(), 1), full_set(&rt, rt.alloc(), 2)];
    for call in 0..calls(32) {
        let pick = *PICKS.get(call % 4).expect(&rt, "a pick");
        assert_kept(&rt, rt.alloc(), 32, &sets, call, pick);
    }
}

#[test]
fn the_checkpoint_of_32_full_ports_has_so_many_calls(rt: HostRuntime) {
    let sets = [full_set(&rt, rt.alloc(), 1), full_set(&rt, rt.alloc(), 2)];
    for ports in [1, 32] {
        let begun = checkpoint(&rt, journal(&rt, rt.alloc(), ports, &sets));
        let journal = crate::paused::done(&rt, begun, calls(ports));
        let number = u64::from(COMMANDS) * u64::from(ports);
        let left = journal.disk().stop(Pick::Old);
        assert!(rt; found(rt.alloc(), left) == Some((number, 1)));
    }
}

// Returns the record of a port with both sets, as a disk has it.
fn record_of_two<R: Abort>(rt: &R, alloc: Global) -> Vec<u8> {
    let sets = [full_set(rt, alloc, 1), full_set(rt, alloc, 2)];
    let (_, state) = opened(rt, alloc, journal(rt, alloc, 1, &sets).disk());
    let port = state.port(PortId::new(1).unwrap()).expect(rt, "a port");
    record_of(rt, alloc, port)
}

fn record_of<R: Abort>(rt: &R, alloc: Global, port: &PortState) -> Vec<u8> {
    encode_port(alloc, Version::newest(), port).expect(rt, "memory")
}

// Returns the number of octets of a record that are read, and the record of what is read.
fn read_again<R: Abort>(rt: &R, alloc: Global, record: &[u8]) -> (usize, Vec<u8>) {
    let (port, octets) = decode_port(alloc, Version::newest(), record).expect(rt, "a port");
    (octets, record_of(rt, alloc, &port))
}

#[test]
fn the_largest_record_of_a_port_is_read_and_written(rt: HostRuntime) {
    let record = record_of_two(&rt, rt.alloc());
    assert!(rt; record.len() == LARGEST_PORT_RECORD_OF_TWO);
    let (octets, again) = read_again(&rt, rt.alloc(), &record);
    assert!(rt; octets == record.len());
    assert!(rt; again.as_slice() == record.as_slice());
}
