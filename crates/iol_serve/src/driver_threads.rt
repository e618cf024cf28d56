//! The threads that read and write the files of a driver, so that no call of a link waits for a file.

use crate::driver_files::{DriverFiles, DriverPaths, OpenedFile};
use crossbeam_channel::{Receiver, Sender};
use iol_wire::REQUEST_LINE_OCTETS;
use std::alloc::Global;
use std::fs::File;
use std::io::{Read, Write};
use std::sync::Wait;
use std::thread;
use std::time::{Clock, Duration};

/// The number of octets that are read at once.
pub(crate) const CHUNK_OCTETS: usize = 256;

// The wait before the files are opened again.
const PAUSE_MILLISECONDS: u64 = 100;

// The most writes of a line that the driver does not take, and the wait before it is written again.
const WRITES: u32 = 5;

const REST_MILLISECONDS: u64 = 20;

/// A report of the thread that reads the files of a driver.
#[derive(Clone, Copy)]
pub(crate) enum Chunk {
    /// The files are open.
    Opened,
    /// Octets were read: the beginning of this array, of this length.
    Octets([u8; CHUNK_OCTETS], usize),
    /// The driver is gone.
    Closed,
}

/// A line to write to a driver: the first `count` octets.
#[derive(Clone, Copy)]
pub(crate) struct RequestLine {
    pub(crate) octets: [u8; REQUEST_LINE_OCTETS],
    pub(crate) count: usize,
}

// Opens the files of a driver again and again, and sends on what it reads there, until nobody receives it. The thread that writes finds
// its file in `opened`.
pub(crate) fn read_driver<R: Wait + Clock>(
    rt: &R,
    files: HostRuntime,
    paths: &DriverPaths,
    opened: &OpenedFile,
    hearer: &Sender<Chunk, Global>,
) {
    for _ in rt.forever() {
        if let Ok(both) = paths.open(files) {
            let DriverFiles {
                mut reading,
                writing,
            } = both;
            opened.put(rt, writing);
            if !hand_octets_on(rt, &mut reading, hearer) {
                return;
            }
        }
        thread::sleep(rt, Duration::from_millis(PAUSE_MILLISECONDS));
    }
}

// Sends on what it reads from a file, up to its end. Returns whether somebody still receives it.
fn hand_octets_on<R: Wait>(rt: &R, file: &mut File, hearer: &Sender<Chunk, Global>) -> bool {
    if hearer.send(rt, Chunk::Opened).is_err() {
        return false;
    }
    for _ in rt.forever() {
        let mut octets = [0; CHUNK_OCTETS];
        let count = file.read(&mut octets).unwrap_or(0);
        if count == 0 {
            return hearer.send(rt, Chunk::Closed).is_ok();
        }
        if hearer.send(rt, Chunk::Octets(octets, count)).is_err() {
            return false;
        }
    }
    unreachable!()
}

// Writes lines to a driver as they come, until no more come. A line that a driver reads late does no harm: its number is that of an
// earlier request.
pub(crate) fn write_driver<R: Wait + Clock>(
    rt: &R,
    opened: &OpenedFile,
    lines: Receiver<RequestLine, Global>,
) {
    let mut file = None;
    for line in lines.iter(rt) {
        if let Some(octets) = line.octets.get(..line.count) {
            file = written(rt, opened, file, octets);
        }
    }
}

// Writes octets to the file that was opened last, once the driver takes them, and drops them if it does not. It takes the file that was
// written before, and returns the latest.
fn written<R: Wait + Clock>(
    rt: &R,
    opened: &OpenedFile,
    before: Option<File>,
    octets: &[u8],
) -> Option<File> {
    let mut latest = before;
    for _ in 0..WRITES {
        let mut file = match opened.take(rt) {
            Some(file) => file,
            None => latest?,
        };
        if file.write_all(octets).is_ok() {
            return Some(file);
        }
        latest = Some(file);
        thread::sleep(rt, Duration::from_millis(REST_MILLISECONDS));
    }
    latest
}
