//! The lines of requests, which a thread of their own reads.

use crossbeam_channel::Sender;
use iol_requests::LINE_OCTETS;
use std::alloc::{AllocError, Global};
use std::io::Read;
use std::sync::Wait;

// The number of octets that are read at once.
const CHUNK_OCTETS: usize = 512;

/// A message to the thread that has requests answered.
#[derive(Drop)]
pub(crate) enum Heard {
    /// A line, without its line feed. A line that is too long is cut to its start, with one octet too many.
    Line(Vec<u8>),
    /// There was no memory for a line.
    OutOfMemory,
    /// No more lines come.
    Ended,
    /// Nothing can be printed any more.
    PrintingFailed,
}

/// The lines of an input.
#[derive(Drop)]
pub(crate) struct Lines<I> {
    input: I,
    chunk: [u8; CHUNK_OCTETS],
    // The octets of the chunk from `from` to before `to` are not taken yet.
    from: usize,
    to: usize,
    line: Vec<u8>,
}

impl<I: Read + Drop> Lines<I> {
    // Makes the lines of what is read from now on.
    pub(crate) fn new(alloc: Global, input: I) -> Result<Lines<I>, AllocError> {
        Ok(Lines {
            input,
            chunk: [0; CHUNK_OCTETS],
            from: 0,
            to: 0,
            line: Vec::with_capacity(alloc, LINE_OCTETS + 1)?,
        })
    }

    // Waits for the next line. The last line needs no line feed.
    fn next(&mut self) -> Option<&[u8]> {
        self.line.clear();
        for _ in 0..u64::MAX {
            if self.take() {
                return Some(self.line.as_slice());
            }
            if !self.fill() {
                break;
            }
        }
        if self.line.is_empty() {
            None
        } else {
            Some(self.line.as_slice())
        }
    }

    // Takes octets of the chunk up to a line feed. Returns whether the line is whole.
    fn take(&mut self) -> bool {
        for place in self.from..self.to {
            self.from = place + 1;
            match self.chunk.get(place) {
                Some(b'\n') => return true,
                Some(octet) => keep(&mut self.line, *octet),
                None => return false,
            }
        }
        false
    }

    // Reads the next chunk. Returns whether there is one.
    fn fill(&mut self) -> bool {
        self.from = 0;
        self.to = self.input.read(&mut self.chunk).unwrap_or(0);
        0 < self.to
    }
}

// Adds an octet to a line, or drops it if the line has no capacity for it.
fn keep(line: &mut Vec<u8>, octet: u8) {
    if line.len() < line.capacity() {
        line.push_reserved(octet);
    }
}

// Sends on what is read, line by line, until nothing follows or nobody receives it.
pub(crate) fn hand_on<I: Read + Drop, R: Wait>(
    rt: &R,
    alloc: Global,
    mut lines: Lines<I>,
    hearer: &Sender<Heard, Global>,
) {
    for _ in rt.forever() {
        let Some(line) = lines.next() else {
            let _ = hearer.send(rt, Heard::Ended);
            return;
        };
        let heard = match Vec::from_slice(alloc, line) {
            Ok(line) => Heard::Line(line),
            Err(_) => Heard::OutOfMemory,
        };
        if hearer.send(rt, heard).is_err() {
            return;
        }
    }
}
