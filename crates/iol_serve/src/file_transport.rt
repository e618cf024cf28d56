//! A transport over the files of a driver.

use crate::conducting::Unserved;
use crate::driver_files::{DriverPaths, OpenedFile};
use crate::driver_threads::{CHUNK_OCTETS, Chunk, RequestLine, read_driver, write_driver};
use crate::patience::Patience;
use crossbeam_channel::{Receiver, Sender};
use iol_wire::{Opening, Position, REQUEST_LINE_OCTETS, Transport, TransportFault};
use std::alloc::Global;
use std::sync::{Arc, Wait};
use std::thread;
use std::thread::Threads;
use std::time::{Clock, Duration, Instant};

// The time that a call waits for an absent driver.
const ABSENCE_MILLISECONDS: u64 = 100;

// Octets that come this soon after the file was opened, or after earlier octets, belong to no request.
const STALE_MILLISECONDS: u64 = 20;

// The longest time for which a call drops such octets, so that a driver that never rests is asked.
const MOST_STALE_MILLISECONDS: u64 = 100;

#[derive(Clone, Copy, Debug, PartialEq, Eq)]
enum Presence {
    Absent,
    Present,
}

/// A transport over the files of a driver. Two threads open, read and write the files. No call waits for a file: it waits for
/// these threads, and no longer than a driver may be silent. Nothing is known of a file but what is read from it.
#[derive(Drop)]
pub(crate) struct FileTransport<R: Wait + Clock> {
    rt: R,
    patience: Patience,
    presence: Presence,
    chunks: Receiver<Chunk, Global>,
    lines: Sender<RequestLine, Global>,
    octets: [u8; CHUNK_OCTETS],
    next: usize,
    count: usize,
}

impl<R: Threads + Wait + Clock + Copy + Send + 'static> FileTransport<R> {
    // Starts the threads that read and write the files at these paths. Nobody waits for their end.
    pub(crate) fn start(
        rt: R,
        files: HostRuntime,
        alloc: Global,
        paths: DriverPaths,
        patience: Patience,
    ) -> Result<FileTransport<R>, Unserved> {
        let Ok((hearer, chunks)) = crossbeam_channel::bounded(alloc, 1) else {
            return Err(Unserved::Memory);
        };
        let Ok((lines, written)) = crossbeam_channel::bounded(alloc, 1) else {
            return Err(Unserved::Memory);
        };
        let opened = Arc::new(alloc, OpenedFile::new())?;
        let same = Arc::try_clone(&opened)?;
        let reading = thread::spawn(&rt, move || {
            read_driver(&rt, files, &paths, &opened, &hearer)
        });
        let writing = thread::spawn(&rt, move || write_driver(&rt, &same, written));
        if reading.is_err() || writing.is_err() {
            return Err(Unserved::Thread);
        }
        Ok(FileTransport {
            rt,
            patience,
            presence: Presence::Absent,
            chunks,
            lines,
            octets: [0; CHUNK_OCTETS],
            next: 0,
            count: 0,
        })
    }
}

impl<R: Wait + Clock> FileTransport<R> {
    // Waits until the file is open, and drops the stale octets.
    fn open(&mut self) -> Result<Opening, TransportFault> {
        self.next = 0;
        self.count = 0;
        for _ in 0..u64::MAX {
            let left = self.absence_left();
            match self.hear(left) {
                Some(Chunk::Opened) => return self.drop_stale(),
                Some(_) => {}
                None => return Err(TransportFault::Absent),
            }
        }
        Err(TransportFault::Absent)
    }

    // Returns how long the call still waits for an absent driver.
    fn absence_left(&self) -> Duration {
        let limit = Duration::from_millis(ABSENCE_MILLISECONDS);
        match self.patience.waited(&self.rt) {
            Some(waited) => limit.saturating_sub(waited),
            None => limit,
        }
    }

    // Drops the octets that come at once, and returns at which position of a line they end.
    fn drop_stale(&mut self) -> Result<Opening, TransportFault> {
        let began = Instant::now(&self.rt).ok();
        let mut position = Position::LineStart;
        for _ in 0..u64::MAX {
            match self.hear(Duration::from_millis(STALE_MILLISECONDS)) {
                Some(Chunk::Octets(octets, count)) => position = position_after(&octets, count),
                Some(Chunk::Opened) => position = Position::LineStart,
                Some(Chunk::Closed) => {}
                None => break,
            }
            if self.has_dropped_long(began) {
                break;
            }
        }
        match self.presence {
            Presence::Present => Ok(Opening::Anew(position)),
            Presence::Absent => Err(TransportFault::Absent),
        }
    }

    // Returns whether no more octets are to be dropped: this went on for so long that the driver never rests, the master is to
    // end, or the clock cannot be read.
    fn has_dropped_long(&self, began: Option<Instant>) -> bool {
        if self.patience.is_ending() {
            return true;
        }
        match began {
            Some(began) => match began.elapsed(&self.rt) {
                Ok(passed) => passed >= Duration::from_millis(MOST_STALE_MILLISECONDS),
                Err(_) => true,
            },
            None => true,
        }
    }

    // Returns the next report of the thread that reads, if it comes within this time.
    fn hear(&mut self, limit: Duration) -> Option<Chunk> {
        let chunk = self.chunks.recv_timeout(&self.rt, limit).ok()?;
        match chunk {
            Chunk::Opened => self.presence = Presence::Present,
            Chunk::Octets(_, _) => {}
            Chunk::Closed => self.presence = Presence::Absent,
        }
        Some(chunk)
    }

    // Waits for the next octets, and takes them.
    fn fill(&mut self) -> Result<(), TransportFault> {
        for _ in 0..u64::MAX {
            let Some(wait) = self.patience.next_wait(&self.rt) else {
                return Err(TransportFault::Silent);
            };
            match self.hear(wait) {
                Some(Chunk::Octets(octets, count)) => {
                    self.octets = octets;
                    self.next = 0;
                    self.count = count;
                    return Ok(());
                }
                Some(Chunk::Closed) => return Err(TransportFault::Closed),
                Some(Chunk::Opened) | None => {}
            }
        }
        Err(TransportFault::Silent)
    }

    // Hands a line to the thread that writes, once that thread has taken the line before.
    fn hand_over(&mut self, line: RequestLine) -> Result<(), TransportFault> {
        for _ in 0..u64::MAX {
            let Some(wait) = self.patience.next_wait(&self.rt) else {
                return Err(TransportFault::Silent);
            };
            if self.lines.send_timeout(&self.rt, line, wait).is_ok() {
                return Ok(());
            }
        }
        Err(TransportFault::Silent)
    }
}

fn position_after(octets: &[u8], count: usize) -> Position {
    match octets.get(count.saturating_sub(1)) {
        Some(b'\n') => Position::LineStart,
        _ => Position::WithinLine,
    }
}

impl<R: Wait + Clock> Transport for FileTransport<R> {
    ghost moves = { λ _ _ _. Unit {0} };

    fn connect(&mut self) -> Result<Opening, TransportFault> {
        self.patience.begin(&self.rt);
        match self.presence {
            Presence::Present => Ok(Opening::Stayed),
            Presence::Absent => self.open(),
        }
    }

    fn send(&mut self, octets: &[u8]) -> Result<(), TransportFault> {
        let mut line = RequestLine {
            octets: [0; REQUEST_LINE_OCTETS],
            count: octets.len(),
        };
        match line.octets.get_mut(..octets.len()) {
            Some(place) => place.copy_from_slice(octets),
            None => return Err(TransportFault::Silent),
        }
        self.hand_over(line)
    }

    fn receive(&mut self) -> Result<u8, TransportFault> {
        if self.next >= self.count {
            self.fill()?;
        }
        match self.octets.get(self.next) {
            Some(octet) => {
                let octet = *octet;
                self.next += 1;
                Ok(octet)
            }
            None => Err(TransportFault::Closed),
        }
    }
}
