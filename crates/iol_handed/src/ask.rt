//! The requests to a session, and its answers.

use crate::flash::UnknownFlash;
use crate::found::FoundJournal;
use crate::opening::Opening;
use arrayvec::ArrayVec;
use iol_core::SubmitFault;
use iol_disk::SECTOR_OCTETS;
use iol_journal::RecoverCause;
use iol_link::{ISDU_OCTETS, PAGE_OCTETS};
use iol_port::PortStatus;
use iol_types::{Change, Key, MOST_ENTRY_OCTETS, PortConfig, PortId};

/// A request to a session.
#[derive(Drop)]
pub enum Ask {
    /// Submits a client's change.
    Submit(Change),
    /// Asks which call of the disk is wanted.
    DiskNext,
    /// Reports that the sync or the write in hand was made, or that the call in hand has failed.
    DiskDone(bool),
    /// Hands in the octets of the sector in hand, which was read.
    DiskRead([u8; SECTOR_OCTETS]),
    /// Makes a request about a port.
    Port(PortId, PortAsk),
    /// Asks for the status of a port.
    Status(PortId),
    /// Asks for the numbers of the last durable and of the last accepted command.
    Numbers,
    /// Asks for the durable state of a port.
    View(PortId),
    /// Asks for an entry of a stored set, counted from 0.
    Entry(PortId, WhichSet, usize),
    /// Opens a flash, from its beginning or further on.
    Open(Opening<UnknownFlash>),
    /// Ends the session.
    End,
}

/// A request about a port.
#[derive(Drop)]
pub enum PortAsk {
    /// Asks what the port wants of its device.
    Next,
    /// Has the port look again.
    Wake,
    /// Hands in the page of its device.
    Page([u8; PAGE_OCTETS]),
    /// Hands in the answer of its device.
    Answer(ArrayVec<u8, ISDU_OCTETS>),
    /// Reports that its device is gone.
    Lost,
    /// Reports an event of its device.
    Event(u16),
}

/// One of the two sets of a port.
#[derive(Clone, Copy, PartialEq, Eq)]
pub enum WhichSet {
    Present,
    Previous,
}

/// The size of a stored set, and its checksum.
#[derive(Clone, Copy)]
pub struct SetView {
    pub entries: usize,
    pub octets: usize,
    pub checksum: u32,
}

/// The durable state of a port.
#[derive(Clone, Copy)]
pub struct View {
    pub config: PortConfig,
    pub revision: u64,
    pub present: Option<SetView>,
    pub previous: Option<SetView>,
}

/// An answer of a session.
#[derive(Drop)]
pub enum SessionAnswer {
    /// The session has no master.
    Closed,
    /// The session's flash is still being opened.
    Opening,
    /// The flash has no usable journal; the session is closed.
    NotOpened(RecoverCause),
    /// The journal was found; the session is closed until a master is begun with it.
    Found(FoundJournal<UnknownFlash>),
    /// Out of memory: nothing changed, and the request may be made again.
    Memory,
    /// A call of the disk has failed: no more calls are wanted.
    Stopped,
    /// The request does not fit what is waited for.
    Misfit,
    /// The master does not have this port.
    Absent,
    /// The request was carried out.
    Done,
    /// Something was done, and the request is to be made again.
    Again,
    /// There is nothing to do, or the set has no such entry.
    Nothing,
    /// The disk is to be synced.
    Sync,
    /// This sector is to be read.
    Read(usize),
    /// These octets are to be written to this sector.
    Write(usize, [u8; SECTOR_OCTETS]),
    /// The page of the device is to be read.
    Page,
    /// This request is to be sent to the device.
    Request(ArrayVec<u8, ISDU_OCTETS>),
    /// The change was accepted under this number.
    Accepted(u64),
    /// The change was refused.
    Refused(SubmitFault),
    /// The status of a port.
    Status(PortStatus),
    /// The numbers of the last durable and of the last accepted command.
    Numbers(u64, u64),
    /// The durable state of a port.
    View(View),
    /// An entry of a stored set.
    Entry(Key, ArrayVec<u8, MOST_ENTRY_OCTETS>),
}
