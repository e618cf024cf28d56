//! A running master on an image, and its clients.

ghost use Rattle.std.specs.Prelude.{◌≡◌, []};
ghost use Rattle.iol_flush.specs.Stages.{HasHistory};

use crate::asking::{Asking, ClientAnswer};
use crate::meeting_link::{MeetingLink, Meetings};
use anyhow::bail;
use crossbeam_channel::{Receiver, Sender};
use iol_disk::SectorDisk;
use iol_front::{Front, Name, Pass};
use iol_journal::Journal;
use iol_master::{Client, Ending, Master, Receipt, StartFault};
use iol_sim::SimLink;
use iol_types::MasterState;
use std::alloc::{AllocError, Global};
use std::io::{Input, Write};
use std::marker::Brand;
use std::rt::Stdout;
use std::sync::atomic::AtomicU64;
use std::sync::{Arc, Wait};
use std::thread;
use std::thread::{JoinHandle, Threads};
use std::time::Clock;

/// Runs a master on a disk with these links and a client for each word, and returns the disk. Prints each answer as it comes,
/// then the count of the last receipt's pass once each pass has met the one before, and then how the master ends.
pub(crate) fn play_clients<
    D: SectorDisk + Drop + Send + 'static,
    R: Threads + Wait + Clock + Input + Copy + Send + 'static,
>(
    rt: &R,
    alloc: Global,
    disk: D,
    links: Vec<MeetingLink<SimLink>>,
    words: &[String],
    out: &mut Stdout,
) -> anyhow::Result<D> {
    let (journal, state) = match Journal::recover(alloc, disk) {
        Ok(found) => found,
        Err(_) => bail!("no recovery"),
    };
    let front = Front::new(alloc, journal.number(), &state)?;
    play::<D, Brand, R>(rt, alloc, front, journal, state, links, words, out)
}

/// Makes this number of links, at which no device ever is.
pub(crate) fn empty_links(alloc: Global, count: u8) -> anyhow::Result<Vec<SimLink>> {
    let mut links = Vec::new(alloc);
    for _link in 0..count {
        links.push(SimLink::new(Vec::new(alloc)))?;
    }
    Ok(links)
}

/// Makes links of these, none of which gives a page before `least` pages were requested, or answers a request before `least`
/// requests were made.
pub(crate) fn meeting(
    alloc: Global,
    links: Vec<SimLink>,
    least: u64,
) -> anyhow::Result<Vec<MeetingLink<SimLink>>> {
    let meetings = Meetings {
        pages: AtomicU64::new(0),
        requests: AtomicU64::new(0),
    };
    let asked = Arc::new(alloc, meetings)?;
    let mut made = Vec::new(alloc);
    for link in links {
        made.push(MeetingLink {
            link,
            asked: Arc::try_clone(&asked)?,
            least,
        })?;
    }
    Ok(made)
}

// Runs a master until its clients have ended.
fn play<
    D: SectorDisk + Drop + Send + 'static,
    F: Name + 'static,
    R: Threads + Wait + Clock + Input + Copy + Send + 'static,
>(
    rt: &R,
    alloc: Global,
    front: Front,
    journal: Journal<D>,
    state: MasterState,
    links: Vec<MeetingLink<SimLink>>,
    words: &[String],
    out: &mut Stdout,
) -> anyhow::Result<D>
    requires name { front ≡ F.front }
    requires state { state ≡ front.start.state }
    requires history { HasHistory front.start [] journal.history }
{
    let publisher = front.publisher::<F>();
    let mut master = match Master::start(rt, alloc, journal, state, publisher, links) {
        Ok(master) => master,
        Err(StartFault::Ports(_)) => bail!("not one link for each port"),
        Err(_) => bail!("no master"),
    };
    if let [words @ .., last] = words
        && last.as_str() == "end"
    {
        return end_beside(rt, alloc, master, words, out);
    }
    let asked = ask::<D, F, R>(rt, alloc, &mut master, words, out);
    let disk = end(rt, master, out)?;
    if asked.is_err() {
        writeln!(out, "not all was asked")?;
    }
    Ok(disk)
}

// Ends the master, prints how it ended, and returns its disk.
fn end<D: SectorDisk + Drop + Send + 'static, F: Name + 'static, R: Threads + Wait>(
    rt: &R,
    master: Master<D, F>,
    out: &mut Stdout,
) -> anyhow::Result<D> {
    match master.shutdown(rt) {
        Ending::Closed(journal, _publisher) => {
            writeln!(out, "closed behind {}", journal.number())?;
            Ok(journal.disk())
        }
        Ending::Unwritten(journal, _publisher) => {
            writeln!(out, "out of memory behind {}", journal.number())?;
            Ok(journal.disk())
        }
        Ending::Faulted(disk, fault) => {
            writeln!(out, "{fault}")?;
            Ok(disk)
        }
    }
}

// Starts a client for each word, and prints their answers.
fn ask<
    D: SectorDisk + Drop + Send + 'static,
    F: Name + 'static,
    R: Threads + Wait + Input + Copy + Send + 'static,
>(
    rt: &R,
    alloc: Global,
    master: &mut Master<D, F>,
    words: &[String],
    out: &mut Stdout,
) -> anyhow::Result<()> {
    let (told, heard) = crossbeam_channel::unbounded(alloc)?;
    let (granted, receipts) = crossbeam_channel::unbounded(alloc)?;
    let ends = Ends {
        told,
        granted,
        receipts,
    };
    let clients = start_all(rt, alloc, master, words, &ends)?;
    let receipts = ends.receipts();
    hear(rt, &heard, out)?;
    join_all(rt, clients);
    writeln!(out, "met at {}", meet_all(rt, &receipts))?;
    Ok(())
}

// Starts a client for each word, ends the master while they make their calls, and prints their answers.
fn end_beside<
    D: SectorDisk + Drop + Send + 'static,
    F: Name + 'static,
    R: Threads + Wait + Input + Copy + Send + 'static,
>(
    rt: &R,
    alloc: Global,
    mut master: Master<D, F>,
    words: &[String],
    out: &mut Stdout,
) -> anyhow::Result<D> {
    let (told, heard) = crossbeam_channel::unbounded(alloc)?;
    let (granted, receipts) = crossbeam_channel::unbounded(alloc)?;
    let ends = Ends {
        told,
        granted,
        receipts,
    };
    let clients = start_all(rt, alloc, &mut master, words, &ends)?;
    let _receipts = ends.receipts();
    let disk = end(rt, master, out)?;
    hear(rt, &heard, out)?;
    join_all(rt, clients);
    Ok(disk)
}

// What clients share: the channels for their answers, for their receipts, and for the receipts of other clients.
#[derive(Drop)]
struct Ends<F: Name> {
    told: Sender<ClientAnswer, Global>,
    granted: Sender<Receipt<F>, Global>,
    receipts: Receiver<Receipt<F>, Global>,
}

impl<F: Name> Ends<F> {
    // Makes what the client with this number makes its calls with.
    fn asking(&self, number: usize, client: Client<F>) -> Result<Asking<F>, AllocError> {
        Ok(Asking {
            number,
            told: self.told.clone()?,
            granted: self.granted.clone()?,
            receipts: self.receipts.clone()?,
            client,
        })
    }

    // Returns the receiver of the receipts. The other ends are dropped, so that the answers end with the last client.
    fn receipts(self) -> Receiver<Receipt<F>, Global> {
        self.receipts
    }
}

// Starts a client for each word, one after another.
fn start_all<
    D: SectorDisk + Drop + Send + 'static,
    F: Name + 'static,
    R: Threads + Wait + Input + Copy + Send + 'static,
>(
    rt: &R,
    alloc: Global,
    master: &mut Master<D, F>,
    words: &[String],
    ends: &Ends<F>,
) -> anyhow::Result<Vec<JoinHandle<()>>> {
    let mut clients = Vec::new(alloc);
    for word in words {
        if word.as_str() == "-" {
            rt.read_line(&mut String::new(alloc))?;
        } else {
            let number = clients.len().saturating_add(1);
            clients.push(start(rt, ends.asking(number, master.client()?)?, word)?)?;
        }
    }
    Ok(clients)
}

// Waits until these clients have ended.
fn join_all<R: Threads>(rt: &R, clients: Vec<JoinHandle<()>>) {
    for client in clients {
        client.join(rt);
    }
}

// Starts a thread in which a client makes the calls of a word.
fn start<F: Name + 'static, R: Threads + Wait + Copy + Send + 'static>(
    rt: &R,
    asking: Asking<F>,
    word: &String,
) -> anyhow::Result<JoinHandle<()>> {
    let rt = *rt;
    let word = word.clone()?;
    let Ok(started) = thread::spawn(&rt, move || asking.ask_all(&rt, word.as_str())) else {
        bail!("no thread")
    };
    Ok(started)
}

// Prints each answer as it comes, until all clients have ended.
fn hear<R: Wait>(
    rt: &R,
    heard: &Receiver<ClientAnswer, Global>,
    out: &mut Stdout,
) -> anyhow::Result<()> {
    for told in heard.iter(rt) {
        writeln!(out, "{told}")?;
        out.flush()?;
    }
    Ok(())
}

// Returns the count of the last receipt's pass, once each pass has met the one before, or 0 if there is no receipt.
fn meet_all<F: Name, R: Wait>(rt: &R, receipts: &Receiver<Receipt<F>, Global>) -> u64 {
    let mut last: Option<Pass<F>> = None;
    for receipt in receipts.iter(rt) {
        let mut pass = receipt.pass;
        if let Some(mut before) = last {
            pass.meet(&mut before);
        }
        last = Some(pass);
    }
    match last {
        Some(pass) => pass.count(),
        None => 0,
    }
}
