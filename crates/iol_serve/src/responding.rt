//! The answers to requests: by a thread for each port, and by a client for the rest.

ghost use Rattle.std.specs.Prelude.{◌≡◌, All, IfNone, IfOk, IfSome};
ghost use Rattle.iol_master.specs.Faults.{IsUnknown};
ghost use Rattle.iol_serve.specs.Reports.{IsReported};

use crate::asking::{PortRequest, Task, answer_all};
use crate::conducting::Unserved;
use crate::hearing::Heard;
use crate::printing::Printer;
use crate::spelling::Spelled;
use crate::waiting::Waiting;
use crossbeam_channel::{Receiver, Sender};
use iol_answers::{PortReport, Refusal, RequestAnswer};
use iol_disk::SectorDisk;
use iol_front::Name;
use iol_master::{Client, Master};
use iol_requests::{Line, Mistake, Request};
use iol_types::{PORTS, PortId};
use std::alloc::{AllocError, Global};
use std::sync::{Arc, Wait};
use std::thread;
use std::thread::{JoinHandle, Threads};
use std::time::Clock;

/// Answers requests: by a thread for each port, and by a client for the rest.
pub(crate) struct Responder<F: Name> {
    client: Client<F>,
    waiting: Arc<Waiting, Global>,
    // the channel to the thread of each port, port 1 first
    requests: Vec<Sender<PortRequest, Global>>,
    threads: Vec<JoinHandle<()>>,
}

impl<F: Name> Responder<F> {
    pub(crate) fn new<D: SectorDisk + Drop + Send + 'static>(
        alloc: Global,
        master: &mut Master<D, F>,
    ) -> Result<Responder<F>, Unserved>
    where
        F: 'static,
    {
        let client = master.client()?;
        let Ok(waiting) = Arc::new(alloc, Waiting::new()) else {
            return Err(Unserved::Memory);
        };
        Ok(Responder {
            client,
            waiting,
            requests: Vec::new(alloc),
            threads: Vec::new(alloc),
        })
    }

    // Starts a thread for each port, port 1 first.
    pub(crate) fn start_all<
        D: SectorDisk + Drop + Send + 'static,
        R: Threads + Wait + Clock + Copy + Send + 'static,
    >(
        &mut self,
        rt: &R,
        alloc: Global,
        master: &mut Master<D, F>,
        ports: u8,
        printer: &Printer,
    ) -> Result<(), Unserved>
    where
        F: 'static,
    {
        for _ in 0..ports {
            self.start_one(rt, alloc, master.client()?, printer.another()?)?;
        }
        Ok(())
    }

    // Starts the thread of the next port.
    fn start_one<R: Threads + Wait + Clock + Copy + Send + 'static>(
        &mut self,
        rt: &R,
        alloc: Global,
        client: Client<F>,
        printer: Printer,
    ) -> Result<(), Unserved>
    where
        F: 'static,
    {
        self.requests.reserve(1)?;
        self.threads.reserve(1)?;
        // At most MOST_WAITING requests wait, of all ports together, so a channel needs memory for few.
        let Ok((requests, asked)) = crossbeam_channel::unbounded(alloc) else {
            return Err(Unserved::Memory);
        };
        let waiting = Arc::try_clone(&self.waiting)?;
        let rt = *rt;
        match thread::spawn(
            &rt,
            move || answer_all(&rt, alloc, client, asked, &printer, &waiting),
        ) {
            Ok(thread) => {
                // Both vectors have capacity for it.
                self.threads.push_reserved(thread);
                self.requests.push_reserved(requests);
                Ok(())
            }
            Err(_) => Err(Unserved::Thread),
        }
    }

    // Has the received requests answered, until no more are to be answered, or nothing can be printed any more.
    pub(crate) fn serve<R: Wait + Clock>(
        &mut self,
        rt: &R,
        alloc: Global,
        heard: &Receiver<Heard, Global>,
        printer: &Printer,
    ) {
        for heard in heard.iter(rt) {
            let goes_on = match heard {
                Heard::Line(line) => self.take(rt, alloc, line.as_slice(), printer),
                Heard::OutOfMemory => {
                    refuse_for_memory(rt, alloc, printer);
                    true
                }
                Heard::Ended | Heard::PrintingFailed => false,
            };
            if !goes_on {
                return;
            }
        }
    }

    // Handles a line. Returns whether more are to be read.
    fn take<R: Wait + Clock>(
        &mut self,
        rt: &R,
        alloc: Global,
        line: &[u8],
        printer: &Printer,
    ) -> bool {
        match Line::read(alloc, line) {
            Ok(Line::Nothing) => {
                printer.blank(rt);
                true
            }
            Ok(
                Line::Asked {
                    id,
                    spelling,
                    request,
                },
            ) => { self.carry_out(rt, alloc, request, Spelled { id, spelling }, printer) }
            Ok(
                Line::Wrong {
                    id,
                    spelling,
                    mistake,
                },
            ) => {
                complain(rt, alloc, &Spelled { id, spelling }, mistake, printer);
                true
            }
            Err(_) => {
                refuse_for_memory(rt, alloc, printer);
                true
            }
        }
    }

    // Has a request answered. Returns whether more are to be read.
    fn carry_out<R: Wait + Clock>(
        &mut self,
        rt: &R,
        alloc: Global,
        request: Request,
        spelled: Spelled,
        printer: &Printer,
    ) -> bool {
        match request {
            Request::Ask(change) => self.hand(rt, alloc, Task::Ask(change), spelled, printer),
            Request::Read(port) => self.hand(rt, alloc, Task::Read(port), spelled, printer),
            Request::Status(asked) => self.tell(rt, alloc, asked, &spelled, printer),
            Request::Help => printer.answer(rt, alloc, &spelled, &RequestAnswer::Help),
            Request::Quit => return false,
        }
        true
    }

    // Hands a request to the thread of its port, once fewer than MOST_WAITING wait.
    fn hand<R: Wait + Clock>(
        &mut self,
        rt: &R,
        alloc: Global,
        task: Task,
        spelled: Spelled,
        printer: &Printer,
    ) {
        match self.requests.get(task.port().place()) {
            Some(requests) => {
                let request = PortRequest {
                    task,
                    spelled,
                    counted: self.waiting.begin(rt),
                };
                if let Err(unsent) = requests.send(rt, request) {
                    let PortRequest {
                        task: _,
                        spelled,
                        counted,
                    } = unsent.into_inner();
                    printer.answer(
                        rt,
                        alloc,
                        &spelled,
                        &RequestAnswer::Refused(Refusal::Memory),
                    );
                    self.waiting.end(rt, counted);
                }
            }
            None => printer.answer(
                rt,
                alloc,
                &spelled,
                &RequestAnswer::Refused(Refusal::UnknownPort),
            ),
        }
    }

    // Answers with the status of a port, or of each.
    fn tell<R: Wait + Clock>(
        &self,
        rt: &R,
        alloc: Global,
        asked: Option<PortId>,
        spelled: &Spelled,
        printer: &Printer,
    ) {
        match asked {
            Some(port) => self.tell_one(rt, alloc, port, spelled, printer),
            None => self.tell_all(rt, alloc, spelled, printer),
        }
    }

    // Answers with the status of a port.
    fn tell_one<R: Wait + Clock>(
        &self,
        rt: &R,
        alloc: Global,
        port: PortId,
        spelled: &Spelled,
        printer: &Printer,
    ) {
        match self.report(rt, port) {
            Some(report) => {
                printer.answer(rt, alloc, spelled, &RequestAnswer::Statuses(&[report]));
            }
            None => printer.answer(
                rt,
                alloc,
                spelled,
                &RequestAnswer::Refused(Refusal::UnknownPort),
            ),
        }
    }

    // Answers with the status of each port.
    fn tell_all<R: Wait + Clock>(
        &self,
        rt: &R,
        alloc: Global,
        spelled: &Spelled,
        printer: &Printer,
    ) {
        match self.reports(rt, alloc) {
            Ok(reports) => printer.answer(
                rt,
                alloc,
                spelled,
                &RequestAnswer::Statuses(reports.as_slice()),
            ),
            Err(_) => printer.answer(rt, alloc, spelled, &RequestAnswer::Refused(Refusal::Memory)),
        }
    }

    // Returns each port and its status, port 1 first.
    fn reports<R: Wait>(&self, rt: &R, alloc: Global) -> Result<Vec<PortReport>, AllocError>
        ensures reported { IfOk result (λ reports. All (IsReported F.front.start) reports.items) }
    {
        let mut reports = Vec::new(alloc);
        for number in 1..=PORTS {
            let report = match PortId::new(number) {
                Some(port) => self.report(rt, port),
                None => None,
            };
            if let Some(report) = report {
                reports.push(report)?;
            }
        }
        Ok(reports)
    }

    // Returns a port and its status, if the master has the port.
    fn report<R: Wait>(&self, rt: &R, port: PortId) -> Option<PortReport>
        ensures port { IfSome result (λ report. report.port ≡ port) }
        ensures reported { IfSome result (IsReported F.front.start) }
        ensures unknown { IfNone result (IsUnknown F.front.start.state port) }
    {
        let status = self.client.status(rt, port)?;
        Some(PortReport { port, status })
    }

    // Ends the threads of the ports, once all requests that were handed to them are answered.
    pub(crate) fn end<R: Threads>(self, rt: &R) {
        let Responder {
            client: _,
            waiting: _,
            requests,
            threads,
        } = self;
        drop(requests);
        for thread in threads {
            thread.join(rt);
        }
    }
}

// Answers a line for which there was no memory.
fn refuse_for_memory<R: Wait + Clock>(rt: &R, alloc: Global, printer: &Printer) {
    printer.answer(
        rt,
        alloc,
        &Spelled::in_words(),
        &RequestAnswer::Refused(Refusal::Memory),
    );
}

// Answers a line that is no request.
fn complain<R: Wait + Clock>(
    rt: &R,
    alloc: Global,
    spelled: &Spelled,
    mistake: Mistake,
    printer: &Printer,
) {
    match format!(in alloc; "{mistake}") {
        Ok(text) => printer.answer(rt, alloc, spelled, &RequestAnswer::Wrong(text.as_str())),
        Err(_) => printer.answer(rt, alloc, spelled, &RequestAnswer::Refused(Refusal::Memory)),
    }
}
