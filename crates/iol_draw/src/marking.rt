//! The marks of what happens in a run, made one after another.

use crate::lines::{ExplainedLines, Lines};
use crate::mark::{Mark, Wait, What};
use crate::port_marks::PortMarks;
use crate::waiting::Waiting;
use iol_engine::Event;
use iol_explain::{ToldCall, place_of};
use iol_journal::Geometry;
use iol_port::PortStatus;
use iol_types::PortId;
use std::alloc::{AllocError, Global};

// The marks so far, and what they are made of.
#[derive(Drop)]
pub(crate) struct Marking<'a> {
    geometry: Geometry,
    told: ExplainedLines<'a>,
    waiting: Waiting,
    pub column: usize,
    pub signs: Vec<Mark>,
    pub waits: Vec<Wait>,
    // ordered by the port's place
    pub ports: Vec<PortMarks<'a>>,
}

impl<'a> Marking<'a> {
    // Starts without marks. Titles are taken from these lines of the explained run.
    pub(crate) fn new(
        alloc: Global,
        geometry: Geometry,
        lines: &'a [&'a str],
    ) -> Result<Marking<'a>, AllocError> {
        Ok(Marking {
            geometry,
            told: ExplainedLines::new(lines),
            waiting: Waiting::new(alloc),
            column: 0,
            signs: Vec::new(alloc),
            waits: Vec::new(alloc),
            ports: ports_of(alloc, geometry)?,
        })
    }

    // Marks a call of the disk.
    pub(crate) fn call(&mut self, call: ToldCall) -> Result<(), AllocError> {
        let said = self.told.call();
        match call {
            ToldCall::Sync => self.add(What::Synced, said),
            ToldCall::Write {
                sector,
                is_gate_open,
            } => {
                let place = place_of(self.geometry.layout(), sector);
                self.add(
                    What::Wrote {
                        place,
                        is_gate_open,
                    },
                    said,
                )
            }
        }
    }

    // Marks an event.
    pub(crate) fn event(&mut self, event: &Event) -> Result<(), AllocError> {
        let said = self.told.event(event);
        match event {
            Event::Accepted { number, .. } => self.accepted(*number, said),
            Event::Refused(_) => self.add(What::Refused, said),
            Event::Page {
                port,
                connection,
                ..
            } => self.page(*port, *connection, said),
            Event::Exchange { port, .. } => self.add(What::Exchange { port: *port }, said),
            Event::Lost { port, .. } => self.add(What::Loss { port: *port }, said),
            Event::Attended { .. } => Ok(()),
            Event::Status { port, status } => self.status(*port, *status, said),
            Event::Acknowledged { number } => self.acknowledged(*number, said),
            Event::DiskFailed => self.add(What::DiskFailed, said),
        }
    }

    // Ends the status of each port here, as nothing more happens.
    pub(crate) fn end(&mut self) -> Result<(), AllocError> {
        for marks in self.ports.iter_mut() {
            marks.end(self.column)?;
        }
        Ok(())
    }

    // Adds a mark, and goes to the next column.
    fn add(&mut self, what: What, said: Lines) -> Result<(), AllocError> {
        self.signs.push(Mark {
            what,
            column: self.column,
            said,
        })?;
        self.column = self.column.saturating_add(1);
        Ok(())
    }

    fn accepted(&mut self, number: u64, said: Lines) -> Result<(), AllocError> {
        self.waiting.accept(number, self.column)?;
        self.add(What::Accepted { number }, said)
    }

    fn acknowledged(&mut self, number: u64, said: Lines) -> Result<(), AllocError> {
        let column = self.column;
        self.waiting.acknowledge(number, column, &mut self.waits)?;
        self.add(What::Acknowledged, said)
    }

    fn page(&mut self, port: PortId, connection: u64, said: Lines) -> Result<(), AllocError> {
        let numbers = self.told.numbers(said);
        if let Some(marks) = self.ports.get_mut(port.place()) {
            marks.find(connection, numbers, self.column)?;
        }
        self.add(What::Page { port }, said)
    }

    // Gives a port another status from here on, which takes a column.
    fn status(&mut self, port: PortId, status: PortStatus, said: Lines) -> Result<(), AllocError> {
        if let Some(marks) = self.ports.get_mut(port.place()) {
            marks.begin(status, self.column, said)?;
        }
        self.column = self.column.saturating_add(1);
        Ok(())
    }
}

// Makes the ports of a geometry, of which nothing is shown yet.
fn ports_of<'a>(alloc: Global, geometry: Geometry) -> Result<Vec<PortMarks<'a>>, AllocError> {
    let mut ports = Vec::new(alloc);
    for number in 1..=geometry.ports() {
        if let Some(port) = PortId::new(number) {
            ports.push(PortMarks::new(alloc, port))?;
        }
    }
    Ok(ports)
}
