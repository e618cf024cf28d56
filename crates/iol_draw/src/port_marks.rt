//! What a picture shows of a port besides signs: its statuses, and the devices that it finds.

use crate::lines::Lines;
use crate::mark::{Arrival, Bar, Device};
use iol_port::PortStatus;
use iol_types::PortId;
use std::alloc::{AllocError, Global};

#[derive(Drop)]
pub(crate) struct PortMarks<'a> {
    pub port: PortId,
    pub bars: Vec<Bar>,
    pub devices: Vec<Device<'a>>,
    // the status that it has, which ends later
    has: Option<Bar>,
    // the device that it has found last
    found: Option<DrawnDevice<'a>>,
}

// A device that was found: the connection of its link, and its numbers.
#[derive(Clone, Copy)]
struct DrawnDevice<'a> {
    connection: u64,
    numbers: &'a str,
}

impl<'a> PortMarks<'a> {
    pub(crate) fn new(alloc: Global, port: PortId) -> PortMarks<'a> {
        PortMarks {
            port,
            bars: Vec::new(alloc),
            devices: Vec::new(alloc),
            has: None,
            found: None,
        }
    }

    // Gives the port this status from this column on.
    pub(crate) fn begin(
        &mut self,
        status: PortStatus,
        column: usize,
        said: Lines,
    ) -> Result<(), AllocError> {
        self.end(column)?;
        self.has = Some(Bar {
            status,
            from: column,
            to: column,
            said,
        });
        Ok(())
    }

    // Ends the port's status in this column.
    pub(crate) fn end(&mut self, column: usize) -> Result<(), AllocError> {
        if let Some(bar) = self.has {
            self.bars.push(Bar {
                status: bar.status,
                from: bar.from,
                to: column,
                said: bar.said,
            })?;
        }
        Ok(())
    }

    // Notes that the port has read a page with these numbers. The device is shown if its connection or its numbers differ from
    // those of the one before.
    pub(crate) fn find(
        &mut self,
        connection: u64,
        numbers: &'a str,
        column: usize,
    ) -> Result<(), AllocError> {
        let before = self.found;
        let arrival = match before {
            Some(found) if found.connection == connection && found.numbers == numbers => {
                return Ok(());
            }
            Some(_) => Arrival::Anew,
            None => Arrival::First,
        };
        self.found = Some(DrawnDevice {
            connection,
            numbers,
        });
        self.devices.push(Device {
            column,
            numbers,
            arrival,
        })?;
        Ok(())
    }
}
