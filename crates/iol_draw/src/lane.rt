//! The lane of a port has, from top to bottom, the words of short statuses, the bars of statuses, signs, and
//! devices.

use crate::labels::Labels;
use crate::look::look_of;
use crate::mark::{Bar, Device};
use crate::note::{INSET, Note, Notes, Said};
use crate::port_marks::PortMarks;
use crate::scale::{LETTER, Scale};
use iol_types::{Label, PortId};
use std::alloc::{AllocError, Global};

// The distance from the top of a lane to the end of its bars, if no words are above them.
const BARS: usize = 21;
// The distances from the bars down to the signs, and to the first row of devices.
const SIGNS: usize = 9;

const DEVICES: usize = 27;
// The distance from the bars to the end of the lane, if there are no devices.
const REST: usize = 18;

#[derive(Drop)]
pub(crate) struct Lane<'a> {
    pub port: PortId,
    pub label: Label,
    pub top: usize,
    pub bars: Vec<Bar>,
    pub words: Notes<'a>,
    pub devices: Notes<'a>,
}

impl<'a> Lane<'a> {
    // Makes the lane of a port that begins at this height.
    pub(crate) fn of(
        alloc: Global,
        scale: Scale,
        labels: &Labels,
        top: usize,
        marks: PortMarks<'a>,
    ) -> Result<Lane<'a>, AllocError> {
        let words = Notes::of(words_beside(alloc, scale, &marks.bars)?);
        let devices = Notes::of(devices_below(alloc, scale, &marks.devices)?);
        let PortMarks { port, bars, .. } = marks;
        Ok(Lane {
            port,
            label: labels.of_port(port),
            top,
            bars,
            words,
            devices,
        })
    }

    // Returns the height at which its bars end.
    pub(crate) fn bars_bottom(&self) -> usize {
        self.top
            .saturating_add(BARS)
            .saturating_add(self.words.height())
    }

    // Returns the height of its signs.
    pub(crate) fn signs(&self) -> usize {
        self.bars_bottom().saturating_add(SIGNS)
    }

    // Returns the height of the texts of its first row of devices.
    pub(crate) fn devices_top(&self) -> usize {
        self.bars_bottom().saturating_add(DEVICES)
    }

    // Returns the height at which it ends.
    pub(crate) fn bottom(&self) -> usize {
        self.bars_bottom()
            .saturating_add(REST)
            .saturating_add(self.devices.height())
    }

    // Returns how far its texts reach to the right.
    pub(crate) fn right(&self) -> usize {
        self.words.right().max(self.devices.right())
    }
}

// Returns whether the words of a status fit into its bar.
pub(crate) fn has_room(scale: Scale, bar: Bar) -> bool {
    let width = scale.right(bar.to).saturating_sub(scale.left(bar.from));
    let letters = look_of(bar.status).letters;
    LETTER.saturating_mul(letters).saturating_add(2 * INSET) <= width
}

// Returns the words that do not fit into their bars. There are none if columns are too near one another for them.
fn words_beside<'a>(
    alloc: Global,
    scale: Scale,
    bars: &[Bar],
) -> Result<Vec<Note<'a>>, AllocError> {
    let mut notes = Vec::new(alloc);
    for bar in bars {
        if scale.has_words() && !has_room(scale, *bar) {
            notes.push(Note {
                left: scale.left(bar.from),
                row: 0,
                said: Said::Status(bar.status),
            })?;
        }
    }
    Ok(notes)
}

// Returns the devices, each at the page by which it was found.
fn devices_below<'a>(
    alloc: Global,
    scale: Scale,
    devices: &[Device<'a>],
) -> Result<Vec<Note<'a>>, AllocError> {
    let mut notes = Vec::new(alloc);
    for device in devices {
        notes.push(Note {
            left: scale.left(device.column),
            row: 0,
            said: Said::Device(*device),
        })?;
    }
    Ok(notes)
}
