//! Draws a lane as a light band, on which nothing is struck through, with its name beside it. That of a port has the bars of
//! statuses, and texts at poles.

use crate::escaped::Escaped;
use crate::lane::{Lane, has_room};
use crate::lines::write_title;
use crate::look::look_of;
use crate::mark::Bar;
use crate::note::{INSET, Note, ROW_STEP};
use crate::scale::{EDGE, Scale};
use iol_texts::StatusText;
use std::fmt;

// The distance from the start of a band to the first column.
const FRONT: usize = 8;
// The distances from the lower edge of a bar up to the words in it, and up to the words beside bars.
const INSIDE: usize = 3;

const BESIDE: usize = 20;
// The height of a pole beside bars above the lower edge of its words, and the distance from the sign of a device down to its
// pole.
const LETTER_HEIGHT: usize = 8;

const BELOW_SIGN: usize = 5;
// The distance from the lower edge of bars up to the end of their poles.
const BAR: usize = 12;
// The distance from the name of a port down to its label.
const LABEL: usize = 13;

// Writes the band of a lane from one height to another.
pub(crate) fn write_band<W: fmt::Write>(
    f: &mut fmt::Formatter<W>,
    scale: Scale,
    top: usize,
    bottom: usize,
) -> fmt::Result {
    let left = scale.start().saturating_sub(FRONT);
    let width = scale.end().saturating_sub(left);
    let height = bottom.saturating_sub(top);
    writeln!(
        f,
        "<rect class='band' x='{left}' y='{top}' width='{width}' height='{height}' fill='#f4f4f4'/>"
    )
}

// Writes the name of a lane, or of a row of one.
pub(crate) fn write_name<W: fmt::Write>(
    f: &mut fmt::Formatter<W>,
    top: usize,
    name: &str,
) -> fmt::Result {
    writeln!(f, "<text x='{EDGE}' y='{top}'>{name}</text>")
}

// Writes the lane of a port, without its signs.
pub(crate) fn write_lane<W: fmt::Write>(
    f: &mut fmt::Formatter<W>,
    scale: Scale,
    lines: &[&str],
    lane: &Lane,
) -> fmt::Result {
    write_band(f, scale, lane.top, lane.bottom())?;
    write_port(f, lane)?;
    write_bars(f, scale, lines, lane)?;
    write_words(f, lane)?;
    write_devices(f, lane)
}

// Writes the name of a port, and its label if it has one.
fn write_port<W: fmt::Write>(f: &mut fmt::Formatter<W>, lane: &Lane) -> fmt::Result {
    let number = lane.port.number();
    let top = lane.bars_bottom().saturating_sub(INSIDE);
    writeln!(f, "<text x='{EDGE}' y='{top}'>port {number}</text>")?;
    if lane.label.is_empty() {
        return Ok(());
    }
    let top = top.saturating_add(LABEL);
    let label = Escaped(lane.label.as_str());
    writeln!(
        f,
        "<text class='label' x='{EDGE}' y='{top}' font-size='10'>{label}</text>"
    )
}

fn write_bars<W: fmt::Write>(
    f: &mut fmt::Formatter<W>,
    scale: Scale,
    lines: &[&str],
    lane: &Lane,
) -> fmt::Result {
    for bar in &lane.bars {
        write_bar(f, scale, lines, lane.bars_bottom(), *bar)?;
        if has_room(scale, *bar) {
            write_inside(f, scale, lane.bars_bottom(), *bar)?;
        }
    }
    Ok(())
}

// Writes the bar of a status, which ends at this height.
fn write_bar<W: fmt::Write>(
    f: &mut fmt::Formatter<W>,
    scale: Scale,
    lines: &[&str],
    bottom: usize,
    bar: Bar,
) -> fmt::Result {
    let look = look_of(bar.status);
    let (fill, height) = (look.fill, look.height);
    let (left, top) = (scale.left(bar.from), bottom.saturating_sub(height));
    let width = scale.right(bar.to).saturating_sub(left);
    write!(
        f,
        "<rect class='status' x='{left}' y='{top}' width='{width}' height='{height}' fill='{fill}' stroke='black'>"
    )?;
    write_title(f, lines, bar.said)?;
    f.write_str("</rect>\n")
}

// Writes the words of a status in its bar.
fn write_inside<W: fmt::Write>(
    f: &mut fmt::Formatter<W>,
    scale: Scale,
    bottom: usize,
    bar: Bar,
) -> fmt::Result {
    let (ink, words) = (look_of(bar.status).ink, StatusText(bar.status));
    let left = scale.left(bar.from).saturating_add(INSET);
    let top = bottom.saturating_sub(INSIDE);
    writeln!(
        f,
        "<text class='words' x='{left}' y='{top}' font-size='10' fill='{ink}'>{words}</text>"
    )
}

// Writes the words of statuses above the bars that are too narrow for them.
fn write_words<W: fmt::Write>(f: &mut fmt::Formatter<W>, lane: &Lane) -> fmt::Result {
    for note in &lane.words.notes {
        let rows = ROW_STEP.saturating_mul(note.row);
        let top = lane
            .bars_bottom()
            .saturating_sub(BESIDE)
            .saturating_sub(rows);
        let pole = Pole {
            top: top.saturating_sub(LETTER_HEIGHT),
            bottom: lane.bars_bottom().saturating_sub(BAR),
        };
        write_note(f, "words", note, top, pole)?;
    }
    Ok(())
}

// Writes devices below the pages by which they were found.
fn write_devices<W: fmt::Write>(f: &mut fmt::Formatter<W>, lane: &Lane) -> fmt::Result {
    for note in &lane.devices.notes {
        let rows = ROW_STEP.saturating_mul(note.row);
        let top = lane.devices_top().saturating_add(rows);
        let pole = Pole {
            top: lane.signs().saturating_add(BELOW_SIGN),
            bottom: top,
        };
        write_note(f, "device", note, top, pole)?;
    }
    Ok(())
}

// The pole of a text, from one height to another.
#[derive(Clone, Copy)]
struct Pole {
    top: usize,
    bottom: usize,
}

// Writes a text of this class at its pole.
fn write_note<W: fmt::Write>(
    f: &mut fmt::Formatter<W>,
    class: &str,
    note: &Note,
    top: usize,
    pole: Pole,
) -> fmt::Result {
    let (pole_left, pole_top, pole_bottom) = (note.left, pole.top, pole.bottom);
    writeln!(
        f,
        "<path class='pole' d='M{pole_left} {pole_top}V{pole_bottom}' stroke='#888888' fill='none'/>"
    )?;
    let (left, said) = (note.left.saturating_add(INSET), note.said);
    writeln!(
        f,
        "<text class='{class}' x='{left}' y='{top}' font-size='10'>{said}</text>"
    )
}
