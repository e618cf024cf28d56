//! Draws each sign in its column and lane, with its title, and the waits of commands between signs.

use crate::layout::{ACCEPTED_TOP, ACKNOWLEDGED_TOP, Layout};
use crate::lines::write_title;
use crate::mark::{Mark, Wait, What};
use crate::scale::Scale;
use crate::sign::write_sign;
use std::fmt;

// The distance from the sign of a command up to its number, and the distance from signs to the line of a wait.
const NUMBER: usize = 9;

const FROM_SIGN: usize = 6;

pub(crate) fn write_signs<W: fmt::Write>(
    f: &mut fmt::Formatter<W>,
    layout: &Layout,
    lines: &[&str],
    signs: &[Mark],
) -> fmt::Result {
    for mark in signs {
        write_mark(f, layout, lines, *mark)?;
    }
    Ok(())
}

fn write_mark<W: fmt::Write>(
    f: &mut fmt::Formatter<W>,
    layout: &Layout,
    lines: &[&str],
    mark: Mark,
) -> fmt::Result {
    let left = layout.scale.left(mark.column);
    write_sign(f, mark.what.sign(), left, layout.top(mark.what))?;
    write_title(f, lines, mark.said)?;
    f.write_str("</path>\n")?;
    match mark.what {
        What::Accepted { number } if layout.scale.has_numbers() => write_number(f, number, left),
        _ => Ok(()),
    }
}

// Writes the number of a command that is accepted.
fn write_number<W: fmt::Write>(f: &mut fmt::Formatter<W>, number: u64, left: usize) -> fmt::Result {
    let top = ACCEPTED_TOP - NUMBER;
    writeln!(
        f,
        "<text class='number' x='{left}' y='{top}' font-size='9' text-anchor='middle'>{number}</text>"
    )
}

pub(crate) fn write_waits<W: fmt::Write>(
    f: &mut fmt::Formatter<W>,
    scale: Scale,
    waits: &[Wait],
) -> fmt::Result {
    for wait in waits {
        write_wait(f, scale, *wait)?;
    }
    Ok(())
}

// Writes a line from below the sign of a command to above that of its acknowledgement, so that no sign is struck through.
fn write_wait<W: fmt::Write>(f: &mut fmt::Formatter<W>, scale: Scale, wait: Wait) -> fmt::Result {
    let (number, from, to) = (wait.number, scale.left(wait.from), scale.left(wait.to));
    let (top, bottom) = (ACCEPTED_TOP + FROM_SIGN, ACKNOWLEDGED_TOP - FROM_SIGN);
    write!(
        f,
        "<line class='durable' x1='{from}' y1='{top}' x2='{to}' y2='{bottom}' stroke='black'>"
    )?;
    writeln!(
        f,
        "<title>command {number} waits for the disk</title></line>"
    )
}
