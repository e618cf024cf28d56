//! Draws the sectors of a line of a map as cells in SVG. Gates are shown by their shapes, and so is damage.

use crate::map_lines::{Cells, Gate};
use std::fmt;

// The distance between cells, in units of the picture.
const CELL_STEP: usize = 12;

// Writes the gate in the first place, then the sectors that are used, then those that are not.
pub(crate) fn write_cells<W: fmt::Write>(f: &mut fmt::Formatter<W>, cells: Cells) -> fmt::Result {
    if let Some(gate) = cells.gate {
        write_gate(f, gate)?;
    }
    write_sectors(f, 1, cells.used, "black")?;
    write_sectors(f, cells.used.saturating_add(1), cells.unused, "white")
}

// Writes a square, with a ring in it if the gate is open, and with a cross if it is closed.
fn write_gate<W: fmt::Write>(f: &mut fmt::Formatter<W>, gate: Gate) -> fmt::Result {
    f.write_str("<rect width='10' height='10' fill='white' stroke='black'/>")?;
    match gate {
        Gate::Open => f.write_str("<circle cx='5' cy='5' r='3' fill='none' stroke='black'/>"),
        Gate::Closed => f.write_str("<path d='M0 0l10 10M10 0l-10 10' stroke='black'/>"),
    }
}

// Writes `count` sectors from place `first` on, each as a square.
fn write_sectors<W: fmt::Write>(
    f: &mut fmt::Formatter<W>,
    first: usize,
    count: usize,
    fill: &str,
) -> fmt::Result {
    for place in 0..count {
        let left = CELL_STEP.saturating_mul(first.saturating_add(place));
        write!(
            f,
            "<rect x='{left}' width='10' height='10' fill='{fill}' stroke='black'/>"
        )?;
    }
    Ok(())
}

// Writes a dashed frame around a gate and `sectors` sectors, which marks damage.
pub(crate) fn write_frame<W: fmt::Write>(f: &mut fmt::Formatter<W>, sectors: usize) -> fmt::Result {
    let wide = CELL_STEP
        .saturating_mul(sectors.saturating_add(1))
        .saturating_add(4);
    write!(
        f,
        "<rect x='-3' y='-3' width='{wide}' height='16' fill='none' stroke='black' "
    )?;
    f.write_str("stroke-width='2' stroke-dasharray='4 2'/>")
}
