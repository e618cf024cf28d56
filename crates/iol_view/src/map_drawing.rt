//! A map as a picture in SVG: each line of the map, with its sectors before it as cells.

use crate::map_cells::{write_cells, write_frame};
use crate::map_legend::write_legend;
use crate::map_lines::{Line, Part};
use crate::map_text::{Map, damage_text, write_front};
use std::fmt;

// The distance between lines, in units of the picture.
const LINE_STEP: usize = 18;
// The largest width of a letter.
const LETTER: usize = 8;
// The left edge of the texts of lines, after a gate and 17 sectors.
const TEXT_LEFT: usize = 230;
// The largest number of letters that a line has besides its text.
const FRONT_LETTERS: usize = 76;
// The number of lines of the head and the legend, and of the space below the last line.
const OTHER_LINES: usize = 6;

// A map to draw, of an image file with this name.
#[derive(Drop)]
pub(crate) struct Drawing<'a> {
    pub map: &'a Map,
    pub name: &'a str,
}

impl fmt::Display for Drawing<'_> {
    fn fmt<W: fmt::Write>(&self, f: &mut fmt::Formatter<W>) -> fmt::Result {
        let map = self.map;
        write_head(f, width(&map.lines), height(&map.lines))?;
        write_title(f, self)?;
        let (sectors, outcome) = (map.sectors, map.outcome);
        writeln!(f, "<text x='10' y='38'>sectors {sectors}</text>")?;
        writeln!(f, "<text x='10' y='56'>{outcome}</text>")?;
        write_legend(f, &map.lines)?;
        write_lines(f, &map.lines)?;
        f.write_str("</svg>\n")
    }
}

// Writes the title: the name of the file, and the geometry that the first line reports, if it reports one.
fn write_title<W: fmt::Write>(f: &mut fmt::Formatter<W>, drawing: &Drawing<'_>) -> fmt::Result {
    f.write_str("<text x='10' y='20' font-weight='bold'>")?;
    write_escaped(f, drawing.name)?;
    if let Some(geometry) = said_geometry(&drawing.map.lines) {
        write!(f, ", {geometry}")?;
    }
    f.write_str("</text>\n")
}

// Returns the geometry that the first line reports: its text after its first word.
fn said_geometry(lines: &[Line]) -> Option<&str> {
    lines.first()?.text.as_str().strip_prefix("geometry, ")
}

// Returns the width of a picture of these lines.
fn width(lines: &[Line]) -> usize {
    let mut longest = 0;
    for line in lines {
        longest = line.text.len().max(longest);
    }
    let letters = longest.saturating_add(FRONT_LETTERS);
    TEXT_LEFT.saturating_add(LETTER.saturating_mul(letters))
}

// Returns the height of a picture of these lines.
fn height(lines: &[Line]) -> usize {
    LINE_STEP.saturating_mul(lines.len().saturating_add(OTHER_LINES))
}

// Writes the head of a picture of this size, and its background. It is shown as wide as the page, but no wider than its size.
fn write_head<W: fmt::Write>(
    f: &mut fmt::Formatter<W>,
    width: usize,
    height: usize,
) -> fmt::Result {
    f.write_str("<svg xmlns='http://www.w3.org/2000/svg' ")?;
    write!(
        f,
        "width='100%' style='max-width:{width}px' viewBox='0 0 {width} {height}' "
    )?;
    f.write_str("font-family='monospace' font-size='12'>\n")?;
    writeln!(f, "<rect width='{width}' height='{height}' fill='white'/>")
}

// Writes the lines, one below the other.
fn write_lines<W: fmt::Write>(f: &mut fmt::Formatter<W>, lines: &[Line]) -> fmt::Result {
    let mut top = LINE_STEP * (OTHER_LINES - 1);
    for line in lines {
        write_line(f, top, line)?;
        top = top.saturating_add(LINE_STEP);
    }
    Ok(())
}

// Writes a line at this distance from the top. The line of an area has a rule above it.
fn write_line<W: fmt::Write>(f: &mut fmt::Formatter<W>, top: usize, line: &Line) -> fmt::Result {
    write!(f, "<g transform='translate(10 {top})'><title>")?;
    write_words(f, line)?;
    f.write_str("</title>")?;
    if matches!(line.part, Part::AreaA | Part::AreaB) {
        f.write_str("<line x1='-3' y1='-5' x2='1000' y2='-5' stroke='black'/>")?;
    }
    write_cells(f, line.cells)?;
    if line.damaged {
        write_frame(f, line.cells.used.saturating_add(line.cells.unused))?;
    }
    write!(f, "<text x='{TEXT_LEFT}' y='10'>")?;
    write_words(f, line)?;
    f.write_str("</text></g>\n")
}

// Writes the words of a line, which are also the title of its cells.
fn write_words<W: fmt::Write>(f: &mut fmt::Formatter<W>, line: &Line) -> fmt::Result {
    write_front(f, line)?;
    write_escaped(f, line.text.as_str())?;
    f.write_str(damage_text(line.damaged))
}

// Writes a text as XML. A label or a name may have characters that XML escapes, and a name also some that XML does not allow.
fn write_escaped<W: fmt::Write>(f: &mut fmt::Formatter<W>, text: &str) -> fmt::Result {
    for character in text.chars() {
        match character {
            '&' => f.write_str("&amp;")?,
            '<' => f.write_str("&lt;")?,
            '\u{0}'..='\u{1f}' | '\u{fffe}' | '\u{ffff}' => f.write_char(' ')?,
            _ => f.write_char(character)?,
        }
    }
    Ok(())
}
