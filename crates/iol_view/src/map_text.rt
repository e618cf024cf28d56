//! A map as text (docs/FORMATS.md, "Maps").
ghost use Rattle.std.specs.Prelude.{◌≡◌};
ghost use Rattle.std.specs.Fmt.{WritesOnOk};
ghost use Rattle.iol_view.specs.Map.{damage_text, front_text, lines_text};

use crate::map_lines::{Line, Part, Span};
use crate::map_outcome::Outcome;
use std::fmt;

// A map of a disk: the number of its sectors, the outcome of its recovery, and its lines.
#[derive(Drop)]
pub(crate) struct Map {
    pub sectors: usize,
    pub outcome: Outcome,
    pub lines: Vec<Line>,
}

impl fmt::Display for Map {
    ghost use Rattle.std.specs.Prelude.{Some};
    ghost use Rattle.iol_view.specs.Map.{map_text};

    ghost output = { λ told. Some (map_text told.sectors told.outcome told.lines.items) };

    fn fmt<W: fmt::Write>(&self, f: &mut fmt::Formatter<W>) -> fmt::Result {
        let sectors = self.sectors;
        writeln!(f, "sectors {sectors}\n{}", self.outcome)?;
        write_lines(f, &self.lines)
    }
}

// Writes lines, each with its line feed.
fn write_lines<W: fmt::Write>(f: &mut fmt::Formatter<W>, lines: &[Line]) -> fmt::Result
    ensures { WritesOnOk W.write_str_gives f.old result (lines_text lines.now) f.new }
{
    for line in lines {
        writeln!(f, "{line}")?;
    }
    Ok(())
}

impl fmt::Display for Outcome {
    ghost use Rattle.std.specs.Prelude.{Some};
    ghost use Rattle.iol_view.specs.Map.{outcome_text};

    ghost output = { λ told. Some (outcome_text told) };

    fn fmt<W: fmt::Write>(&self, f: &mut fmt::Formatter<W>) -> fmt::Result {
        match self {
            Outcome::Recovered { number } => write!(f, "recovered {number}"),
            Outcome::NotFormatted => f.write_str("not recovered: the disk is not formatted"),
            Outcome::TooSmall => f.write_str("not recovered: the disk is too small"),
            Outcome::Damaged { sector } => {
                write!(f, "not recovered: damaged at sector {sector}")
            }
        }
    }
}

// Writes the line without its line feed.
impl fmt::Display for Line {
    ghost use Rattle.std.specs.Prelude.{Some};
    ghost use Rattle.iol_view.specs.Map.{line_text};

    ghost output = { λ line. Some (line_text line) };

    fn fmt<W: fmt::Write>(&self, f: &mut fmt::Formatter<W>) -> fmt::Result {
        write_front(f, self)?;
        let text = self.text.as_str();
        let damage = damage_text(self.damaged);
        write!(f, "{text}{damage}")
    }
}

// Writes the part of a disk that a line shows, and its sectors.
pub(crate) fn write_front<W: fmt::Write>(f: &mut fmt::Formatter<W>, line: &Line) -> fmt::Result
    ensures { WritesOnOk W.write_str_gives f.old result (front_text line.now) f.new }
{
    let part = PartText {
        part: line.part,
        numbers: line.numbers,
    };
    let sectors = SpanText {
        word: "sector",
        span: line.sectors,
    };
    write!(f, "{part}{sectors}: ")
}

// Returns the end of a line, which has words if a recovery ends at its sectors.
pub(crate) fn damage_text(damaged: bool) -> &'static str
    ensures { result.now ≡ damage_text damaged }
{
    if damaged {
        ", damaged: a recovery ends here"
    } else {
        ""
    }
}

// The part of a disk that a line shows, as it is written before the sectors.
#[derive(Clone, Copy)]
struct PartText {
    part: Part,
    numbers: Span,
}

impl fmt::Display for PartText {
    ghost use Rattle.std.specs.Prelude.{Some};
    ghost use Rattle.iol_view.specs.Map.{part_text};

    ghost output = { λ text. Some (part_text text.part text.numbers) };

    fn fmt<W: fmt::Write>(&self, f: &mut fmt::Formatter<W>) -> fmt::Result {
        let span = self.numbers;
        match self.part {
            Part::Alone => Ok(()),
            Part::AreaA => f.write_str("area A, "),
            Part::AreaB => f.write_str("area B, "),
            Part::Port => write!(f, "  {}, ", SpanText { word: "port", span }),
            Part::Slot => write!(f, "  {}, ", SpanText { word: "slot", span }),
            Part::Unused => f.write_str("  "),
        }
    }
}

// A word with a number, or with the first and the last of several.
#[derive(Clone, Copy)]
pub(crate) struct SpanText {
    pub word: &'static str,
    pub span: Span,
}

impl fmt::Display for SpanText {
    ghost use Rattle.std.specs.Prelude.{Some};
    ghost use Rattle.iol_view.specs.Map.{span_text};

    ghost output = { λ text. Some (span_text text.word.now text.span) };

    fn fmt<W: fmt::Write>(&self, f: &mut fmt::Formatter<W>) -> fmt::Result {
        let word = self.word;
        let Span { first, last } = self.span;
        if self.span.is_one() {
            write!(f, "{word} {first}")
        } else {
            write!(f, "{word}s {first} to {last}")
        }
    }
}
