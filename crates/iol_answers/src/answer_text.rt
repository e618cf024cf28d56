//! The lines of an answer in words (docs/FORMATS.md, "Lines of a serving master").
ghost use Rattle.std.specs.Prelude.{◌≡◌, IfOk, string_bytes};
ghost use Rattle.std.specs.Fmt.{WritesOnOk};
ghost use Rattle.std.specs.List.{flat_map};
ghost use Rattle.iol_texts.specs.Recovered.{port_text};
ghost use Rattle.iol_answers.specs.AnswerLines.{answer_lines, help_lines, refused_line, report_line};

use crate::answer::RequestAnswer;
use crate::help::help_texts;
use crate::refusal::Refusal;
use crate::report::PortReport;
use iol_texts::PortText;
use iol_types::{PortId, PortState};
use std::alloc::{AllocError, Global};
use std::fmt;

/// The lines of an answer, each with its line feed.
///
/// # Errors
/// `AllocError` if it is out of memory.
pub fn answer_words(alloc: Global, answer: &RequestAnswer) -> Result<String, AllocError>
    ensures { IfOk result (λ text. string_bytes text ≡ answer_lines answer.now) }
{
    answer.to_string(alloc)
}

impl fmt::Display for RequestAnswer<'_> {
    ghost use Rattle.std.specs.Prelude.{Some};
    ghost use Rattle.iol_answers.specs.AnswerLines.{answer_lines};

    ghost output = { λ answer. Some (answer_lines answer) };

    fn fmt<W: fmt::Write>(&self, f: &mut fmt::Formatter<W>) -> fmt::Result {
        match self {
            RequestAnswer::Receipt(number) => writeln!(f, "receipt {number}"),
            RequestAnswer::Refused(refusal) => write_refused(f, *refusal),
            RequestAnswer::Port { port, state } => write_port(f, *port, state),
            RequestAnswer::Statuses(reports) => write_reports(f, reports),
            RequestAnswer::Wrong(mistake) => writeln!(f, "wrong: {mistake}"),
            RequestAnswer::Help => write_help(f),
        }
    }
}

// Writes the line of a refusal.
fn write_refused<W: fmt::Write>(f: &mut fmt::Formatter<W>, refusal: Refusal) -> fmt::Result
    ensures { WritesOnOk W.write_str_gives f.old result (refused_line refusal) f.new }
{
    let (name, words) = (refusal.name(), refusal.words());
    writeln!(f, "refused {name} # {words}")
}

// Writes the lines of a port that was read.
fn write_port<W: fmt::Write>(
    f: &mut fmt::Formatter<W>,
    port: PortId,
    state: &PortState,
) -> fmt::Result
    ensures { WritesOnOk W.write_str_gives f.old result (port_text port state.now) f.new }
{
    write!(f, "{}", PortText { port, state })
}

// Writes the lines of the ports whose statuses were requested, in order.
fn write_reports<W: fmt::Write>(f: &mut fmt::Formatter<W>, reports: &[PortReport]) -> fmt::Result
    ensures { WritesOnOk W.write_str_gives f.old result (flat_map report_line reports.now) f.new }
{
    for report in reports {
        write!(f, "{report}")?;
    }
    Ok(())
}

// Writes a line for each request.
fn write_help<W: fmt::Write>(f: &mut fmt::Formatter<W>) -> fmt::Result
    ensures { WritesOnOk W.write_str_gives f.old result help_lines f.new }
{
    for text in help_texts() {
        writeln!(f, "{text}")?;
    }
    Ok(())
}
