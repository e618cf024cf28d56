//! The words for an answer (docs/FORMATS.md, "Explained runs").
ghost use Rattle.std.specs.Prelude.{◌≡◌};
ghost use Rattle.std.specs.Fmt.{WritesOnOk};
ghost use Rattle.iol_link.specs.Reading.{answer_of};
ghost use Rattle.iol_explain.specs.Answers.{read_words, refused_words, unasked, written_well};
ghost use Rattle.iol_explain.specs.Answers.{asks_read, asks_write};

use crate::object::Object;
use crate::request_words::{Asked, asked_by, isdu_fault_words};
use crate::value_words::ValueWords;
use iol_link::{Answer, IsduFault, read_answer};
use iol_texts::ErrorType;
use std::alloc::Global;
use std::fmt;

// The octets of an answer to these octets of a request, in words.
#[derive(Drop)]
pub(crate) struct AnswerWords<'a> {
    pub(crate) alloc: Global,
    pub(crate) request: &'a [u8],
    pub(crate) answer: &'a [u8],
}

impl fmt::Display for AnswerWords<'_> {
    ghost use Rattle.std.specs.Prelude.{Some};
    ghost use Rattle.iol_link.specs.Reading.{answer_of, request_of};
    ghost use Rattle.iol_explain.specs.Answers.{answer_words};
    ghost use Rattle.iol_explain.specs.Requests.{asked_by};

    ghost output = { λ words. Some (answer_words (asked_by (request_of words.request.now)) (answer_of words.answer.now)) };

    fn fmt<W: fmt::Write>(&self, f: &mut fmt::Formatter<W>) -> fmt::Result {
        let asked = asked_by(self.request);
        match answer_in(self.answer) {
            Ok(Answer::ReadOk(octets)) => write_read(f, self.alloc, asked, octets.as_slice()),
            Ok(Answer::WriteOk) => f.write_str(written_well(asked)),
            Ok(Answer::ReadFault { error, additional }) => {
                write_refused(f, asks_read(asked), ErrorType { error, additional })
            }
            Ok(Answer::WriteFault { error, additional }) => {
                write_refused(f, asks_write(asked), ErrorType { error, additional })
            }
            Ok(Answer::Busy) => f.write_str("Device busy: the device has no answer yet"),
            Err(fault) => write!(f, "malformed, {}", isdu_fault_words(fault)),
        }
    }
}

// Reads octets as an answer, or returns their fault.
pub(crate) fn answer_in(octets: &[u8]) -> Result<Answer, IsduFault>
    ensures { result ≡ answer_of octets.now }
{
    read_answer(octets)
}

// Returns the words for an answer to something else than was asked.
fn unasked() -> &'static str
    ensures { result.now ≡ unasked }
{
    "an answer to something else than was asked"
}

// Returns whether the request was a read.
fn asks_read(asked: Asked) -> bool
    ensures { result ≡ asks_read asked }
{
    matches!(asked, Asked::Read(_))
}

// Returns whether the request was a write.
fn asks_write(asked: Asked) -> bool
    ensures { result ≡ asks_write asked }
{
    matches!(asked, Asked::Write(_))
}

// Returns the words for the positive answer to a write.
fn written_well(asked: Asked) -> &'static str
    ensures { result.now ≡ written_well asked }
{
    match asked {
        Asked::Write(_) => "written",
        _ => unasked(),
    }
}

// Writes the words for the positive answer to a read.
fn write_read<W: fmt::Write>(
    f: &mut fmt::Formatter<W>,
    alloc: Global,
    asked: Asked,
    octets: &[u8],
) -> fmt::Result
    ensures { WritesOnOk W.write_str_gives f.old result (read_words asked octets.now) f.new }
{
    match asked {
        Asked::Read(object) => write_value(f, alloc, object, octets),
        _ => f.write_str(unasked()),
    }
}

// Writes the words for the octets of an object that was read.
fn write_value<W: fmt::Write>(
    f: &mut fmt::Formatter<W>,
    alloc: Global,
    object: Object,
    octets: &[u8],
) -> fmt::Result
    ensures { WritesOnOk W.write_str_gives f.old result (read_words (Asked.Read object) octets.now) f.new }
{
    write!(
        f,
        "{}",
        ValueWords {
            alloc,
            object,
            octets
        }
    )
}

// Writes the words for a negative answer, or that it is an answer to something else than was asked.
fn write_refused<W: fmt::Write>(
    f: &mut fmt::Formatter<W>,
    is_asked: bool,
    refusal: ErrorType,
) -> fmt::Result
    ensures { WritesOnOk W.write_str_gives f.old result (refused_words is_asked refusal.error refusal.additional) f.new }
{
    if is_asked {
        write!(f, "refused: {refusal}")
    } else {
        f.write_str(unasked())
    }
}
