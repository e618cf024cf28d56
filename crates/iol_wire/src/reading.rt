//! Reads the lines of a driver.

ghost use Rattle.std.specs.Prelude.{◌≡◌, ◌∷◌, Some, None, List, ℕ, length, IfSome, IfNone};
ghost use Rattle.std.specs.Option.{option_map};
ghost use Rattle.iol_wire.specs.Words.{words};
ghost use Rattle.iol_wire.specs.Numeral.{numeral};
ghost use Rattle.iol_wire.specs.Lines.{meaning, event_line, answer_line, page_of, reply_of, octets_within, without_return};

use crate::line::{Line, Reply};
use crate::numeral::{DECIMAL, event_code, numeral, octet};
use crate::words::first_word;
use arrayvec::ArrayVec;
use iol_link::{ISDU_OCTETS, PAGE_OCTETS};

/// The most octets of a line before its line feed. The longest answer has 740.
pub const LINE_OCTETS: usize = 800;

/// The octet that is dropped before a line feed, an ASCII carriage return.
pub(crate) const CARRIAGE_RETURN: u8 = b'\r';

/// The meaning of a line, given without its line feed.
pub fn read_line(line: &[u8]) -> Line
    ensures { result ≡ meaning line.now }
{
    let Some((first, rest)) = first_word(without_return(line)) else {
        return Line::Malformed;
    };
    let Some((second, rest)) = first_word(rest) else {
        return Line::Malformed;
    };
    if first == b"event".as_slice() {
        return event_line(second, rest);
    }
    answer_line(first, second, rest)
}

fn without_return(line: &[u8]) -> &[u8]
    ensures { result.now ≡ without_return line.now }
{
    match line.split_last() {
        Some((last, front)) if *last == CARRIAGE_RETURN => front,
        _ => line,
    }
}

fn event_line(code: &[u8], rest: &[u8]) -> Line
    ensures { result ≡ event_line code.now (words rest.now) }
{
    match (event_code(code), first_word(rest)) {
        (Some(code), None) => Line::Event(code),
        _ => Line::Malformed,
    }
}

fn answer_line(number: &[u8], kind: &[u8], rest: &[u8]) -> Line
    ensures { result ≡ answer_line (numeral DECIMAL number.now) (reply_of kind.now (words rest.now)) }
{
    match (numeral(DECIMAL, number), reply(kind, rest)) {
        (Some(number), Some(reply)) => Line::Answer { number, reply },
        _ => Line::Malformed,
    }
}

fn reply(kind: &[u8], rest: &[u8]) -> Option<Reply>
    ensures { result ≡ reply_of kind.now (words rest.now) }
{
    if kind == b"page".as_slice() {
        return page(rest);
    }
    if kind == b"isdu".as_slice() {
        return Some(Reply::Isdu(octets_within::<ISDU_OCTETS>(rest)?));
    }
    if kind == b"lost".as_slice() && first_word(rest).is_none() {
        return Some(Reply::Lost);
    }
    None
}

fn page(rest: &[u8]) -> Option<Reply>
    ensures { result ≡ page_of (words rest.now) }
{
    let octets = octets_within::<PAGE_OCTETS>(rest)?;
    match octets.into_inner() {
        Ok(page) => Some(Reply::Page(page)),
        Err(_) => None,
    }
}

// The octets that the words spell; `None` if a word spells no octet, or if there are more than
// `MOST` words.
fn octets_within<const MOST: usize>(rest: &[u8]) -> Option<ArrayVec<u8, MOST>>
    ensures { option_map (λ octets. octets.items) result ≡ octets_within MOST (words rest.now) }
{
    let mut octets = ArrayVec::new();
    let mut left = rest;
    while let Some((word, more)) = first_word(left) {
        octets.try_push(octet(word)?).ok()?;
        left = more;
    }
    Some(octets)
}
