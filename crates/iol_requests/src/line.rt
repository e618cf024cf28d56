//! Lines of requests (docs/FORMATS.md, "Requests").
ghost use Rattle.std.specs.Prelude.{◌≡◌, ◌<◌, ◌==◌, true, false, slice_index, Some, None, IfOk};
ghost use Rattle.std.specs.List.{list_all};
ghost use Rattle.iol_requests.specs.Words.{is_blank};
ghost use Rattle.iol_requests.specs.Line.{asked_as, id_as, text_of, is_nothing, spelling_of, IfNothing, IfAsked, IfWrong};

use crate::id::Id;
use crate::mistake::{Fault, Mistake};
use crate::object::{Reading, read_json};
use crate::part::column_of;
use crate::quote::is_blank;
use crate::request::Request;
use crate::words::read_words;
use std::alloc::{AllocError, Global};
use std::str;

/// The greatest number of octets of a line before its line feed.
pub const LINE_OCTETS: usize = 4096;

/// How a request is spelled; its answer is spelled the same way.
#[derive(Clone, Copy, Debug, PartialEq, Eq)]
pub enum Spelling {
    /// A verb, and pairs of a key and a value.
    Words,
    /// An object of JSON.
    Json,
}

/// The meaning of a line.
#[derive(Debug, Drop)]
pub enum Line {
    /// It is empty, has only blanks, or begins with `#`; it is not answered.
    Nothing,
    /// It is a request.
    Asked {
        id: Option<Id>,
        spelling: Spelling,
        request: Request,
    },
    /// It is no request. Its id is returned, if it is valid.
    Wrong {
        id: Option<Id>,
        spelling: Spelling,
        mistake: Mistake,
    },
}

impl Line {
    ghost use Rattle.std.specs.Prelude.{◌≡◌, IfOk};
    ghost use Rattle.iol_requests.specs.Line.{IsText, Says, SaysNothing, SaysWrong, IfNothing, IfAsked, IfWrong};
    ghost use Rattle.iol_requests.specs.Line.{id_in, spelling_of, text_of};

    /// Reads the octets of a line, without its line feed. A carriage return at their end is dropped.
    ///
    /// # Errors
    /// `AllocError` if it is out of memory.
    pub fn read(alloc: Global, octets: &[u8]) -> Result<Line, AllocError>
        ensures nothing { IfOk result (λ line. IfNothing line (SaysNothing octets.now)) }
        ensures asked { IfOk result (λ line. IfAsked line
            (λ asking spelling. Says octets.now asking × (spelling ≡ spelling_of (text_of octets.now)))) }
        ensures wrong { IfOk result (λ line. IfWrong line
            (λ id spelling. SaysWrong octets.now × (spelling ≡ spelling_of (text_of octets.now)))) }
        ensures id { IfOk result (λ line. IfWrong line
            (λ id spelling. IsText octets.now → id ≡ id_in (text_of octets.now))) }
    {
        let text = text_of(octets);
        let spelling = spelling_of(text);
        if LINE_OCTETS < octets.len() {
            return Ok(wrong(spelling, None, Fault::TooLong));
        }
        match str::from_utf8(text) {
            Ok(text) => read_text(alloc, text, spelling),
            Err(error) => {
                let column = column_of(text, error.valid_up_to());
                Ok(wrong(spelling, Some(column), Fault::NotUtf8))
            }
        }
    }
}

// Reads a text that is spelled like this.
fn read_text(alloc: Global, text: &str, spelling: Spelling) -> Result<Line, AllocError>
    ensures nothing { IfOk result (λ line. IfNothing line (is_nothing text.now ≡ true)) }
    ensures asked { IfOk result (λ line. IfAsked line
        (λ asking spelled. (is_nothing text.now ≡ false) × (asked_as spelling text.now ≡ Some asking) × (spelled ≡ spelling))) }
    ensures wrong { IfOk result (λ line. IfWrong line
        (λ id spelled. (is_nothing text.now ≡ false) × (asked_as spelling text.now ≡ None) × (spelled ≡ spelling)
        × (id ≡ id_as spelling text.now))) }
{
    if is_nothing(text.as_bytes()) {
        return Ok(Line::Nothing);
    }
    let (id, said) = match spelling {
        Spelling::Words => (None, read_words(alloc, text)?),
        Spelling::Json => {
            let Reading { id, said } = read_json(alloc, text)?;
            (id, said)
        }
    };
    match said {
        Ok(request) => Ok(Line::Asked {
            id,
            spelling,
            request,
        }),
        Err(mistake) => Ok(Line::Wrong {
            id,
            spelling,
            mistake,
        }),
    }
}

// Returns a wrong line without an id.
fn wrong(spelling: Spelling, column: Option<usize>, fault: Fault) -> Line
    ensures { result ≡ Line.Wrong None spelling (record { column = column; fault = fault }) }
{
    Line::Wrong {
        id: None,
        spelling,
        mistake: Mistake { column, fault },
    }
}

// Returns the text of a line, without a carriage return at its end.
fn text_of(octets: &[u8]) -> &[u8]
    ensures { result.now ≡ text_of octets.now }
{
    match octets {
        [text @ .., b'\r'] => text,
        _ => octets,
    }
}

// Returns whether a text is empty, has only blanks, or begins with a number sign.
fn is_nothing(text: &[u8]) -> bool
    ensures { result ≡ is_nothing text.now }
{
    are_blank(text) || begins_with(text, b'#')
}

fn are_blank(text: &[u8]) -> bool
    ensures { result ≡ list_all is_blank text.now }
{
    text.iter().all(|octet| is_blank(*octet))
}

// Returns how a text is spelled.
fn spelling_of(text: &[u8]) -> Spelling
    ensures { result ≡ spelling_of text.now }
{
    if begins_with(text, b'{') {
        Spelling::Json
    } else {
        Spelling::Words
    }
}

// Returns whether a text begins with this octet, which is not 00.
pub(crate) fn begins_with(text: &[u8], octet: u8) -> bool
    requires { 0 < octet }
    ensures { result ≡ (slice_index text.now 0 == octet) }
{
    match text {
        [first, ..] => *first == octet,
        [] => false,
    }
}
