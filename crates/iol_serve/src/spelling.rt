//! The spelling of an answer, which is that of its request.

ghost use Rattle.std.specs.Prelude.{◌≡◌, IfOk, string_bytes};
ghost use Rattle.iol_serve.specs.Spelled.{IsAnswerText, IsEventText, IsGivenBack, IsSameId};

use iol_answers::{
    Event, RequestAnswer, RequestId, answer_json, answer_words, event_json, event_words,
};
use iol_requests::{Id, Spelling};
use std::alloc::{AllocError, Global};

// Returns the line of an event.
pub(crate) fn event_line(
    alloc: Global,
    spelling: Spelling,
    event: &Event,
) -> Result<String, AllocError>
    ensures { IfOk result (λ text. IsEventText spelling event.now (string_bytes text)) }
{
    match spelling {
        Spelling::Words => event_words(alloc, event),
        Spelling::Json => event_json(alloc, event),
    }
}

/// The spelling of a request, and the id that its answer gives back.
#[derive(Drop)]
pub(crate) struct Spelled {
    pub(crate) id: Option<Id>,
    pub(crate) spelling: Spelling,
}

impl Spelled {
    // Returns the spelling in words, without an id.
    pub(crate) fn in_words() -> Spelled {
        Spelled {
            id: None,
            spelling: Spelling::Words,
        }
    }

    // Returns the lines of an answer.
    pub(crate) fn lines(
        &self,
        alloc: Global,
        answer: &RequestAnswer<'_>,
    ) -> Result<String, AllocError>
        ensures { IfOk result (λ text. IsAnswerText self.now.spelling self.now.id answer.now (string_bytes text)) }
    {
        match self.spelling {
            Spelling::Words => answer_words(alloc, answer),
            Spelling::Json => answer_json(alloc, self.given_back(), answer),
        }
    }

    // Returns the id in the form in which an answer gives it back.
    fn given_back(&self) -> Option<RequestId<'_>>
        ensures { IsGivenBack self.now.id result }
    {
        match &self.id {
            Some(id) => Some(given_back(id)),
            None => None,
        }
    }
}

// Turns the id of a request into the form in which its answer gives it back.
fn given_back(id: &Id) -> RequestId<'_>
    ensures { IsSameId id.now result }
{
    match id {
        Id::Number(number) => RequestId::Number(*number),
        Id::Text(text) => RequestId::Text(text.as_str()),
    }
}
