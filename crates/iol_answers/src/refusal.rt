//! Why a request is refused, or has failed.
ghost use Rattle.std.specs.Prelude.{◌≡◌};

use iol_core::SubmitFault;
use iol_texts::{refusal_name, refusal_words};
use iol_types::CommandFault;

/// Why a request is refused, or has failed.
#[derive(Clone, Copy)]
pub enum Refusal {
    /// The core did not accept the change.
    Submit(SubmitFault),
    /// Out of memory, before the request was passed on.
    Memory,
    /// The disk failed before the change was known to be durable.
    Unsure,
    /// The change was accepted, but is not written, since its batch is out of memory.
    Unwritten,
    /// The master has no port with the requested number.
    UnknownPort,
    /// Fewer commands are acknowledged than the client has seen.
    Behind,
}

impl Refusal {
    ghost use Rattle.iol_answers.specs.Refusals.{name_of, words_of};

    // The name of the cause.
    pub(crate) fn name(self) -> &'static str
        ensures { result.now ≡ name_of self }
    {
        match self {
            Refusal::Submit(cause) => refusal_name(cause),
            Refusal::Memory => "Memory",
            Refusal::Unsure => "Unsure",
            Refusal::Unwritten => "Unwritten",
            Refusal::UnknownPort => "UnknownPort",
            Refusal::Behind => "Behind",
        }
    }

    // The cause in words, and what to do.
    pub(crate) fn words(self) -> &'static str
        ensures { result.now ≡ words_of self }
    {
        match self {
            Refusal::Submit(cause) => refusal_words(cause),
            Refusal::Memory => "out of memory, nothing was asked for: ask again",
            Refusal::Unsure =>
                "the disk failed before it was known to be durable: after a recovery it may be there or not",
            Refusal::Unwritten =>
                "out of memory to write it: it is written once memory is there, if that is before the master ends",
            Refusal::UnknownPort => {
                refusal_words(SubmitFault::Command(CommandFault::UnknownPort))
            }
            Refusal::Behind =>
                "what is durable is not yet read as far as this client has seen: ask again",
        }
    }
}
