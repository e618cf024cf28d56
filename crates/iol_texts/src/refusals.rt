//! The words for a refusal: its cause, and what to do.
ghost use Rattle.std.specs.Prelude.{◌≡◌};
ghost use Rattle.iol_core.specs.Telling.{refusal_of};
ghost use Rattle.iol_texts.specs.Refusals.{command_words, refusal_words};

use iol_core::SubmitFault;
use iol_types::CommandFault;

/// Why a command is refused, and what to do.
pub fn refusal_words(fault: SubmitFault) -> &'static str
    ensures { result.now ≡ refusal_words (refusal_of fault) }
{
    match fault {
        SubmitFault::Stopped =>
            "a disk call has failed, and nothing more is taken: replace the disk, and start the master anew",
        SubmitFault::Command(cause) => command_words(cause),
        SubmitFault::QueueFull =>
            "64 commands wait for the disk: ask again once some are acknowledged",
        SubmitFault::Exhausted => "no command number is left: format a new disk",
    }
}

// Why a command does not pass, and what to do.
fn command_words(cause: CommandFault) -> &'static str
    ensures { result.now ≡ command_words cause }
{
    match cause {
        CommandFault::UnknownPort => "the master has no port of this number: name one that it has",
        CommandFault::RevisionSpent => "the port has had its last revision: format a new disk",
        CommandFault::NotAllowed =>
            "the port is not IOL_MANUAL with validation 03: configure it so",
        CommandFault::StaleRevision =>
            "the port was configured meanwhile: nothing is to be done, the port begins again",
        CommandFault::WrongDevice =>
            "the port is configured for another device: configure it for this one",
        CommandFault::NoPrevious => "the port has no previous set: nothing is exchanged",
    }
}
