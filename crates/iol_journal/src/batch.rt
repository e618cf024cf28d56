//! Commands that are written together.

ghost use Rattle.std.specs.Prelude.{◌≡◌, ◌≤◌, ◌<◌, ◌*◌, ◌^◌, true, false, length, IfOk, IfSome, IfNone};
ghost use Rattle.iol_types.specs.State.{after, legal};
ghost use Rattle.iol_record.specs.declared.encode.TheConstants.{LARGEST_COMMAND_RECORD};
ghost use Rattle.iol_journal.specs.Begin.{is_too_large};
ghost use Rattle.iol_layout.specs.Body.{records_of, slots_of, slots_for, values};

use iol_layout::{MOST_COMMANDS, slots_of};
use iol_record::{Version, command_record_octets};
use iol_types::{Command, MasterState};
use std::alloc::AllocError;

/// Commands that are written together, and the number of the first.
#[derive(Debug, Drop)]
pub struct Batch {
    pub first: u64,
    pub commands: Vec<Command>,
}

// The number of octets of the commands' records.
fn record_octets(commands: &[Command]) -> usize
    requires { length commands.now ≤ MOST_COMMANDS }
    ensures octets { result ≡ length (records_of (values commands.now)) }
    ensures bound { result < 2 ^ 40 }
    ensures most { result ≤ LARGEST_COMMAND_RECORD * length commands.now }
{
    let mut octets = 0;
    for command in commands {
        octets += command_record_octets(Version::newest(), command);
    }
    octets
}

/// The number of slots that a batch takes, or `None` if it does not fit an area of `slots` slots.
pub fn span_within(slots: usize, commands: &[Command]) -> Option<usize>
    ensures some { IfSome result (λ span. (span ≡ slots_for (values commands.now)) × (is_too_large slots (values commands.now) ≡ false)) }
    // A command takes at most one slot, because its record has at most 4,118 octets.
    ensures few { IfSome result (λ span. 1 ≤ length commands.now → span ≤ length commands.now) }
    ensures none { IfNone result (is_too_large slots (values commands.now) ≡ true) }
{
    if MOST_COMMANDS < commands.len() {
        return None;
    }
    let span = slots_of(record_octets(commands));
    if slots < span { None } else { Some(span) }
}

/// Applies the commands in order while each passes in the state that it meets, and returns whether all passed. If one does
/// not, those before it are applied.
///
/// # Errors
/// Out of memory; some commands may be applied.
pub fn apply_all(state: &mut MasterState, commands: &[Command]) -> Result<bool, AllocError>
    ensures legal { IfOk result (λ all. all ≡ legal state.old (values commands.now)) }
    ensures after { IfOk result (λ all. all ≡ true → state.new ≡ after state.old (values commands.now)) }
{
    for command in commands {
        if state.check(command).is_err() {
            return Ok(false);
        }
        state.apply(command.copy()?);
    }
    Ok(true)
}
