//! The changes that a client requests.

ghost use Rattle.std.specs.Prelude.{◌≡◌, ◌≤◌, length};
ghost use Rattle.iol_c.specs.Asks.{Asks, IfValid, IsInvalid, port_of};
ghost use Rattle.iol_c.specs.Codes.{code_of};
ghost use Rattle.iol_c.specs.Configs.{config_of};
ghost use Rattle.iol_c.specs.Shown.{number_after};

use crate::arguments::port_of;
use crate::codes::{INVALID, code_of};
use crate::configs::config_of;
use crate::handle::Handle;
use crate::structs::Config;
use iol_handed::{Ask, SessionAnswer};
use iol_types::Change;
use std::alloc::Global;

/// Gives a port a configuration, and its next revision.
#[unsafe(no_mangle)]
pub extern "C" fn iolm_configure(
    alloc: Global,
    handle: &mut Handle,
    port: u8,
    config: &Config,
    number: &mut u64,
) -> u32
    ensures { IfValid (port_of port) (IsInvalid handle.old handle.new result × (number.new ≡ number.old)) (λ port.
        IfValid (config_of config.now) (IsInvalid handle.old handle.new result × (number.new ≡ number.old)) (λ config.
        Asks (Ask.Submit (Change.Configure port config)) handle.old handle.new
        (λ said. (result ≡ code_of said) × (number.new ≡ number_after said number.old)))) }
{
    let (Some(port), Some(config)) = (port_of(port), config_of(config)) else {
        return INVALID;
    };
    submit(alloc, handle, Change::Configure { port, config }, number)
}

/// Deletes the parameter sets of a port.
#[unsafe(no_mangle)]
pub extern "C" fn iolm_clear(alloc: Global, handle: &mut Handle, port: u8, number: &mut u64) -> u32
    ensures { IfValid (port_of port) (IsInvalid handle.old handle.new result × (number.new ≡ number.old)) (λ port.
        Asks (Ask.Submit (Change.Clear port)) handle.old handle.new
        (λ said. (result ≡ code_of said) × (number.new ≡ number_after said number.old))) }
{
    let Some(port) = port_of(port) else {
        return INVALID;
    };
    submit(alloc, handle, Change::Clear { port }, number)
}

/// Exchanges the parameter set of a port and its previous one.
#[unsafe(no_mangle)]
pub extern "C" fn iolm_rollback(
    alloc: Global,
    handle: &mut Handle,
    port: u8,
    number: &mut u64,
) -> u32
    ensures { IfValid (port_of port) (IsInvalid handle.old handle.new result × (number.new ≡ number.old)) (λ port.
        Asks (Ask.Submit (Change.Rollback port)) handle.old handle.new
        (λ said. (result ≡ code_of said) × (number.new ≡ number_after said number.old))) }
{
    let Some(port) = port_of(port) else {
        return INVALID;
    };
    submit(alloc, handle, Change::Rollback { port }, number)
}

// Requests a change, and writes its number down if it is accepted.
fn submit(alloc: Global, handle: &mut Handle, change: Change, number: &mut u64) -> u32
    ensures { Asks (Ask.Submit change) handle.old handle.new
        (λ said. (result ≡ code_of said) × (number.new ≡ number_after said number.old)) }
{
    let answer = handle.ask(alloc, Ask::Submit(change));
    if let SessionAnswer::Accepted(accepted) = &answer {
        *number = *accepted;
    }
    code_of(answer)
}
