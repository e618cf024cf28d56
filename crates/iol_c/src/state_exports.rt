//! The state of a master and of its ports.

ghost use Rattle.std.specs.Prelude.{◌≡◌};
ghost use Rattle.iol_c.specs.Asks.{Asks, IfValid, IsInvalid, port_of};
ghost use Rattle.iol_c.specs.Codes.{code_of};
ghost use Rattle.iol_c.specs.Shown.{accepted_after, durable_after, entry_after, status_after, view_after};
ghost use Rattle.iol_c.specs.StateExports.{set_of};

use crate::arguments::{filled, port_of};
use crate::codes::{INVALID, code_of};
use crate::handle::Handle;
use crate::shown::{status_struct, view_struct};
use crate::structs::{Entry, PortView, Status};
use iol_handed::{Ask, SessionAnswer, WhichSet};
use std::alloc::Global;

/// Writes down the number of the last durable command.
#[unsafe(no_mangle)]
pub extern "C" fn iolm_durable(alloc: Global, handle: &mut Handle, number: &mut u64) -> u32
    ensures { Asks Ask.Numbers handle.old handle.new (λ said. (result ≡ code_of said) × (number.new ≡ durable_after said number.old)) }
{
    let answer = handle.ask(alloc, Ask::Numbers);
    if let SessionAnswer::Numbers(durable, _) = &answer {
        *number = *durable;
    }
    code_of(answer)
}

/// Writes down the number of the last accepted command.
#[unsafe(no_mangle)]
pub extern "C" fn iolm_accepted(alloc: Global, handle: &mut Handle, number: &mut u64) -> u32
    ensures { Asks Ask.Numbers handle.old handle.new (λ said. (result ≡ code_of said) × (number.new ≡ accepted_after said number.old)) }
{
    let answer = handle.ask(alloc, Ask::Numbers);
    if let SessionAnswer::Numbers(_, accepted) = &answer {
        *number = *accepted;
    }
    code_of(answer)
}

/// Writes down the status of a port.
#[unsafe(no_mangle)]
pub extern "C" fn iolm_port_status(
    alloc: Global,
    handle: &mut Handle,
    port: u8,
    status: &mut Status,
) -> u32
    ensures { IfValid (port_of port) (IsInvalid handle.old handle.new result × (status.new ≡ status.old)) (λ port.
        Asks (Ask.Status port) handle.old handle.new (λ said. (result ≡ code_of said) × (status.new ≡ status_after said status.old))) }
{
    let Some(port) = port_of(port) else {
        return INVALID;
    };
    let answer = handle.ask(alloc, Ask::Status(port));
    if let SessionAnswer::Status(told) = &answer {
        *status = status_struct(*told);
    }
    code_of(answer)
}

/// Writes down the durable state of a port.
#[unsafe(no_mangle)]
pub extern "C" fn iolm_port_view(
    alloc: Global,
    handle: &mut Handle,
    port: u8,
    view: &mut PortView,
) -> u32
    ensures { IfValid (port_of port) (IsInvalid handle.old handle.new result × (view.new ≡ view.old)) (λ port.
        Asks (Ask.View port) handle.old handle.new (λ said. (result ≡ code_of said) × (view.new ≡ view_after said view.old))) }
{
    let Some(port) = port_of(port) else {
        return INVALID;
    };
    let answer = handle.ask(alloc, Ask::View(port));
    if let SessionAnswer::View(told) = &answer {
        *view = view_struct(told);
    }
    code_of(answer)
}

/// Writes down an entry, counted from 0, of a set of a port: of the present one, 0, or of the previous one,
/// 1.
#[unsafe(no_mangle)]
pub extern "C" fn iolm_entry(
    alloc: Global,
    handle: &mut Handle,
    port: u8,
    which: u8,
    place: usize,
    entry: &mut Entry,
) -> u32
    ensures { IfValid (port_of port) (IsInvalid handle.old handle.new result × (entry.new ≡ entry.old)) (λ port.
        IfValid (set_of which) (IsInvalid handle.old handle.new result × (entry.new ≡ entry.old)) (λ which.
        Asks (Ask.Entry port which place) handle.old handle.new
        (λ said. (result ≡ code_of said) × (entry.new ≡ entry_after said entry.old)))) }
{
    let (Some(port), Some(which)) = (port_of(port), set_of(which)) else {
        return INVALID;
    };
    let answer = handle.ask(alloc, Ask::Entry(port, which, place));
    if let SessionAnswer::Entry(key, octets) = &answer {
        *entry = Entry {
            index: key.index,
            subindex: key.subindex,
            count: octets.len() as u8,
            octets: filled(octets.as_slice()),
        };
    }
    code_of(answer)
}

// Returns the set with this number, if it is 0 or 1.
fn set_of(number: u8) -> Option<WhichSet>
    ensures { result ≡ set_of number }
{
    match number {
        0 => Some(WhichSet::Present),
        1 => Some(WhichSet::Previous),
        _ => None,
    }
}
