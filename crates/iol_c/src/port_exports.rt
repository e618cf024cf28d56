//! What a port wants of its device, and what is handed to the port.

ghost use Rattle.std.specs.Prelude.{◌≡◌};
ghost use Rattle.iol_c.specs.Asks.{Asks, IfValid, IsInvalid, port_of};
ghost use Rattle.iol_c.specs.Codes.{code_of};
ghost use Rattle.iol_c.specs.PortExports.{AnswersPort, AsksPort};
ghost use Rattle.iol_c.specs.Shown.{request_after};

use crate::arguments::{filled, port_of};
use crate::codes::{INVALID, code_of};
use crate::handle::Handle;
use crate::structs::Request;
use arrayvec::ArrayVec;
use iol_handed::{Ask, PortAsk, SessionAnswer};
use iol_link::PAGE_OCTETS;
use std::alloc::Global;

/// Returns what a port wants of its device.
#[unsafe(no_mangle)]
pub extern "C" fn iolm_port_next(
    alloc: Global,
    handle: &mut Handle,
    port: u8,
    request: &mut Request,
) -> u32
    ensures { IfValid (port_of port) (IsInvalid handle.old handle.new result × (request.new ≡ request.old)) (λ port.
        Asks (Ask.Port port PortAsk.Next) handle.old handle.new
        (λ said. (result ≡ code_of said) × (request.new ≡ request_after said request.old))) }
{
    let Some(port) = port_of(port) else {
        return INVALID;
    };
    let answer = handle.ask(alloc, Ask::Port(port, PortAsk::Next));
    if let SessionAnswer::Request(octets) = &answer {
        request.count = octets.len() as u32;
        request.octets = filled(octets.as_slice());
    }
    code_of(answer)
}

/// Has a port look again.
#[unsafe(no_mangle)]
pub extern "C" fn iolm_port_wake(alloc: Global, handle: &mut Handle, port: u8) -> u32
    ensures { AsksPort (port_of port) PortAsk.Wake handle.old handle.new result }
{
    asks_port(alloc, handle, port, PortAsk::Wake)
}

/// Hands in the page of a port's device.
#[unsafe(no_mangle)]
pub extern "C" fn iolm_port_page(
    alloc: Global,
    handle: &mut Handle,
    port: u8,
    octets: &[u8; PAGE_OCTETS],
) -> u32
    ensures { AsksPort (port_of port) (PortAsk.Page octets.now) handle.old handle.new result }
{
    asks_port(alloc, handle, port, PortAsk::Page(*octets))
}

/// Hands in the answer of a port's device to the request.
#[unsafe(no_mangle)]
pub extern "C" fn iolm_port_answer(
    alloc: Global,
    handle: &mut Handle,
    port: u8,
    octets: &[u8],
) -> u32
    ensures { AnswersPort (port_of port) octets.now handle.old handle.new result }
{
    let mut answer = ArrayVec::new();
    if answer.try_extend_from_slice(octets).is_err() {
        return INVALID;
    }
    asks_port(alloc, handle, port, PortAsk::Answer(answer))
}

/// Reports that the device of a port is gone.
#[unsafe(no_mangle)]
pub extern "C" fn iolm_port_lost(alloc: Global, handle: &mut Handle, port: u8) -> u32
    ensures { AsksPort (port_of port) PortAsk.Lost handle.old handle.new result }
{
    asks_port(alloc, handle, port, PortAsk::Lost)
}

/// Reports an event of a port's device.
#[unsafe(no_mangle)]
pub extern "C" fn iolm_port_event(alloc: Global, handle: &mut Handle, port: u8, code: u16) -> u32
    ensures { AsksPort (port_of port) (PortAsk.Event code) handle.old handle.new result }
{
    asks_port(alloc, handle, port, PortAsk::Event(code))
}

// Makes a request about a port.
fn asks_port(alloc: Global, handle: &mut Handle, port: u8, ask: PortAsk) -> u32
    ensures { AsksPort (port_of port) ask handle.old handle.new result }
{
    let Some(port) = port_of(port) else {
        return INVALID;
    };
    code_of(handle.ask(alloc, Ask::Port(port, ask)))
}
