//! The machines of the ports.

ghost use Rattle.std.specs.Prelude.{◌≡◌, ◌≤◌, ◌<◌, ◌+◌, ◌++◌, ◌∷◌, [], vec_len, vec_capacity, IfOk};
ghost use Rattle.iol_types.specs.declared.port_id.TheConstants.{PORTS};
ghost use Rattle.iol_port.specs.Stage.{new_machine};
ghost use Rattle.iol_engine.specs.Ports.{new_machines};

use iol_core::Core;
use iol_front::Name;
use iol_port::PortMachine;
use iol_types::{PORTS, PortId};
use std::alloc::{AllocError, Global};

// Makes a new machine for each of `ports` ports.
pub(crate) fn machines_of(alloc: Global, ports: u8) -> Result<Vec<PortMachine>, AllocError>
    requires most { ports ≤ PORTS }
    ensures { IfOk result (λ machines. machines.items ≡ new_machines ports) }
{
    let mut machines = Vec::with_capacity(alloc, usize::from(ports))?;
    for place in 0..ports {
        add_machine(alloc, &mut machines, place);
    }
    Ok(machines)
}

// Adds a new machine, for the port at this place.
fn add_machine(alloc: Global, machines: &mut Vec<PortMachine>, place: u8)
    requires most { place < PORTS }
    requires room { vec_len machines.old < vec_capacity machines.old }
    ensures items { machines.new.items ≡ machines.old.items ++ new_machine (place + 1) ∷ [] }
    ensures room { vec_capacity machines.new ≡ vec_capacity machines.old }
{
    let Some(port) = PortId::new(place + 1) else {
        unreachable!()
    };
    machines.push_reserved(PortMachine::new(alloc, port));
}

// Ends the machines, and returns each permit that they hold to the core.
pub(crate) fn end_machines<F: Name>(machines: Vec<PortMachine>, mut core: Core<F>) -> Core<F>
    ensures { result.durable ≡ core.durable }
{
    let mut left = machines;
    while let Some(machine) = left.pop() {
        machine.end(&mut core);
    }
    left.destroy_empty();
    core
}
