//! The devices of a script, at the ports of a run.
ghost use Rattle.std.specs.Prelude.{◌≡◌, [], All, vec_len, IfOk};
ghost use Rattle.iol_script.specs.Devices.{said_devices};
ghost use Rattle.iol_script.specs.Device.{said_device};
ghost use Rattle.iol_script.specs.Parameters.{entries_of};
ghost use Rattle.iol_sim.specs.Parameters.{AreParameters};
ghost use Rattle.iol_commands.specs.Devices.{MayVisit, bare_device, visit_by, link_at, links_of};

use iol_script::{Device, Parameter};
use iol_sim::{DeviceFault, SimDevice, SimLink, Visit};
use std::alloc::{AllocError, Global};

// Makes a link for each port, port 1 first, to the devices that a script has there, in its order. At a port without
// devices each call is lost.
//
// # Errors
// `AllocError` if memory runs out.
pub fn links_of(alloc: Global, devices: &[Device], ports: u8) -> Result<Vec<SimLink>, AllocError>
    requires { All MayVisit devices.now }
    ensures links { IfOk result (λ links. links.items ≡ links_of ports (said_devices devices.now)) }
    ensures count { IfOk result (λ links. vec_len links ≡ ports) }
{
    let mut links = Vec::with_capacity(alloc, usize::from(ports))?;
    for place in 0..ports {
        links.push(link_at(alloc, devices, place + 1)?)?;
    }
    Ok(links)
}

// Makes the link to the devices at a port.
fn link_at(alloc: Global, devices: &[Device], port: u8) -> Result<SimLink, AllocError>
    requires { All MayVisit devices.now }
    ensures { IfOk result (λ link. link ≡ link_at port (said_devices devices.now)) }
{
    let mut visits = Vec::new(alloc);
    for device in devices {
        if device.port.number() == port {
            visits.push(visit_of(alloc, device)?)?;
        }
    }
    Ok(SimLink::new(visits))
}

// Returns the visit of a device, at its beginning.
fn visit_of(alloc: Global, device: &Device) -> Result<Visit, AllocError>
    requires { MayVisit device.now }
    ensures { IfOk result (λ visit. visit ≡ visit_by (said_device device.now)) }
{
    let simulated = with_parameters(bare_device(alloc, device), &device.parameters)?;
    Ok(Visit::new(simulated, device.answers, device.event))
}

// Returns a device as a script describes it, but without parameters.
fn bare_device(alloc: Global, device: &Device) -> SimDevice
    ensures { result ≡ bare_device (said_device device.now) }
{
    let mut bare = SimDevice::new(
        alloc,
        device.vendor,
        device.device,
        device.revision,
        device.isdu,
    );
    if device.flag {
        bare = bare.with_flag();
    }
    if device.locked {
        bare = bare.locked();
    }
    bare
}

// Gives parameters to a device that has none.
fn with_parameters(bare: SimDevice, parameters: &[Parameter]) -> Result<SimDevice, AllocError>
    requires bare { bare.parameters ≡ [] }
    requires parameters { AreParameters (entries_of parameters.now) }
    ensures { IfOk result (λ device. device ≡ record bare { parameters = entries_of parameters.now }) }
{
    let mut device = bare;
    for parameter in parameters {
        if let Err(fault) = device.add(parameter.key, parameter.octets.as_slice()) {
            return Err(out_of_memory(fault));
        }
    }
    Ok(device)
}

// Returns the only fault of adding a parameter that the device may have: out of memory.
fn out_of_memory(fault: DeviceFault) -> AllocError
    requires { fault ≡ DeviceFault.Memory }
{
    match fault {
        DeviceFault::Memory => AllocError,
        _ => unreachable!(),
    }
}
