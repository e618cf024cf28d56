//! The command `serve`, over a writer for its output and one for its faults.

ghost use Rattle.std.specs.Prelude.{◌≡◌, ◌≤◌, [], All, IfOk, vec_len};
ghost use Rattle.iol_commands.specs.Devices.{MayVisit};

use crate::conducting::Unserved;
use crate::driver_files::DriverPaths;
use crate::either_link::EitherLink;
use crate::file_transport::FileTransport;
use crate::paced_link::PacedLink;
use crate::patience::Patience;
use crate::printing::Printed;
use crate::serving::{Conversation, serve};
use iol_commands::{Fault, links_of, opened, recover, report};
use iol_disk::SectorDisk;
use iol_journal::Journal;
use iol_script::{Device, LiveScript};
use iol_sim::SimLink;
use iol_types::{MasterState, PortId};
use iol_wire::WireLink;
use std::alloc::Global;
use std::io::{Read, Write};
use std::sync::atomic::AtomicBool;
use std::sync::{Arc, Wait};
use std::thread::Threads;
use std::time::{Clock, Duration};

/// The driver at a port: the file from which its answers are read, and the file to which its requests are written.
#[derive(Clone, Copy, Debug)]
pub struct Driver<'a> {
    pub port: PortId,
    pub from: &'a str,
    pub to: &'a str,
}

/// What is served besides the image.
#[derive(Clone, Copy, Debug)]
pub struct Serving<'a> {
    pub drivers: &'a [Driver<'a>],
    /// The octets of a script with simulated devices, which are at other ports.
    pub devices: Option<&'a [u8]>,
    /// The time that a driver may be silent before its device is lost.
    pub silence: Duration,
}

/// Serves a master on the image file at `path` until no more is requested, and returns the exit status. It is 0 once the master has
/// ended and all is printed, 2 if the script of devices is not valid, and otherwise 1. If the command fails, a line on `err` says why;
/// if printing fails, no line does. All files are those of `files`; two threads for each driver open its files, read and write them.
pub fn serve_image<
    R: AllocGlobal + Threads + Wait + Clock + Copy + Send + 'static,
    I: Read + Drop + Send + 'static,
    W: Write + Drop + Send + 'static,
    E: Write,
>(
    rt: &R,
    files: HostRuntime,
    path: &str,
    serving: &Serving<'_>,
    conversation: Conversation<I, W>,
    err: &mut E,
) -> u8
    ensures { result ≤ 2 }
{
    match serve_file(rt, files, path, serving, conversation) {
        Ok(Printed::Whole) => 0,
        Ok(Printed::Broken) => 1,
        Err(fault) => report(err, &fault),
    }
}

// Serves a master. The script of devices is checked before the image is opened.
fn serve_file<
    'a,
    R: AllocGlobal + Threads + Wait + Clock + Copy + Send + 'static,
    I: Read + Drop + Send + 'static,
    W: Write + Drop + Send + 'static,
>(
    rt: &R,
    files: HostRuntime,
    path: &'a str,
    serving: &Serving<'_>,
    conversation: Conversation<I, W>,
) -> Result<Printed, Fault<'a>> {
    match devices_of(rt.alloc(), serving.devices) {
        Ok(devices) => serve_with(rt, files, path, serving, &devices, conversation),
        Err(fault) => Err(fault),
    }
}

// Serves a master on the image file at a path, with these simulated devices.
fn serve_with<
    'a,
    R: AllocGlobal + Threads + Wait + Clock + Copy + Send + 'static,
    I: Read + Drop + Send + 'static,
    W: Write + Drop + Send + 'static,
>(
    rt: &R,
    files: HostRuntime,
    path: &'a str,
    serving: &Serving<'_>,
    devices: &[Device],
    conversation: Conversation<I, W>,
) -> Result<Printed, Fault<'a>>
    requires { All MayVisit devices.now }
{
    match opened(&files, path) {
        Ok(disk) => serve_disk(rt, files, disk, serving, devices, conversation),
        Err(fault) => Err(fault),
    }
}

// Serves a master on a disk.
fn serve_disk<
    D: SectorDisk + Drop + Send + 'static,
    R: AllocGlobal + Threads + Wait + Clock + Copy + Send + 'static,
    I: Read + Drop + Send + 'static,
    W: Write + Drop + Send + 'static,
>(
    rt: &R,
    files: HostRuntime,
    disk: D,
    serving: &Serving<'_>,
    devices: &[Device],
    conversation: Conversation<I, W>,
) -> Result<Printed, Fault<'static>>
    requires { All MayVisit devices.now }
{
    match recover(rt.alloc(), disk) {
        Ok((journal, state)) => {
            serve_recovered::<D, R, I, W>(rt, files, journal, state, serving, devices, conversation)
        }
        Err(fault) => Err(fault),
    }
}

// Serves a master over a journal that was just recovered, if the devices and the drivers fit its ports.
fn serve_recovered<
    D: SectorDisk + Drop + Send + 'static,
    R: AllocGlobal + Threads + Wait + Clock + Copy + Send + 'static,
    I: Read + Drop + Send + 'static,
    W: Write + Drop + Send + 'static,
>(
    rt: &R,
    files: HostRuntime,
    journal: Journal<D>,
    state: MasterState,
    serving: &Serving<'_>,
    devices: &[Device],
    conversation: Conversation<I, W>,
) -> Result<Printed, Fault<'static>>
    requires devices { All MayVisit devices.now }
    requires state { state ≡ journal.standing.state }
    requires history { journal.history
        ≡ record { first = journal.standing.number; start = journal.standing.state; commands = [] } }
{
    match linked::<R>(rt, files, serving, devices, state.ports()) {
        Ok((links, ending)) => serve::<D, PortLink<R>, I, W, R>(
            rt,
            rt.alloc(),
            journal,
            state,
            links,
            conversation,
            &ending,
        ),
        Err(fault) => Err(fault),
    }
}

// Makes the link of each port, and the flag by which the links to drivers see that the ports are to settle.
//
// # Errors
// `Fit` if a device is at a port that does not exist; `Drivers` if a driver is, or if its port has a device too; `Memory` if memory
// runs out; `Thread` if a thread cannot be made.
fn linked<R: AllocGlobal + Threads + Wait + Clock + Copy + Send + 'static>(
    rt: &R,
    files: HostRuntime,
    serving: &Serving<'_>,
    devices: &[Device],
    ports: u8,
) -> Result<(Vec<PortLink<R>>, Arc<AtomicBool>), Fault<'static>>
    requires { All MayVisit devices.now }
    ensures { IfOk result (λ linked. vec_len linked.0 ≡ ports) }
{
    if let Some(fault) = misfit(serving.drivers, ports, devices) {
        return Err(fault);
    }
    let ending = Arc::new(rt.alloc(), AtomicBool::new(false))?;
    match port_links(rt, files, rt.alloc(), serving, devices, ports, &ending) {
        Ok(links) => Ok((links, ending)),
        Err(unserved) => Err(Fault::from(unserved)),
    }
}

// Returns why devices and drivers do not fit this number of ports, or `None` if they fit.
fn misfit(drivers: &[Driver<'_>], ports: u8, devices: &[Device]) -> Option<Fault<'static>> {
    if !devices.iter().all(|device| device.port.number() <= ports) {
        return Some(Fault::Fit);
    }
    if !all_fit(drivers, ports, devices) {
        return Some(Fault::Drivers);
    }
    None
}

// Returns the devices of the script, or none if there is no script.
fn devices_of(alloc: Global, script: Option<&[u8]>) -> Result<Vec<Device>, Fault<'static>>
    ensures { IfOk result (λ devices. All MayVisit devices.items) }
{
    match script {
        Some(script) => said_devices(alloc, script),
        None => Ok(Vec::new(alloc)),
    }
}

// Reads the devices of a script.
fn said_devices(alloc: Global, script: &[u8]) -> Result<Vec<Device>, Fault<'static>>
    ensures { IfOk result (λ devices. All MayVisit devices.items) }
{
    let script = LiveScript::read(alloc, script)?;
    let LiveScript {
        devices,
        changes: _,
    } = script;
    Ok(devices)
}

// Returns whether the port of each driver exists, and has no simulated device.
fn all_fit(drivers: &[Driver<'_>], ports: u8, devices: &[Device]) -> bool {
    for driver in drivers {
        if driver.port.number() > ports || has_device(devices, driver.port) {
            return false;
        }
    }
    true
}

// Returns whether a simulated device is at a port.
fn has_device(devices: &[Device], port: PortId) -> bool {
    for device in devices {
        if device.port == port {
            return true;
        }
    }
    false
}

/// A link to a driver, or to simulated devices.
type PortLink<R> = PacedLink<EitherLink<WireLink<FileTransport<R>>, SimLink>, R>;

// Makes the link of each port, port 1 first: to its driver, or otherwise to the simulated devices at the port, of which there may be
// none.
fn port_links<R: Threads + Wait + Clock + Copy + Send + 'static>(
    rt: &R,
    files: HostRuntime,
    alloc: Global,
    serving: &Serving<'_>,
    devices: &[Device],
    ports: u8,
    ending: &Arc<AtomicBool>,
) -> Result<Vec<PortLink<R>>, Unserved>
    requires { All MayVisit devices.now }
    ensures { IfOk result (λ links. vec_len links ≡ ports) }
{
    let mut simulated = links_of(alloc, devices, ports)?;
    let mut links = Vec::with_capacity(alloc, usize::from(ports))?;
    // The last port comes first, since `pop` returns the last link.
    for place in 0..ports {
        if let Some(link) = simulated.pop() {
            links.push(link_at(rt, files, alloc, serving, ports - place, link, ending)?)?;
        }
    }
    links.reverse();
    Ok(links)
}

// Returns the driver at the port with this number, if there is one.
fn driver_at<'a>(drivers: &'a [Driver<'a>], number: u8) -> Option<&'a Driver<'a>> {
    for driver in drivers {
        if driver.port.number() == number {
            return Some(driver);
        }
    }
    None
}

// Makes the link of the port with this number.
fn link_at<R: Threads + Wait + Clock + Copy + Send + 'static>(
    rt: &R,
    files: HostRuntime,
    alloc: Global,
    serving: &Serving<'_>,
    number: u8,
    simulated: SimLink,
    ending: &Arc<AtomicBool>,
) -> Result<PortLink<R>, Unserved> {
    let link = match driver_at(serving.drivers, number) {
        Some(driver) => {
            EitherLink::First(link_to(rt, files, alloc, driver, serving.silence, ending)?)
        }
        None => EitherLink::Second(simulated),
    };
    Ok(PacedLink::new(link, *rt))
}

// Makes the link to a driver.
fn link_to<R: Threads + Wait + Clock + Copy + Send + 'static>(
    rt: &R,
    files: HostRuntime,
    alloc: Global,
    driver: &Driver<'_>,
    silence: Duration,
    ending: &Arc<AtomicBool>,
) -> Result<WireLink<FileTransport<R>>, Unserved> {
    let paths = DriverPaths {
        from_driver: String::from_str(alloc, driver.from)?,
        to_driver: String::from_str(alloc, driver.to)?,
    };
    let patience = Patience::new(silence, Arc::try_clone(ending)?);
    let transport = FileTransport::start(*rt, files, alloc, paths, patience)?;
    Ok(WireLink::new(transport))
}
