//! The command `serve`, with the files that its words name.

ghost use Rattle.std.specs.Prelude.{◌≤◌};

use crate::port_files::PortFiles;
use crate::script_file::read_script;
use crate::serve_words::ServeWords;
use iol_commands::{Fault, report};
use iol_requests::Spelling;
use iol_serve::{Conversation, Driver, Prompt, Serving, serve_image};
use std::alloc::{AllocError, Global};
use std::io::IsTerminal;
use std::sync::Wait;
use std::thread::Threads;
use std::time::{Clock, Duration};

// Serves the master that these words name, and returns the exit status.
pub(crate) fn serve_file<R: AllocGlobal + Threads + Wait + Clock + Copy + Send + 'static>(
    rt: &R,
    host: HostRuntime,
    words: &ServeWords<'_>,
) -> u8
    ensures { result ≤ 2 }
{
    let mut err = host.stderr();
    let devices = match devices_of(&host, words.devices) {
        Ok(devices) => devices,
        Err(fault) => return report(&mut err, &fault),
    };
    let Ok(drivers) = drivers_of(host.alloc(), &words.files) else {
        return report(&mut err, &Fault::Memory);
    };
    let silence = Duration::from_secs(u64::from(words.silence));
    let serving = serving_of(drivers.as_slice(), octets_of(&devices), silence);
    let conversation = Conversation {
        input: host.stdin(),
        output: host.stdout(),
        spelling: spelling_of(words),
        prompt: prompt_of(&host),
    };
    serve_image(rt, host, words.image, &serving, conversation, &mut err)
}

// Returns the spelling of events.
fn spelling_of(words: &ServeWords<'_>) -> Spelling {
    if words.json {
        Spelling::Json
    } else {
        Spelling::Words
    }
}

// Returns whether a prompt is shown: only to a person who enters requests at a terminal.
fn prompt_of(rt: &HostRuntime) -> Prompt {
    if rt.stdin().is_terminal() {
        Prompt::Shown
    } else {
        Prompt::Absent
    }
}

// Reads the octets of the script of devices, if there is one.
fn devices_of<'a>(rt: &HostRuntime, path: Option<&'a str>) -> Result<Option<Vec<u8>>, Fault<'a>> {
    match path {
        Some(path) => Ok(Some(read_script(rt, path)?)),
        None => Ok(None),
    }
}

// Returns what is served besides the image.
fn serving_of<'a>(
    drivers: &'a [Driver<'a>],
    devices: Option<&'a [u8]>,
    silence: Duration,
) -> Serving<'a> {
    Serving {
        drivers,
        devices,
        silence,
    }
}

// Returns the octets of a script, if there is one.
fn octets_of(script: &Option<Vec<u8>>) -> Option<&[u8]> {
    match script {
        Some(script) => Some(script.as_slice()),
        None => None,
    }
}

// Returns the drivers that words name.
fn drivers_of<'a>(alloc: Global, files: &[PortFiles<'a>]) -> Result<Vec<Driver<'a>>, AllocError> {
    let mut drivers = Vec::new(alloc);
    for file in files {
        let driver = driver_of(file);
        if drivers.push(driver).is_err() {
            return Err(AllocError);
        }
    }
    Ok(drivers)
}

// Returns the driver that has these files.
fn driver_of<'a>(files: &PortFiles<'a>) -> Driver<'a> {
    Driver {
        port: files.port,
        from: files.from,
        to: files.to,
    }
}
