//! The words of `serve`.

use crate::port_files::{PortFiles, PortFilesFault, all_port_files};
use crate::words::{Asked, Unasked, command, flag, image, text};
use clap::{Arg, ArgAction, ArgMatches, Command, value_parser};
use std::alloc::{AllocError, Global};

/// The words of `serve`, as they were read.
#[derive(Drop)]
pub(crate) struct ServeWords<'a> {
    /// The path of an image file.
    pub(crate) image: &'a str,
    /// The drivers at ports, each port once.
    pub(crate) files: Vec<PortFiles<'a>>,
    /// The path of a script with simulated devices, which are at other ports, if one is named.
    pub(crate) devices: Option<&'a str>,
    /// Whether events are printed as JSON.
    pub(crate) json: bool,
    /// The number of seconds that a driver may be silent, 1 to 3,600.
    pub(crate) silence: u16,
}

// The number of seconds that a driver may be silent if the words do not give it.
const USUAL_SILENCE: u16 = 10;

// The notes after the options of `serve`.
const SERVE_NOTES: &str = "\
Requests are lines on standard input: configure, clear, rollback, read, status, help and quit, in words or as JSON objects.
At `quit` or the end of input all that was asked is answered, and what waits is written.

Ctrl-C and a kill are a power stop: nothing that has its receipt is lost. The image is locked meanwhile.";

pub(crate) fn serve<'a>(alloc: Global) -> Result<Command<'a>, AllocError> {
    let about =
        "Serves a master on an image file, with drivers at its ports, until standard input ends";
    let words = [
        image(alloc),
        Arg::new(alloc, "port")
            .long("port")
            .value_name("N=PATH|N=FROM,TO")
            .action(ArgAction::Append)
            .help("The driver at port N: one file, read and written, or two FIFOs"),
        Arg::new(alloc, "devices")
            .long("devices")
            .value_name("SCRIPT")
            .help("The path of a script, whose simulated devices are at other ports"),
        flag(alloc, "json", "Prints events as JSON objects"),
        Arg::new(alloc, "silence")
            .long("silence")
            .value_name("SECONDS")
            .value_parser(value_parser!(u16))
            .help(
                "How long a driver may be silent before its device is lost, 1 to 3600 [default: 10]",
            ),
    ];
    let words = Vec::from_array(alloc, words)?;
    command(alloc, "serve", about, SERVE_NOTES).args(words)
}

// Returns what the words of `serve` ask for.
//
// # Errors
// Why the words are wrong, or `Memory` if memory runs out.
pub(crate) fn asked_serve<'a>(
    alloc: Global,
    matches: &ArgMatches<'a>,
) -> Result<Asked<'a>, Unasked> {
    let silence = matches.get_one::<u16>("silence").unwrap_or(USUAL_SILENCE);
    if silence < 1 || 3_600 < silence {
        return Err(wrong(format!(in alloc;
            "error: {silence} seconds of silence are not 1 to 3600\n"
        )));
    }
    let words = matches.get_strs("port").unwrap_or(&[]);
    match all_port_files(alloc, words) {
        Ok(files) => Ok(Asked::Serve(ServeWords {
            image: text(matches, "IMAGE"),
            files,
            devices: matches.get_str("devices"),
            json: matches.get_flag("json"),
            silence,
        })),
        Err(fault) => Err(wrong_files(alloc, fault)),
    }
}

// Returns why the files of drivers are wrong.
fn wrong_files(alloc: Global, fault: PortFilesFault<'_>) -> Unasked {
    match fault {
        PortFilesFault::Form(word) => wrong(format!(in alloc;
            "error: '{word}' is no driver: write N=PATH or N=FROM,TO, with a port N of 1 to 32\n"
        )),
        PortFilesFault::Twice(port) => {
            let number = port.number();
            wrong(format!(in alloc; "error: port {number} has two drivers: name each port once\n"))
        }
        PortFilesFault::Memory => Unasked::Memory,
    }
}

fn wrong(text: Result<String, AllocError>) -> Unasked {
    match text {
        Ok(text) => Unasked::Wrong(text),
        Err(_) => Unasked::Memory,
    }
}
