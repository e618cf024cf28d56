//! What the words of the command line ask for.

use crate::serve_words::{ServeWords, asked_serve, serve};
use clap::error::ErrorKind;
use clap::{Arg, ArgAction, ArgMatches, Command, Error, value_parser};
use std::alloc::{AllocError, Global};

/// An action on a script.
#[derive(Clone, Copy)]
pub(crate) enum OnScript {
    /// It is run on a disk in memory.
    Run,
    /// It is run that way, and each line is followed by its meaning in words.
    Explain,
    /// It is checked, and each mistake in it is reported with its place.
    Check,
}

/// A command, with what its words ask for.
#[derive(Drop)]
pub(crate) enum Asked<'a> {
    /// Something is done with the script at a path.
    Script {
        path: &'a str,
        what: OnScript,
    },
    /// The run of the script at a path is drawn into another file.
    Draw {
        script: &'a str,
        picture: &'a str,
    },
    /// The image file at a path is formatted, and with `force` even if it holds a journal.
    Format {
        image: &'a str,
        ports: u16,
        slots: u16,
        force: bool,
    },
    /// A master runs on the image file at a path, with the script's devices and clients. Each receipt may be reported.
    Live {
        image: &'a str,
        script: &'a str,
        receipts: bool,
    },
    /// A master serves on an image file.
    Serve(ServeWords<'a>),
    /// The state on the image file at a path is shown, perhaps as JSON.
    Show {
        image: &'a str,
        json: bool,
    },
    /// The sectors of the image file at a path are mapped, perhaps as a picture in another file.
    Map {
        image: &'a str,
        picture: Option<&'a str>,
    },
}

/// What takes the place of a command.
#[derive(Drop)]
pub(crate) enum Unasked {
    /// The help or the version, which the words ask for.
    Shown(String),
    /// Why the words are wrong.
    Wrong(String),
    /// Out of memory.
    Memory,
}

/// Reads the command that these words name. The first word is the name of the program. `version` is shown after that
/// name if the words ask for the version.
///
/// # Errors
/// What is wrong with the words, or the help or version that they ask for; `Memory` if memory runs out.
pub(crate) fn read_words<'a>(
    alloc: Global,
    words: &'a [String],
    version: &'a str,
) -> Result<Asked<'a>, Unasked> {
    match matched_words(alloc, words, version) {
        Ok(matches) => asked_by(alloc, &matches),
        Err(error) => Err(unasked_by(alloc, &error)),
    }
}

// Returns what clap answers in place of a command.
fn unasked_by(alloc: Global, error: &Error) -> Unasked {
    if error.kind() == ErrorKind::OutOfMemory {
        return Unasked::Memory;
    }
    match error.to_string(alloc) {
        Ok(text) if error.use_stderr() => Unasked::Wrong(text),
        Ok(text) => Unasked::Shown(text),
        Err(_) => Unasked::Memory,
    }
}

fn matched_words<'a>(
    alloc: Global,
    words: &'a [String],
    version: &'a str,
) -> Result<ArgMatches<'a>, Error> {
    program(alloc, version)?.try_get_matches_from(words)
}

// Describes the program to clap, with `version` after its name if the words ask for the version.
fn program<'a>(alloc: Global, version: &'a str) -> Result<Command<'a>, AllocError> {
    titled(alloc, version).subcommands(commands(alloc)?)
}

// The places where a reader of the help continues.
const DOORS: &str = "\
Three doors:
  At a machine     iolmaster serve IMAGE    examples/serve.md, docs/SERVING.md, docs/DRIVERS.md
  In your program  include/iolmaster.h      docs/C.md, docs/USING.md
  The proof        ./check                  docs/THEOREM.md, docs/PROOFS.md";

// Describes the program without its commands, one of which has to be named.
fn titled<'a>(alloc: Global, version: &'a str) -> Command<'a> {
    Command::new(alloc, "iolmaster")
        .about("The data storage of an IO-Link master")
        .after_help(DOORS)
        .version(version)
        .subcommand_required(true)
}

// Describes the commands that words can name.
fn commands<'a>(alloc: Global) -> Result<Vec<Command<'a>>, AllocError> {
    let mut commands = Vec::new(alloc);
    for command in [
        run(alloc),
        check(alloc),
        draw(alloc),
        format(alloc),
        live(alloc),
        serve(alloc),
        show(alloc),
        map(alloc),
    ] {
        commands.push(command?)?;
    }
    Ok(commands)
}

// Returns the command that matched words ask for.
fn asked_by<'a>(alloc: Global, matches: &ArgMatches<'a>) -> Result<Asked<'a>, Unasked> {
    match matches.subcommand() {
        Some(("serve", matches)) => asked_serve(alloc, matches),
        Some((name, matches)) => Ok(asked_of(name, matches)),
        // clap refuses words without a command.
        None => Ok(Asked::Script {
            path: "",
            what: OnScript::Run,
        }),
    }
}

// Returns the command of this name, with what its words ask for.
fn asked_of<'a>(name: &str, matches: &ArgMatches<'a>) -> Asked<'a> {
    match name {
        "format" => asked_format(matches),
        "live" => asked_live(matches),
        "show" => asked_show(matches),
        "map" => asked_map(matches),
        "check" => on_script(matches, OnScript::Check),
        "draw" => asked_draw(matches),
        _ => asked_run(matches),
    }
}

fn asked_format<'a>(matches: &ArgMatches<'a>) -> Asked<'a> {
    Asked::Format {
        image: text(matches, "IMAGE"),
        ports: number(matches, "ports"),
        slots: number(matches, "slots"),
        force: matches.get_flag("force"),
    }
}

fn asked_live<'a>(matches: &ArgMatches<'a>) -> Asked<'a> {
    Asked::Live {
        image: text(matches, "IMAGE"),
        script: text(matches, "SCRIPT"),
        receipts: matches.get_flag("receipts"),
    }
}

fn asked_show<'a>(matches: &ArgMatches<'a>) -> Asked<'a> {
    Asked::Show {
        image: text(matches, "IMAGE"),
        json: matches.get_flag("json"),
    }
}

fn asked_map<'a>(matches: &ArgMatches<'a>) -> Asked<'a> {
    Asked::Map {
        image: text(matches, "IMAGE"),
        picture: matches.get_str("PICTURE"),
    }
}

fn asked_draw<'a>(matches: &ArgMatches<'a>) -> Asked<'a> {
    Asked::Draw {
        script: text(matches, "SCRIPT"),
        picture: text(matches, "PICTURE"),
    }
}

fn asked_run<'a>(matches: &ArgMatches<'a>) -> Asked<'a> {
    let what = if matches.get_flag("explain") {
        OnScript::Explain
    } else {
        OnScript::Run
    };
    on_script(matches, what)
}

fn on_script<'a>(matches: &ArgMatches<'a>, what: OnScript) -> Asked<'a> {
    Asked::Script {
        path: text(matches, "SCRIPT"),
        what,
    }
}

// The scripts that a user can begin with.
const EXAMPLES: &str = "\
Examples, each with what it prints beside it:
  examples/first.toml                  a port is configured
  examples/sensor_replaced.toml        a new sensor gets the parameters of the old one
  examples/rollback.toml               a client goes back to the parameters before a wrong teach-in
  examples/power_lost_in_a_backup.toml the power stops while parameters are stored
  examples/lost_in_an_upload.toml      a sensor is lost while its parameters are read
  examples/locked_device.toml          a sensor whose parameters are locked
  examples/wrong_device.toml           a sensor that is not the configured one
  examples/failing_disk.toml           a disk call fails";

fn run<'a>(alloc: Global) -> Result<Command<'a>, AllocError> {
    let about = "Runs a script on a disk in memory, and prints its trace and the recovered state";
    let explain = "Says in words what each line says, and tells the calls of the disk";
    let words = Vec::from_array(alloc, [script(alloc), flag(alloc, "explain", explain)])?;
    command(alloc, "run", about, EXAMPLES).args(words)
}

fn check<'a>(alloc: Global) -> Result<Command<'a>, AllocError> {
    Command::new(alloc, "check")
        .about("Tells whether a script can be run, or each mistake in it and where it stands")
        .arg(script(alloc))
}

fn draw<'a>(alloc: Global) -> Result<Command<'a>, AllocError> {
    let picture = "The path of an SVG file for the picture";
    let words = Vec::from_array(alloc, [script(alloc), word(alloc, "PICTURE", picture)])?;
    Command::new(alloc, "draw")
        .about("Runs a script on a disk in memory, and draws what happens and what the stop leaves")
        .args(words)
}

// The notes after the options of `format`.
const FORMAT_NOTES: &str =
    "A file that is there and holds no journal is overwritten, whatever it holds.";

fn format<'a>(alloc: Global) -> Result<Command<'a>, AllocError> {
    let about = "Formats an image file, which is made if there is none";
    let words = [
        image(alloc),
        count(alloc, "ports", "How many ports the master has, 1 to 32"),
        count(
            alloc,
            "slots",
            "How many slots each area has, 2 to 256; 17 at least for 32 ports",
        ),
        flag(alloc, "force", "Erases a journal that is there"),
    ];
    let words = Vec::from_array(alloc, words)?;
    command(alloc, "format", about, FORMAT_NOTES).args(words)
}

// The notes after the options of `live`.
const LIVE_NOTES: &str = "\
The script's devices are at the ports, and each port that has steps has a client in a thread of its own.
Its steps are those of clients alone: configure, clear and rollback.

Ctrl-C and a kill are a power stop: nothing that has its receipt is lost. The image is locked meanwhile.

An example, with what it prints beside it, on an image of 2 ports and 4 slots:
  examples/live.toml                   a sensor is backed up beside two clients";

fn live<'a>(alloc: Global) -> Result<Command<'a>, AllocError> {
    let about =
        "Runs a master on an image file, and prints how many receipts there are and the recovered state";
    let receipts = "Writes a line on standard error for each receipt, as it comes";
    let words = [
        image(alloc),
        script(alloc),
        flag(alloc, "receipts", receipts),
    ];
    let words = Vec::from_array(alloc, words)?;
    command(alloc, "live", about, LIVE_NOTES).args(words)
}

fn show<'a>(alloc: Global) -> Result<Command<'a>, AllocError> {
    let json = "Prints one JSON object in place of lines";
    let words = Vec::from_array(alloc, [image(alloc), flag(alloc, "json", json)])?;
    Command::new(alloc, "show")
        .about("Recovers the state on an image file, and prints it")
        .args(words)
}

fn map<'a>(alloc: Global) -> Result<Command<'a>, AllocError> {
    let picture = "The path of an SVG file for a picture, in place of lines";
    let words = [image(alloc), Arg::new(alloc, "PICTURE").help(picture)];
    let words = Vec::from_array(alloc, words)?;
    Command::new(alloc, "map")
        .about("Tells what stands in the sectors of an image file, and what is wrong there")
        .args(words)
}

// Describes a command, with a text before its options and notes after them.
pub(crate) fn command<'a>(
    alloc: Global,
    name: &'a str,
    about: &'a str,
    notes: &'a str,
) -> Command<'a> {
    Command::new(alloc, name).about(about).after_help(notes)
}

// Describes the path of an image file.
pub(crate) fn image<'a>(alloc: Global) -> Arg<'a> {
    word(alloc, "IMAGE", "The path of an image file")
}

// Describes the path of a script.
fn script<'a>(alloc: Global) -> Arg<'a> {
    word(alloc, "SCRIPT", "The path of a script in TOML")
}

// Describes a required argument.
fn word<'a>(alloc: Global, name: &'a str, help: &'a str) -> Arg<'a> {
    Arg::new(alloc, name).required(true).help(help)
}

// Describes an option that is given or not.
pub(crate) fn flag<'a>(alloc: Global, name: &'a str, help: &'a str) -> Arg<'a> {
    Arg::new(alloc, name)
        .long(name)
        .action(ArgAction::SetTrue)
        .help(help)
}

// Describes a required option with a whole number, 0 to 65,535.
fn count<'a>(alloc: Global, name: &'a str, help: &'a str) -> Arg<'a> {
    Arg::new(alloc, name)
        .long(name)
        .required(true)
        .value_name("N")
        .value_parser(value_parser!(u16))
        .help(help)
}

// Returns the value of a required argument: without one clap refuses the words.
pub(crate) fn text<'a>(matches: &ArgMatches<'a>, name: &str) -> &'a str {
    matches.get_str(name).unwrap_or("")
}

// Returns the number of a required option: without one clap refuses the words.
fn number(matches: &ArgMatches<'_>, name: &str) -> u16 {
    matches.get_one::<u16>(name).unwrap_or(0)
}
