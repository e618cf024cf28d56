//! Carries out the command that the words of the command line name.

ghost use Rattle.std.specs.Prelude.{◌≤◌};

use crate::script_file::{is_memory, read_script};
use crate::serving::serve_file;
use crate::version::version_text;
use crate::words::{Asked, OnScript, Unasked, read_words};
use iol_check::check_text;
use iol_commands::{Fault, format_image, print, report, run_text, show_image};
use iol_draw::draw_text;
use iol_explain::explain_text;
use iol_live::{Telling, live_image};
use iol_view::{draw_map, json_image, map_image};
use std::fs::File;
use std::io::{BufWriter, IsTerminal, Write};
use std::rt::Files;
use std::sync::Wait;
use std::thread::Threads;
use std::time::Clock;

// Carries out the command that the program's words name, and returns its exit status. Without a command it is 2 if the words
// are wrong, 0 once the help or the version is printed, and otherwise 1.
pub(crate) fn run_program<
    R: Files<File = File> + AllocGlobal + Threads + Wait + Clock + Copy + Send + 'static,
>(rt: &R, host: HostRuntime) -> u8
    ensures { result ≤ 2 }
{
    match words(&host) {
        Ok(words) => run_words(rt, host, words.as_slice()),
        Err(fault) => report(&mut host.stderr(), &fault),
    }
}

fn words(rt: &HostRuntime) -> Result<Vec<String>, Fault<'static>> {
    match std::env::args(rt) {
        Ok(words) => Ok(words.collect(rt.alloc())?),
        Err(error) if is_memory(&error) => Err(Fault::Memory),
        Err(_) => Err(Fault::Words),
    }
}

// Carries out the command that these words name. The first word is the name of the program.
fn run_words<R: Files<File = File> + AllocGlobal + Threads + Wait + Clock + Copy + Send + 'static>(
    rt: &R,
    host: HostRuntime,
    words: &[String],
) -> u8
    ensures { result ≤ 2 }
{
    let Ok(version) = version_text(host.alloc()) else {
        return report(&mut host.stderr(), &Fault::Memory);
    };
    match read_words(host.alloc(), words, version.as_str()) {
        Ok(asked) => carry_out(rt, host, asked),
        Err(unasked) => answer(&host, &unasked),
    }
}

// Carries out a command. The commands that run threads take the handle for them.
fn carry_out<R: Files<File = File> + AllocGlobal + Threads + Wait + Clock + Copy + Send + 'static>(
    rt: &R,
    host: HostRuntime,
    asked: Asked<'_>,
) -> u8
    ensures { result ≤ 2 }
{
    let (mut out, mut err) = (host.stdout(), host.stderr());
    match asked {
        Asked::Script { path, what } => answer_script(&host, path, what),
        Asked::Draw { script, picture } => draw_file(&host, script, picture),
        Asked::Format {
            image,
            ports,
            slots,
            force,
        } => format_image(&host, image, ports, slots, force, &mut out, &mut err),
        Asked::Live {
            image,
            script,
            receipts,
        } => live_file(rt, host, image, script, receipts),
        Asked::Serve(words) => serve_file(rt, host, &words),
        Asked::Show { image, json: true } => json_image(&host, image, &mut out, &mut err),
        Asked::Show { image, json: false } => show_image(&host, image, &mut out, &mut err),
        Asked::Map {
            image,
            picture: Some(picture),
        } => draw_map(&host, image, picture, &mut out, &mut err),
        Asked::Map {
            image,
            picture: None,
        } => map_image(&host, image, &mut out, &mut err),
    }
}

// Shows what takes the place of a command: the help or the version, or why the words are wrong.
fn answer(rt: &HostRuntime, unasked: &Unasked) -> u8
    ensures { result ≤ 2 }
{
    match unasked {
        Unasked::Shown(text) => print(&mut rt.stdout(), text.as_bytes()),
        Unasked::Wrong(text) => {
            let _ = rt.stderr().write_all(text.as_bytes());
            2
        }
        Unasked::Memory => report(&mut rt.stderr(), &Fault::Memory),
    }
}

fn answer_script(rt: &HostRuntime, path: &str, what: OnScript) -> u8
    ensures { result ≤ 2 }
{
    let (alloc, mut out, mut err) = (rt.alloc(), rt.stdout(), rt.stderr());
    let script = match read_script(rt, path) {
        Ok(script) => script,
        Err(fault) => return report(&mut err, &fault),
    };
    match what {
        OnScript::Run => run_script(rt, script.as_slice()),
        OnScript::Explain => explain_text(alloc, script.as_slice(), &mut out, &mut err),
        OnScript::Check => check_text(alloc, script.as_slice(), &mut out, &mut err),
    }
}

// Runs a script. Its text is written as it is made, through a buffer of fixed size that is allocated before the run.
fn run_script(rt: &HostRuntime, script: &[u8]) -> u8
    ensures { result ≤ 2 }
{
    let (alloc, mut err) = (rt.alloc(), rt.stderr());
    let Ok(mut out) = BufWriter::new(alloc, rt.stdout()) else {
        return report(&mut err, &Fault::Memory);
    };
    let status = run_text(alloc, script, &mut out, &mut err);
    // The run has flushed its text. If that failed, nothing more is written.
    let _ = out.into_parts();
    status
}

fn draw_file(rt: &HostRuntime, path: &str, picture: &str) -> u8
    ensures { result ≤ 2 }
{
    let (mut out, mut err) = (rt.stdout(), rt.stderr());
    match read_script(rt, path) {
        Ok(script) => draw_text(rt, path, script.as_slice(), picture, &mut out, &mut err),
        Err(fault) => report(&mut err, &fault),
    }
}

fn live_file<R: Files<File = File> + AllocGlobal + Threads + Wait + Clock + Copy + Send + 'static>(
    rt: &R,
    host: HostRuntime,
    image: &str,
    path: &str,
    receipts: bool,
) -> u8
    ensures { result ≤ 2 }
{
    let (mut out, mut err) = (host.stdout(), host.stderr());
    let telling = if receipts {
        Telling::Receipts
    } else if err.is_terminal() {
        Telling::Progress
    } else {
        Telling::Nothing
    };
    match read_script(&host, path) {
        Ok(script) => live_image(rt, image, script.as_slice(), telling, &mut out, &mut err),
        Err(fault) => report(&mut err, &fault),
    }
}
