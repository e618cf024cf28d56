//! `iol_plays`, a program for tests and measurements: it runs what no command of `iolmaster` does.
//!
//! - `iol_plays schedule SCRIPT` makes the steps of a script on a disk in memory, also if memory runs out. It prints how they ended, what
//!   was reported of them, and what a recovery with memory finds after a power stop.
//! - `iol_plays live SCRIPT` runs a master in threads on a disk in memory, and prints what `iolmaster live` prints of an image.
//! - `iol_plays clients IMAGE LINKS LEAST CLIENT..` runs a master on an image, and prints the answer to each call of each client. It has
//!   LINKS links, which give no page before LEAST pages were requested, and answer no request before LEAST requests were made. A client
//!   is a word of calls, two letters each: what is asked, and of which port. The letters are `c` for Clear, `f` and `s` for Configure,
//!   `r` for a read, `t` for the status, `n` for the next one while the port is off, `w` to watch until it has settled with its device,
//!   `m` to meet another's receipt; `s` is for device 43981. In the place of a client, `-` waits for a line of standard input. After the
//!   last one, `end` ends the master while they make their calls.
//! - `iol_plays clients SCRIPT.toml 2 LEAST CLIENT..` runs it on a new disk in memory with the devices of a script, and prints what a
//!   recovery then finds after a power stop.
//! - `iol_plays again KIND N CLIENT..` runs a master on a new disk in memory of which the N-th `read`, `write` or `sync` fails, counted
//!   from its recovery, and a second one on the disk that the first returns. It prints what a recovery then finds after a power stop.
//! - `iol_plays misfit` gives a journal a batch that does not follow, also if memory runs out, and prints why it is refused.
//! - `iol_plays two_clients` plays an example to read (`two_clients`).
//! - `iol_plays measure FOLDER ROUNDS` times a journal on files in a folder (`measures`); `bench/run` makes medians of it.
//! - `iol_plays longest FOLDER TURNS` times commits with TURNS turns of the flusher between two of them; `bench/longest` shows the median
//!   and the longest.
#![tactic(auto)]

mod again;
mod asking;
mod behind;
mod clients;
mod live;
mod master;
mod measures;
mod meeting_link;
mod misfit;
mod schedule;
mod two_clients;

use again::play_again;
use anyhow::bail;
use clients::{empty_links, meeting, play_clients};
use iol_commands::opened;
use live::text_of_live;
use master::play_in_memory;
use measures::{measure, time_commits};
use misfit::play_misfit;
use schedule::{play_schedule, show};
use std::io::Input;
use std::sync::Wait;
use std::thread::Threads;
use std::time::Clock;
use two_clients::play_two_clients;

fn main(rt: HostRuntime) -> anyhow::Result<()> {
    let words: Vec<String> = std::env::args(&rt)?.collect(rt.alloc())?;
    play(&rt, &rt, words.as_slice())
}

// Plays what the words of the program name. The functions that run threads take the handle for them.
fn play<R: Threads + Wait + Clock + Input + Copy + Send + 'static>(
    rt: &R,
    host: &HostRuntime,
    words: &[String],
) -> anyhow::Result<()> {
    match words {
        [_, play] => play_alone(rt, host, play.as_str()),
        [_, play, kind, nth, clients @ ..] if play.as_str() == "again" => {
            play_twice(rt, host, kind.as_str(), nth.as_str(), clients)
        }
        [_, play, path] => play_script(rt, host, play.as_str(), path.as_str()),
        [_, play, folder, count] => play_in(host, play.as_str(), folder.as_str(), count.as_str()),
        [_, _, path, links, least, clients @ ..] => {
            play_with(
                rt,
                host,
                path.as_str(),
                links.as_str(),
                least.as_str(),
                clients,
            )
        }
        _ => Ok(()),
    }
}

// Plays what needs no file.
fn play_alone<R: Threads + Wait + Clock + Copy + Send + 'static>(
    rt: &R,
    host: &HostRuntime,
    play: &str,
) -> anyhow::Result<()> {
    if play == "misfit" {
        return play_misfit(host.alloc(), &mut host.stdout());
    }
    play_two_clients(rt, host.alloc(), &mut host.stdout())
}

// Plays two masters, one after another, on a disk whose call of this number fails.
fn play_twice<R: Threads + Wait + Clock + Input + Copy + Send + 'static>(
    rt: &R,
    host: &HostRuntime,
    kind: &str,
    nth: &str,
    clients: &[String],
) -> anyhow::Result<()> {
    let nth = nth.parse()?;
    let disk = play_again(rt, host.alloc(), kind, nth, clients, &mut host.stdout())?;
    show(host, disk)
}

// Plays the script at a path.
fn play_script<R: Threads + Wait + Clock + Copy + Send + 'static>(
    rt: &R,
    host: &HostRuntime,
    play: &str,
    path: &str,
) -> anyhow::Result<()> {
    let script = std::fs::read(host, path)?;
    if play == "schedule" {
        return play_schedule(host, &script);
    }
    let text = text_of_live(rt, host.alloc(), &script, &mut host.stderr())?;
    print!(host; "{text}")?;
    Ok(())
}

// Measures in a folder.
fn play_in(host: &HostRuntime, play: &str, folder: &str, count: &str) -> anyhow::Result<()> {
    if play == "longest" {
        return time_commits(host, folder, count.parse()?);
    }
    measure(host, folder, count.parse()?)
}

// Plays the clients of a master, on an image or with the devices of a script.
fn play_with<R: Threads + Wait + Clock + Input + Copy + Send + 'static>(
    rt: &R,
    host: &HostRuntime,
    path: &str,
    links: &str,
    least: &str,
    clients: &[String],
) -> anyhow::Result<()> {
    let least = least.parse()?;
    if path.ends_with(".toml") {
        return play_devices(rt, host, path, least, clients);
    }
    let Ok(disk) = opened(host, path) else {
        bail!("no image")
    };
    let links = empty_links(host.alloc(), links.parse()?)?;
    let links = meeting(host.alloc(), links, least)?;
    let _disk = play_clients(rt, host.alloc(), disk, links, clients, &mut host.stdout())?;
    Ok(())
}

// Plays the clients of a master in memory, with the devices of the script at a path.
fn play_devices<R: Threads + Wait + Clock + Input + Copy + Send + 'static>(
    rt: &R,
    host: &HostRuntime,
    path: &str,
    least: u64,
    clients: &[String],
) -> anyhow::Result<()> {
    let script = std::fs::read(host, path)?;
    let disk = play_in_memory(
        rt,
        host.alloc(),
        &script,
        least,
        clients,
        &mut host.stdout(),
    )?;
    show(host, disk)
}
