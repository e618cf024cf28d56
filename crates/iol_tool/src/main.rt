//! `iolmaster`, the program: it carries out the command that the words of the command line name.
//!
//! It takes the words of the program, and returns the exit status; the command writes to standard output and standard error. The
//! commands themselves are those of `iol_commands`, `iol_check`, `iol_explain`, `iol_draw`, `iol_view`, `iol_live` and `iol_serve`.
//!
//! Modules in reading order:
//! - `words` reads the words of all commands, `serve_words` those of `serve`, and `port_files` the files of drivers among them. Tests
//!   cover what words ask for (`tests/words.cases`): no contract repeats the words of `clap`.
//! - `arguments` carries out what words ask for, `serving` carries out `serve`, `script_file` reads a script from its file, and
//!   `version` has the text of `--version`.
#![tactic(auto)]

mod arguments;
mod port_files;
mod script_file;
mod serve_words;
mod serving;
mod version;
mod words;

use arguments::run_program;
use std::process::ExitCode;

fn main(rt: HostRuntime) -> ExitCode {
    ExitCode::from(run_program(&rt, rt))
}
