//! The program for plain runs: `histar_run run [--tree] [--trace] FILE` answers as `histar` does.
#![tactic(auto)]

mod words;

use crate::words::read_words;
use histar_console::{REFUSED, command_line, outcome_status, refuse, report, run_plain};
use histar_shell::Options;
use std::alloc::Global;
use std::io;
use std::process::ExitCode;
use std::rt::{Env, Files};

/// Does what the words ask for, and returns the status.
fn obey<R: Files + Input + Print + Eprint>(rt: &R, alloc: Global, words: &[&str]) -> u8 {
    let Some(asked) = read_words(words) else {
        let _ = eprintln!(rt; "histar: this program takes `run [--tree] [--trace] FILE` alone");
        return REFUSED;
    };
    let options = Options {
        tree: asked.tree,
        trace: asked.trace,
    };
    match run_plain(rt, alloc, asked.file, options) {
        Ok(outcome) => outcome_status(outcome),
        Err(fault) => report(rt, &fault),
    }
}

/// Reads the command line and obeys it. A command line that can't be read is refused.
fn start<R: Env + Files + Input + Print + Eprint + AllocGlobal>(rt: &R) -> u8 {
    let alloc = rt.alloc();
    let owned = match command_line(rt) {
        Ok(owned) => owned,
        Err(error) => return refuse(rt, &error),
    };
    let words = owned.iter().map(|word| word.as_str());
    match words.collect::<Vec<&str>>(alloc) {
        Ok(words) => obey(rt, alloc, words.as_slice()),
        Err(error) => refuse(rt, &io::Error::from(error)),
    }
}

fn main(rt: HostRuntime) -> ExitCode {
    ExitCode::from(start(&rt))
}
