//! A run of a script with nothing to explain.

use crate::files::{finish, open, output};
use crate::status::Outcome;
use histar_script::Fault;
use histar_shell::{Options, run};
use std::alloc::Global;
use std::mem::forget;
use std::rt::Files;

/// Runs the script in a file, and prints the replies and, where they are asked for, the tree and the trace.
pub fn run_plain<R: Files + Input + Print>(
    rt: &R,
    alloc: Global,
    path: &str,
    options: Options,
) -> Result<Outcome, Fault> {
    let mut reader = open(rt, path)?;
    let mut writer = output(rt, alloc)?;
    // The program ends soon; it takes no time to free the trace.
    let done = run(alloc, &mut reader, &mut writer, options).map(|trace| forget(trace));
    finish(done.map(|_| Outcome::Done), writer)
}
