//! The processes and the path in a line.
ghost use Rattle.std.specs.Prelude.{◌≡◌};
ghost use Rattle.histar_names.specs.Clues.{clue_of, process_named};

use histar_flat::{Path, ProcName, UnixCall};

/// The processes and the path in a line: objects and categories are looked for at these.
#[derive(Clone, Copy)]
pub struct Clue {
    /// The process that makes the call.
    pub caller: ProcName,
    /// The process that the call names.
    pub named: ProcName,
    /// The path that the call names.
    pub path: Path,
}

/// Returns the process that a call names, or the one that makes it.
fn process_named(caller: &ProcName, call: &UnixCall) -> ProcName
    ensures { result ≡ process_named caller.now call.now }
{
    match call {
        UnixCall::Status(name) => *name,
        UnixCall::Kill(name) => *name,
        _ => *caller,
    }
}

/// Returns the processes and the path in a line.
pub fn clue_of(caller: &ProcName, call: &UnixCall) -> Clue
    ensures { result ≡ clue_of caller.now call.now }
{
    Clue {
        caller: *caller,
        named: process_named(caller, call),
        path: call.path(),
    }
}
