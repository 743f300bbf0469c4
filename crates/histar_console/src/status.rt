//! The exit statuses of the programs.
ghost use Rattle.std.specs.Prelude.{◌≡◌};
ghost use Rattle.histar_console.specs.Status.{outcome_status, status_of};

use histar_script::Fault;

/// The status of a refused command line.
pub const REFUSED: u8 = 2;

/// The outcome of a task that was done.
#[derive(Clone, Copy)]
pub enum Outcome {
    Done,
    /// The answer to the question is no.
    NotSo,
    /// The script is bad.
    BadScript,
}

/// Returns the exit status of a task that was done: 0, or 5 if the answer is no, or 1 if a script is bad.
pub fn outcome_status(outcome: Outcome) -> u8
    ensures { result ≡ outcome_status outcome }
{
    match outcome {
        Outcome::Done => 0,
        Outcome::BadScript => 1,
        Outcome::NotSo => 5,
    }
}

/// Returns the exit status of a fault: 1 for the script, 3 for memory that ran out, 4 for a device. A refused
/// command line has 2.
pub fn status(fault: &Fault) -> u8
    ensures { result ≡ status_of fault.now }
{
    match fault {
        Fault::BadScript(_) | Fault::TooLong => 1,
        Fault::OutOfMemory => 3,
        Fault::ReadFailed | Fault::WriteFailed => 4,
    }
}

/// Writes a fault to standard error, and returns its status.
pub fn report<R: Eprint>(rt: &R, fault: &Fault) -> u8
    ensures { result ≡ status_of fault.now }
{
    let _ = eprintln!(rt; "histar: {fault}");
    status(fault)
}
