//! Faults: why a script is not read, or why its run stops.
ghost use Rattle.std.specs.Prelude.{◌≡◌};
ghost use Rattle.histar_script.specs.declared.fault.Fault.TheVariants.{OutOfMemory, WriteFailed};
ghost use Rattle.histar_script.specs.Outcome.{input_fault};

use histar_io::{InputError, WriteFailed};
use std::alloc::{AllocError, AllocFailed};
use thiserror::Error;

/// Why a script was not read, or its run stopped.
#[derive(Clone, Copy, Debug, PartialEq, Eq, Error)]
pub enum Fault {
    /// The number of the first bad line, from 1 on; a text without users is bad one line past its last.
    #[error("bad script at line {0}")]
    BadScript(u32),
    /// The script has more than 1,048,576 bytes or more than 16,384 lines.
    #[error("script too long")]
    TooLong,
    #[error("out of memory")]
    OutOfMemory,
    /// The input answered with an error.
    #[error("read failed")]
    ReadFailed,
    /// The output answered with an error, or took nothing.
    #[error("write failed")]
    WriteFailed,
}

impl From<AllocError> for Fault {
    ghost from_gives = { λ _ e. e ≡ OutOfMemory };

    fn from(_e: AllocError) -> Fault {
        Fault::OutOfMemory
    }
}

impl<T: Drop> From<AllocFailed<T>> for Fault {
    ghost from_gives = { λ _ e. e ≡ OutOfMemory };

    fn from(_e: AllocFailed<T>) -> Fault {
        Fault::OutOfMemory
    }
}

impl From<InputError> for Fault {
    ghost from_gives = { λ error fault. fault ≡ input_fault error };

    fn from(error: InputError) -> Fault {
        match error {
            InputError::ReadFailed => Fault::ReadFailed,
            InputError::OutOfMemory => Fault::OutOfMemory,
        }
    }
}

impl From<WriteFailed> for Fault {
    ghost from_gives = { λ _ fault. fault ≡ WriteFailed };

    fn from(_error: WriteFailed) -> Fault {
        Fault::WriteFailed
    }
}
