//! Reading the whole of a source.
ghost use Rattle.std.specs.Prelude.{◌≡◌, IfOk, OnErr};
ghost use Rattle.histar_io.specs.declared.input.InputError.TheVariants.{OutOfMemory};
ghost use Rattle.histar_io.specs.Device.{CountsFailure};
ghost use Rattle.histar_io.specs.Input.{TakesAll, TakesSome, is_read_failed};
ghost use Rattle.histar_io.specs.Memory.{OnOutOfMemory};

use crate::device::Source;
use histar_heap::Heap;
use std::alloc::AllocError;
use thiserror::Error;

/// The most bytes that a run takes of its input: one more than a script may have, which is enough
/// to know that it has too many.
const MOST_TAKEN: usize = 1_048_577;

/// How many bytes one read asks for.
const CHUNK: usize = 4096;

/// Why the whole of a source was not read.
#[derive(Clone, Copy, Debug, PartialEq, Eq, Error)]
pub enum InputError {
    /// A call of the source answered with an error.
    #[error("read failed")]
    ReadFailed,
    #[error("out of memory")]
    OutOfMemory,
}

impl From<AllocError> for InputError {
    ghost from_gives = { λ _ e. e ≡ OutOfMemory };

    fn from(_e: AllocError) -> InputError {
        InputError::OutOfMemory
    }
}

/// Reads a source up to its end, or up to one byte more than a script may have.
///
/// Each failed read is an error, of whatever kind, and no read is tried again.
pub fn read_input<H: Heap, R: Source>(heap: H, reader: &mut R) -> Result<Vec<u8>, InputError>
    ensures ok { IfOk result (λ input. TakesAll (R.left reader.old) (R.left reader.new) input.items) }
    ensures err { OnErr result (TakesSome (R.left reader.old) (R.left reader.new)) }
    ensures count { CountsFailure (R.failures reader.old) (R.failures reader.new) (is_read_failed result) }
    ensures memory { OnOutOfMemory result H.Refused }
{
    let mut input = Vec::new(heap.alloc());
    let mut chunk = [0u8; CHUNK];
    'chunks: while input.len() < MOST_TAKEN {
        let room = CHUNK.min(MOST_TAKEN - input.len());
        match reader.pull(&mut chunk[..room]) {
            Ok(0) => break 'chunks,
            Ok(n) => heap.extend(&mut input, &chunk[..n])?,
            Err(_) => return Err(InputError::ReadFailed),
        }
    }
    Ok(input)
}
