//! Writing bytes to a sink.
ghost use Rattle.std.specs.Prelude.{OnOk, OnErr, is_err};
ghost use Rattle.std.specs.Io.KnownBytes.{Appends};
ghost use Rattle.histar_io.specs.Device.{CountsFailure};
ghost use Rattle.histar_io.specs.Writing.{AppendsFront};

use crate::device::Sink;
use thiserror::Error;

/// A call of the sink answered with an error, or took none of the bytes.
#[derive(Clone, Copy, Debug, PartialEq, Eq, Error)]
#[error("write failed")]
pub struct WriteFailed;

/// Hands all of the bytes to a sink, which may take them in any pieces.
///
/// The first `Err`, and the first 0 for bytes that were handed over, ends the writing.
pub fn write_bytes<W: Sink>(writer: &mut W, bytes: &[u8]) -> Result<(), WriteFailed>
    ensures ok { OnOk result (Appends (W.written writer.old) (W.written writer.new) bytes.now) }
    ensures err { OnErr result (AppendsFront (W.written writer.old) (W.written writer.new) bytes.now) }
    ensures count { CountsFailure (W.failures writer.old) (W.failures writer.new) (is_err result) }
{
    let mut rest = bytes;
    'rest: while !rest.is_empty() {
        match writer.give(rest) {
            Ok(0) => return Err(WriteFailed),
            Ok(n) => rest = &rest[n..],
            Err(_) => return Err(WriteFailed),
        }
    }
    Ok(())
}
