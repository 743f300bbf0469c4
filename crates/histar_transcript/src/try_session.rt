//! Trying calls behind the lines of a script, from bytes to bytes.
ghost use Rattle.std.specs.Prelude.{◌≡◌, false, IfErr, IfOk, IfSome, map};
ghost use Rattle.histar_io.specs.Device.{CountsFailure};
ghost use Rattle.histar_script.specs.Reading.{script_of};
ghost use Rattle.histar_script.specs.Runs.{LeavesSink, RunsInput, is_read_failed, is_write_failed};
ghost use Rattle.histar_script.specs.Script.{IsDeclared};
ghost use Rattle.histar_transcript.specs.TrySession.{Tries, TriesExtended};

use crate::extended::{extended_text, kept_lines};
use crate::transcript::lines_in;
use crate::tried::tried_replies;
use histar_command::{Command, run_command};
use histar_io::{Sink, Source, write_bytes};
use histar_lint::sentence_on;
use histar_script::{Fault, Script, read_script};
use std::alloc::Global;

/// What came of calls that were tried.
#[derive(Drop)]
pub enum Tried {
    /// All were made, and their replies were written.
    Made,
    /// The call of this number, which counts from 1, is bad: none was made. The sentence says what is wrong.
    BadCall(usize, Vec<u8>),
}

/// Reads a script, and makes calls behind its lines, or behind those before the given one; each call is text as a
/// line of a script has it. It writes the replies to these calls alone, each after its line number and its call.
///
/// The script and all calls are read and checked before the first call is made. It doesn't flush the sink.
pub fn try_calls<R: Source, W: Sink>(
    alloc: Global,
    calls: &[&[u8]],
    reader: &mut R,
    writer: &mut W,
    at: Option<u32>,
) -> Result<Tried, Fault>
    // After a bad script, one that is too long or a failed read, the sink is as it was.
    ensures nothing { IfErr result (LeavesSink writer.old writer.new) }

    // A device has failed exactly if its fault is returned.
    ensures reads { CountsFailure (R.failures reader.old) (R.failures reader.new) (is_read_failed result) }
    ensures writes { CountsFailure (W.failures writer.old) (W.failures writer.new) (is_write_failed result) }

    // Some bytes of the source were read, to its end but never more than 1,048,577: the fault of their script
    // is returned, or the script with the calls behind it is read: the replies of its meaning to the calls are
    // written, or its bad call is returned.
    ensures runs { RunsInput (Tries at (map (λ call. call.now) calls.now)) (R.left reader.old) (R.left reader.new)
        (W.written writer.old) (W.written writer.new) result }

    // If the input is known, this is so of the script of the whole input.
    ensures known { IfSome (R.left reader.old) (λ input. Tries at (map (λ call. call.now) calls.now) input
        (W.written writer.old) (W.written writer.new) result) }
{
    run_command(alloc, reader, writer, Trying { calls, at })
}

/// The command of `try_calls`.
#[derive(Drop)]
struct Trying<'a> {
    calls: &'a [&'a [u8]],
    at: Option<u32>,
}

impl<'a> Command for Trying<'a> {
    ghost use Rattle.std.proofs.Common.{rules};

    type Answer = Tried;

    type Memory = Global;

    ghost Runs = { λ command. Tries command.at (map (λ call. call.now) command.calls.now) };

    fn on_text<W: Sink>(
        self,
        alloc: Global,
        text: Vec<u8>,
        writer: &mut W,
    ) -> Result<Tried, Fault> {
        try_text(alloc, text.as_slice(), self.calls, self.at, writer)
    }

    ghost unread = { Prim.search rules };

    ghost long = { Prim.search rules };
}

/// Makes calls behind the lines of the script in a text, and writes their replies.
fn try_text<W: Sink>(
    alloc: Global,
    text: &[u8],
    calls: &[&[u8]],
    at: Option<u32>,
    writer: &mut W,
) -> Result<Tried, Fault>
    ensures nothing { IfErr result (LeavesSink writer.old writer.new) }
    ensures reads { is_read_failed result ≡ false }
    ensures writes { CountsFailure (W.failures writer.old) (W.failures writer.new) (is_write_failed result) }
    ensures runs { Tries at (map (λ call. call.now) calls.now) text.now (W.written writer.old)
        (W.written writer.new) result }
{
    let _script = read_script(alloc, text)?;
    let lines = lines_in(alloc, text)?;
    let kept = kept_lines(lines.as_slice(), at);
    let extended = extended_text(alloc, lines.as_slice(), kept, calls)?;
    try_extended(alloc, extended.as_slice(), kept, writer)
}

/// Makes the calls of the script in a text, and writes the replies to those behind the first lines.
fn try_extended<W: Sink>(
    alloc: Global,
    text: &[u8],
    first: usize,
    writer: &mut W,
) -> Result<Tried, Fault>
    ensures nothing { IfErr result (LeavesSink writer.old writer.new) }
    ensures reads { is_read_failed result ≡ false }
    ensures writes { CountsFailure (W.failures writer.old) (W.failures writer.new) (is_write_failed result) }
    ensures runs { TriesExtended text.now first (W.written writer.old) (W.written writer.new) result }
{
    match read_script(alloc, text) {
        Ok(script) => write_replies(alloc, text, script, first, writer),
        Err(Fault::BadScript(line)) => {
            let sentence = sentence_on(alloc, text, line)?;
            Ok(Tried::BadCall((line as usize).saturating_sub(first), sentence))
        }
        Err(Fault::TooLong) => Err(Fault::TooLong),
        Err(_) => Err(Fault::OutOfMemory),
    }
}

/// Makes the calls of a script of a text, and writes the replies to those behind the first lines.
fn write_replies<W: Sink>(
    alloc: Global,
    text: &[u8],
    script: Script,
    first: usize,
    writer: &mut W,
) -> Result<Tried, Fault>
    requires declared { IsDeclared script.accounts }
    requires read { script_of text.now ≡ Ok script }
    ensures nothing { IfErr result (LeavesSink writer.old writer.new) }
    ensures reads { is_read_failed result ≡ false }
    ensures writes { CountsFailure (W.failures writer.old) (W.failures writer.new) (is_write_failed result) }
    ensures runs { TriesExtended text.now first (W.written writer.old) (W.written writer.new) result }
{
    let replies = tried_replies(alloc, text, script, first)?;
    write_bytes(writer, replies.as_slice())?;
    Ok(Tried::Made)
}
