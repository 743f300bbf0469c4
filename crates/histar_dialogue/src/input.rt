//! The lines of a source, each as soon as its end is there.
ghost use Rattle.std.specs.Prelude.{◌≡◌, false, IfErr, IfOk, OnOk, length};
ghost use Rattle.histar_dialogue.specs.Input.{FailsReading, Fills, IsEmptyInput, SplitsLine, TakesLine, TakesNext, has_feed};
ghost use Rattle.histar_io.specs.Device.{CountsFailure};
ghost use Rattle.histar_script.specs.Runs.{is_read_failed};

use histar_flat::split_at_first;
use histar_io::Source;
use histar_script::Fault;
use std::alloc::{AllocError, Global};

/// How many bytes one read asks for.
const CHUNK: usize = 4096;

/// The bytes that were read and that no line has yet, and whether the source has ended.
#[derive(Drop)]
pub(crate) struct Input {
    waiting: Vec<u8>,
    is_ended: bool,
}

impl Input {
    /// Returns the input of which nothing was read.
    pub fn new(alloc: Global) -> Input
        ensures { IsEmptyInput result }
    {
        Input {
            waiting: Vec::new(alloc),
            is_ended: false,
        }
    }

    /// Returns the next line, without its end, or `None` at the end of the source. It reads only
    /// while no whole line waits, and a read that gives less than was asked for is enough. A last
    /// line may lack its end.
    pub fn next_line<R: Source>(
        &mut self,
        alloc: Global,
        reader: &mut R,
    ) -> Result<Option<Vec<u8>>, Fault>
        ensures ok { IfOk result (TakesNext (R.left reader.old) (R.left reader.new) self.old self.new) }
        ensures err { IfErr result (FailsReading (R.left reader.old) (R.left reader.new)) }
        ensures count { CountsFailure (R.failures reader.old) (R.failures reader.new) (is_read_failed result) }
    {
        self.fill(reader)?;
        Ok(self.take(alloc)?)
    }

    /// Reads until a whole line waits, or the source has ended.
    fn fill<R: Source>(&mut self, reader: &mut R) -> Result<(), Fault>
        ensures ok { OnOk result (Fills (R.left reader.old) (R.left reader.new) self.old self.new) }
        ensures err { IfErr result (FailsReading (R.left reader.old) (R.left reader.new)) }
        ensures count { CountsFailure (R.failures reader.old) (R.failures reader.new) (is_read_failed result) }
    {
        if self.is_ended || has_feed(self.waiting.as_slice()) {
            return Ok(());
        }
        self.pull_line(reader)
    }

    /// Reads until a line end comes, or the source has ended.
    fn pull_line<R: Source>(&mut self, reader: &mut R) -> Result<(), Fault>
        requires { self.old.is_ended ≡ false }
        ensures ok { OnOk result (Fills (R.left reader.old) (R.left reader.new) self.old self.new) }
        ensures err { IfErr result (FailsReading (R.left reader.old) (R.left reader.new)) }
        ensures count { CountsFailure (R.failures reader.old) (R.failures reader.new) (is_read_failed result) }
    {
        let mut chunk = [0u8; CHUNK];
        'chunks: while self.waiting.len() < usize::MAX {
            match reader.pull(&mut chunk) {
                Ok(0) => {
                    self.is_ended = true;
                    return Ok(());
                }
                Ok(n) => {
                    self.waiting.extend_from_slice(&chunk[..n])?;
                    if has_feed(&chunk[..n]) {
                        return Ok(());
                    }
                }
                Err(_) => return Err(Fault::ReadFailed),
            }
        }
        Err(Fault::OutOfMemory)
    }

    /// Takes the first line that waits, or all that waits if it has no line end.
    fn take(&mut self, alloc: Global) -> Result<Option<Vec<u8>>, AllocError>
        ensures { IfOk result (TakesLine self.old self.new) }
    {
        if self.waiting.is_empty() {
            return Ok(None);
        }
        let (line, rest) = split_line_off(alloc, self.waiting.as_slice())?;
        self.waiting = rest;
        Ok(Some(line))
    }
}

/// Checks whether a text has a line end.
fn has_feed(text: &[u8]) -> bool
    ensures { result ≡ has_feed text.now }
{
    text.contains(&b'\n')
}

/// Returns the bytes before the first line end of a text, and those behind it.
fn split_line_off(alloc: Global, text: &[u8]) -> Result<(Vec<u8>, Vec<u8>), AllocError>
    ensures { IfOk result (λ parts. SplitsLine text.now parts.0.items parts.1.items) }
{
    match split_at_first(text, b'\n') {
        (line, None) => Ok((Vec::from_slice(alloc, line)?, Vec::new(alloc))),
        (line, Some(rest)) => Ok((Vec::from_slice(alloc, line)?, Vec::from_slice(alloc, rest)?)),
    }
}
