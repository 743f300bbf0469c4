//! The devices of a run: where it reads, where it writes, and how often they failed.
ghost use Rattle.std.specs.Prelude.{◌≡◌, ℕ, List, Option, is_err};
ghost use Rattle.std.specs.Io.{ReadsAtMost, WritesAtMost};
ghost use Rattle.std.specs.Io.KnownBytes.{ReadConsumes, WriteAppends};
ghost use Rattle.histar_io.specs.Device.{CountsFailure, has_failed_write};

use std::io;
use std::io::{Read, Write};

/// Where the bytes of a script come from.
///
/// A source is a reader that counts its failed calls: a run reports that a read failed exactly if the count
/// rose. `Counted` makes a source of any reader.
pub trait Source {
    // The bytes that are left, if the source knows them.
    ghost left: { Self → Option (List ℕ) };

    // How many calls have failed, up to the greatest number of 64 bits.
    ghost failures: { Self → ℕ };

    /// Reads some of the bytes that are left, as `Read::read` does: 0 for a buffer with room means the end.
    /// Every `Err` is a failure, whatever its kind.
    fn pull(&mut self, buffer: &mut [u8]) -> io::Result<usize>
        ensures bound { ReadsAtMost result buffer.new }
        ensures bytes { ReadConsumes (left self.old) (left self.new) result buffer.new }
        ensures count { CountsFailure (failures self.old) (failures self.new) (is_err result) };
}

/// Where the replies of a script go.
///
/// A sink is a writer that counts its failed calls: a run reports that a write failed exactly if the count
/// rose. `Counted` makes a sink of any writer.
pub trait Sink {
    // The bytes that were written, if the sink knows them.
    ghost written: { Self → Option (List ℕ) };

    // How many calls have failed, up to the greatest number of 64 bits.
    ghost failures: { Self → ℕ };

    /// Writes some bytes from the front, as `Write::write` does. An `Err` is a failure, and 0 is one too if
    /// there were bytes to write.
    fn give(&mut self, bytes: &[u8]) -> io::Result<usize>
        ensures bound { WritesAtMost result bytes.now }
        ensures bytes { WriteAppends (written self.old) (written self.new) result bytes.now }
        ensures count { CountsFailure (failures self.old) (failures self.new)
            (has_failed_write result bytes.now) };
}

/// A reader or a writer with a count of its failed calls.
#[derive(Drop)]
pub struct Counted<T> {
    inner: T,
    failures: u64,
}

impl<T> Counted<T> {
    /// Returns a reader or a writer of which no call has failed yet.
    pub fn new(inner: T) -> Counted<T>
        ensures inner { result.inner ≡ inner }
        ensures count { result.failures ≡ 0 }
    {
        Counted { inner, failures: 0 }
    }

    /// Returns how many calls have failed. At the greatest number of 64 bits there may have been more.
    pub fn failures(&self) -> u64
        ensures { result ≡ self.now.failures }
    {
        self.failures
    }

    /// Returns the reader or the writer itself, for a flush after a run.
    pub fn into_inner(self) -> T
        ensures { result ≡ self.inner }
    {
        let Counted { inner, failures: _ } = self;
        inner
    }
}

impl<R: Read> Source for Counted<R> {
    ghost left = { λ s. R.remaining s.inner };

    ghost failures = { λ s. s.failures };

    fn pull(&mut self, buffer: &mut [u8]) -> io::Result<usize> {
        let result = self.inner.read(buffer);
        if result.is_err() {
            self.failures = self.failures.saturating_add(1);
        }
        result
    }
}

impl<W: Write> Sink for Counted<W> {
    ghost written = { λ s. W.contents s.inner };

    ghost failures = { λ s. s.failures };

    fn give(&mut self, bytes: &[u8]) -> io::Result<usize> {
        let result = self.inner.write(bytes);
        let has_failed = match &result {
            Ok(n) => *n == 0 && !bytes.is_empty(),
            Err(_) => true,
        };
        if has_failed {
            self.failures = self.failures.saturating_add(1);
        }
        result
    }
}
