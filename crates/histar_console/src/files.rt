//! Files and standard output: where FILE is read from, and where a task writes.

use histar_io::Counted;
use histar_script::Fault;
use std::alloc::Global;
use std::fs;
use std::io::{self, BufWriter, Printer, Read, Write};
use std::rt::Files;

/// Where a FILE is read from.
#[derive(Drop)]
pub enum Script<F, I> {
    File(F),
    StandardInput(I),
}

impl<F: Read, I: Read> Read for Script<F, I> {
    fn read(&mut self, buffer: &mut [u8]) -> io::Result<usize> {
        match self {
            Script::File(file) => file.read(buffer),
            Script::StandardInput(input) => input.read(buffer),
        }
    }
}

/// Opens a FILE; `-` is standard input.
pub fn open<R: Files + Input>(
    rt: &R,
    path: &str,
) -> Result<Counted<Script<R::File, R::Reader>>, Fault> {
    if path == "-" {
        return Ok(Counted::new(Script::StandardInput(rt.reader())));
    }
    let file = fs::open(rt, path).map_err(|_| Fault::ReadFailed)?;
    Ok(Counted::new(Script::File(file)))
}

/// What a task writes to, before it is flushed.
pub type Output<'a, R> = Counted<BufWriter<Printer<'a, R>, Global>>;

/// Returns standard output, with a buffer.
pub fn output<R: Print>(rt: &R, alloc: Global) -> Result<Output<'_, R>, Fault> {
    let buffer = BufWriter::new(alloc, io::writer(rt)).map_err(|_| Fault::OutOfMemory)?;
    Ok(Counted::new(buffer))
}

/// Flushes the output, which a task doesn't do, and returns the task's result, or else the fault of a failed
/// flush.
///
/// It flushes after a fault too, but not after a failed write: what is left in the buffer then is dropped, as
/// after a failed flush. The buffer itself tries a write again that a signal interrupted, as std's does, and
/// no other.
pub fn finish<T: Drop, R: Print>(
    done: Result<T, Fault>,
    output: Output<'_, R>,
) -> Result<T, Fault> {
    let mut buffer = output.into_inner();
    let mut flushed = Ok(());
    if !matches!(&done, Err(Fault::WriteFailed)) {
        flushed = buffer.flush();
    }
    let (_writer, _unwritten) = buffer.into_parts();
    let answer = done?;
    flushed.map_err(|_| Fault::WriteFailed)?;
    Ok(answer)
}
