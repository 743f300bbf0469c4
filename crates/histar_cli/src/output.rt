//! Where a task writes, and in which form: as it is, with refusals in colour, or a JSON object a line.

use histar_console::{finish, output};
use histar_io::{Sink, write_bytes};
use histar_output::{Form, coloured, json_lines};
use histar_script::Fault;
use histar_shell::Counted;
use std::alloc::{AllocError, Global};
use std::io::{self, BufWriter, Printer, Write};

/// In which form the output of a task is written.
#[derive(Clone, Copy)]
pub enum Dress {
    /// As it is.
    Plain,
    /// Refusals are in red.
    Coloured,
    /// Each line is a JSON object, by this form of lines.
    Json(Form),
}

/// The system that the program runs on, and the form in which it writes.
#[derive(Clone, Copy)]
pub struct Host<'a, R> {
    pub rt: &'a R,
    pub dress: Dress,
}

impl<'a, R: Print> Host<'a, R> {
    /// Returns standard output, with a buffer. What isn't written as it is, is kept until it is whole.
    pub fn page(&self, alloc: Global) -> Result<Counted<Page<'a, R>>, Fault> {
        let buffer = output(self.rt, alloc)?.into_inner();
        let kept = match self.dress {
            Dress::Plain => None,
            Dress::Coloured | Dress::Json(_) => Some(Vec::new(alloc)),
        };
        Ok(Counted::new(Page { buffer, kept }))
    }

    /// Writes what was kept, flushes the output, and returns the task's result, or the fault of the output.
    pub fn end<T: Drop>(
        &self,
        alloc: Global,
        done: Result<T, Fault>,
        page: Counted<Page<'a, R>>,
    ) -> Result<T, Fault> {
        let Page { buffer, kept } = page.into_inner();
        let mut output = Counted::new(buffer);
        let done = match kept {
            None => done,
            Some(text) => write_kept(alloc, done, text.as_slice(), &mut output, self.dress),
        };
        finish(done, output)
    }

    /// Writes a text to standard output, and flushes it.
    pub fn print(&self, alloc: Global, text: &[u8]) -> Result<(), Fault> {
        let mut page = self.page(alloc)?;
        let done = write_bytes(&mut page, text).map_err(|_| Fault::WriteFailed);
        self.end(alloc, done, page)
    }
}

/// Standard output with a buffer, and the text that is kept, if one is.
#[derive(Drop)]
pub struct Page<'a, R: Print> {
    buffer: BufWriter<Printer<'a, R>, Global>,
    kept: Option<Vec<u8>>,
}

impl<R: Print> Write for Page<'_, R> {
    fn write(&mut self, bytes: &[u8]) -> io::Result<usize> {
        match &mut self.kept {
            None => self.buffer.write(bytes),
            Some(text) => {
                text.extend_from_slice(bytes)?;
                Ok(bytes.len())
            }
        }
    }

    fn flush(&mut self) -> io::Result<()> {
        self.buffer.flush()
    }
}

/// Writes the text that a task left, in its form, if the task was done. The text itself can't be written only where memory
/// runs out.
fn write_kept<T: Drop, W: Sink>(
    alloc: Global,
    done: Result<T, Fault>,
    text: &[u8],
    output: &mut W,
    dress: Dress,
) -> Result<T, Fault> {
    match done {
        Ok(value) => {
            let text = dressed(alloc, text, dress)?;
            write_bytes(output, text.as_slice()).map_err(|_| Fault::WriteFailed)?;
            Ok(value)
        }
        Err(Fault::WriteFailed) => Err(Fault::OutOfMemory),
        Err(fault) => Err(fault),
    }
}

/// Returns a text in a form.
fn dressed(alloc: Global, text: &[u8], dress: Dress) -> Result<Vec<u8>, AllocError> {
    match dress {
        Dress::Plain => Vec::from_slice(alloc, text),
        Dress::Coloured => coloured(alloc, text),
        Dress::Json(form) => json_lines(alloc, form, text),
    }
}
