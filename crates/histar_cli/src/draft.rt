//! A file that is written whole or not at all.

use histar_script::Fault;
use histar_shell::Counted;
use std::alloc::Global;
use std::fs;
use std::io::{BufWriter, Write};
use std::rt::Files;

/// A file that is being written beside the one whose place it is to take.
#[derive(Drop)]
pub struct Draft<'a, R: Files> {
    /// The name of the file that it becomes.
    name: &'a str,
    /// The name under which it is written.
    draft: String,
    writer: Counted<BufWriter<R::File, Global>>,
}

impl<'a, R: Files> Draft<'a, R> {
    /// Begins a file, under its name with `.part` after it.
    pub fn begin(rt: &R, alloc: Global, name: &'a str) -> Result<Self, Fault> {
        let draft = format!(in alloc; "{name}.part")?;
        let Ok(file) = fs::create(rt, draft.as_str()) else {
            return Err(Fault::WriteFailed);
        };
        let buffer = BufWriter::new(alloc, file).map_err(|_| Fault::OutOfMemory)?;
        Ok(Draft {
            name,
            draft,
            writer: Counted::new(buffer),
        })
    }

    /// Returns where it is written.
    pub fn writer(&mut self) -> &mut Counted<BufWriter<R::File, Global>> {
        &mut self.writer
    }

    /// Gives the file its name, if what was to be written was written, and else removes it.
    pub fn end(self, rt: &R, done: Result<(), Fault>) -> Result<(), Fault> {
        let Draft {
            name,
            draft,
            writer,
        } = self;
        let done = done.and_then(|_| flushed(writer));
        let done = done.and_then(|_| match fs::rename(rt, draft.as_str(), name) {
            Ok(()) => Ok(()),
            Err(_) => Err(Fault::WriteFailed),
        });
        if done.is_err() {
            let _ = fs::remove_file(rt, draft.as_str());
        }
        done
    }
}

/// Writes what is left in a buffer.
fn flushed<W: Write + Drop>(writer: Counted<BufWriter<W, Global>>) -> Result<(), Fault> {
    let mut buffer = writer.into_inner();
    match buffer.flush() {
        Ok(()) => Ok(()),
        Err(_) => Err(Fault::WriteFailed),
    }
}
