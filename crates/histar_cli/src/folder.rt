//! The folder in which the program was called, where a shell saves its session.

use histar_dialogue::{SaveFault, Shelf};
use std::fs::{self, OpenOptions};
use std::io::{self, Write};
use std::rt::Files;
use std::str;

/// New files, by paths from the folder in which the program was called.
#[derive(Clone, Copy)]
pub struct Folder<'a, R> {
    pub rt: &'a R,
}

impl<R: Files> Shelf for Folder<'_, R> {
    ghost use Rattle.std.specs.Prelude.{None};

    ghost saved = { λ folder. None };

    fn save(&mut self, name: &[u8], text: &[u8]) -> Result<(), SaveFault> {
        let Ok(path) = str::from_utf8(name) else {
            return Err(SaveFault::Failed);
        };
        match write_new(self.rt, path, text) {
            Ok(()) => Ok(()),
            Err(error) if error.kind() == io::ErrorKind::AlreadyExists => Err(SaveFault::IsThere),
            Err(_) => Err(SaveFault::Failed),
        }
    }
}

/// Writes a new file, or none: where a write fails the file is removed.
fn write_new<R: Files>(rt: &R, path: &str, text: &[u8]) -> io::Result<()> {
    let mut file = OpenOptions::new()
        .write(true)
        .create_new(true)
        .open(rt, path)?;
    let done = file.write_all(text);
    if done.is_err() {
        let _ = fs::remove_file(rt, path);
    }
    done
}
