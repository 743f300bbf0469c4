//! The words of the command line.

use crate::status::REFUSED;
use std::rt::Env;
use std::{env, io};

/// Returns the words of the command line, the program's own name first.
pub fn command_line<R: Env + AllocGlobal>(rt: &R) -> io::Result<Vec<String>> {
    let words = env::args(rt)?;
    let words = words.collect::<Vec<String>>(rt.alloc())?;
    Ok(words)
}

/// Reports why the command line can't be read, and returns its status. A word has to be UTF-8.
pub fn refuse<R: Eprint>(rt: &R, error: &io::Error) -> u8 {
    let why = if error.kind() == io::ErrorKind::InvalidData {
        "an argument is not UTF-8"
    } else {
        "out of memory"
    };
    let _ = eprintln!(rt; "histar: {why}");
    REFUSED
}
