//! Where a run reads and writes: sources and sinks that count their failed calls, a function that reads a
//! whole source, and one that writes bytes to a sink until it fails.
#![tactic(auto)]

mod device;
mod input;
mod output;

pub use device::{Counted, Sink, Source};
pub use input::{InputError, read_input};
pub use output::{WriteFailed, write_bytes};
