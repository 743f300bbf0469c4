//! The names of objects and categories, by which the denials of a script are explained: paths, processes,
//! and what categories are for.
//!
//! [`laws`] says that the names are right.
#![tactic(auto)]

mod births;
mod clues;
mod homes;
pub mod laws;
mod location;
mod named_words;
mod names;
mod purposes;
mod runners;

pub use births::note_births;
pub use clues::{Clue, clue_of};
pub use names::Names;
pub use purposes::Purpose;
