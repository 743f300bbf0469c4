//! The levels that a label gives to categories.
//!
//! `specs/Levels.antt` has a label as a function from categories to levels, and `proofs/` its laws: that labels which
//! are the same function are equal, and that the test of equality decides it. They lie below the crate of labels,
//! whose contracts rest on them.
#![tactic(auto)]

mod level;

pub use level::Level;
