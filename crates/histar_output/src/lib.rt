//! Other forms of the text that a subcommand writes: a JSON object for each line, and refusals in red.
//!
//! `specs/Forms.antt` has the parts of each line, and `specs/Facts.antt` the fact that a line says.
#![tactic(auto)]

mod colours;
mod cuts;
mod facts;
mod forms;
pub mod output_laws;
mod parts;
#[cfg(test)]
mod tests;
mod values;

pub use colours::coloured;
pub use facts::json_lines;
pub use forms::Form;
