//! Explains why a raw call was denied: the comparisons of labels that its denial rests on, the categories at
//! which each of them fails, the categories of its labels that were never made, and any other obstacle.
//!
//! [`laws`] contains the laws of explanations.
#![tactic(auto)]

mod compare;
mod derived_labels;
mod explain_denial;
mod explanations;
pub mod laws;
mod named;
mod obstacles;
mod reasons;
mod test_reasons;
mod unmade;

pub use explain_denial::explain;
pub use explanations::{Act, Explanation, Obstacle};
pub use reasons::{Difference, Party, Reason};
