//! Tests that cross crates: what is found in a kernel's own objects, machines that stop where memory runs out,
//! and what labels, their stores and the table of objects are then. There is nothing to run here but tests.
#![tactic(auto)]

#[cfg(test)]
mod classes;
#[cfg(test)]
mod directories;
#[cfg(test)]
mod labels;
#[cfg(test)]
mod processes;
#[cfg(test)]
mod stops;
#[cfg(test)]
mod tables;
