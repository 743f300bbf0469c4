//! The simulation: the program of each Unix call refines the rule of its call.
//!
//! There is nothing to run here. The definitions are in `specs/`: what a line does on states of the kernel
//! and on flat states, and when a program of raw calls refines a rule. Each law is the contract of a function
//! that does nothing.
#![tactic(auto)]

pub mod calls;
pub mod denials;
pub mod names;
