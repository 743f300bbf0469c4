//! When the state of a labelled kernel represents a flat state with a tree of processes, jobs and
//! groups.
//!
//! There is nothing to run here: the definitions are in `specs/`, and what follows from them in
//! `proofs/`. [`refinement_laws`] says what follows when a state represents a flat state.
#![tactic(auto)]

pub mod refinement_laws;
