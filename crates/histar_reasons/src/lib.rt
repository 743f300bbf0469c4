//! Why a call is refused, by the rules: the first need of its rule that is not met.
//!
//! Reasons are defined in `specs/Reasons.antt`, and their sentences in `specs/Sentences.antt`. [`reasons_laws`]
//! says that they are the rules' own.
#![tactic(auto)]

pub mod reasons_laws;
