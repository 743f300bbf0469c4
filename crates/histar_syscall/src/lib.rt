//! The kernel: raw calls, each granted or refused by comparing labels alone, and the trace of them.
#![tactic(auto)]

mod answers;
pub mod confinement_laws;
mod containers;
mod copied;
mod decide;
mod empty_objects;
mod kernel;
mod raw_calls;
pub mod run_laws;
mod segments;

pub use answers::Answer;
pub use histar_rules::{Denied, HandedLabel, HandedLabels, ObjectKind, RawCall, Refusal};
pub use histar_trace::{Trace, TraceEntry};
pub use kernel::Kernel;
pub use raw_calls::run_raw;
