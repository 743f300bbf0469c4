//! The trace of a kernel: its raw calls in their order, each with its line, its thread and its outcome.
//!
//! Of a long session the trace is most of what is kept, so its entries are small. A label that calls were
//! given is in a list of labels, once where it is given again soon. Contracts see the entries with labels and bytes by value.
#![tactic(auto)]

mod entries;
mod labels;
mod stored;
mod storing;
mod trace;

pub use entries::TraceEntry;
pub use labels::LabelId;
pub use stored::{BytesId, StoredCall};
pub use trace::Trace;
