//! The raw calls of the kernel, the rules that grant or refuse them, and the objects that they work on, with
//! their labels in a store. The checks of a raw call look up each object once.
#![tactic(auto)]

mod access;
mod checks;
mod entering;
mod handed;
mod in_use;
mod kinds;
mod labelled;
mod limits;
mod linked;
mod lookup;
mod own;
mod ranges;
mod raw;

pub use access::{Access, Maker};
pub use checks::require;
pub use handed::{HandedLabel, HandedLabels};
pub use kinds::ObjectKind;
pub use labelled::LabelledObjects;
pub use limits::ROOT;
pub use raw::{Denied, RawCall, Refusal};
