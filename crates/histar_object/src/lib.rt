//! The objects of the kernel, and the table that keeps them by number.
#![tactic(auto)]

mod ids;
mod links;
mod objects;
mod slot_map;
mod table;

pub use ids::ObjId;
pub use links::Links;
pub use objects::{Entry, Kind, Object};
pub use table::{Table, slots_are_apart};
