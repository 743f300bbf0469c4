//! Memory that may run out: the growth of collections.
#![tactic(auto)]

mod heap;

pub use heap::{Heap, MOST_ROOM};
