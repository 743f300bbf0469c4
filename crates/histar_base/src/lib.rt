//! What the Unix side and the kernel side share: owned bytes, and names for refusals.
#![tactic(auto)]

mod bytes;

pub use bytes::Bytes;
