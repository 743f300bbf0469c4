//! The answers of raw calls.

use histar_base::Bytes;
use histar_label::{Category, Label};
use histar_object::{Entry, ObjId};

/// The answer of a granted raw call.
#[derive(Drop)]
pub enum Answer {
    /// It was done, and there is no other answer.
    Done,
    /// The category that the call made.
    Category(Category),
    /// The thread's own label and clearance.
    OwnLabel(Label, Label),
    /// The number of the object that the call made.
    Object(ObjId),
    /// What the gate gives to threads that enter it.
    Entry(Entry),
    /// The bytes of the segment.
    Bytes(Bytes),
    /// The label of the object.
    Label(Label),
}
