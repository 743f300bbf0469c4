//! Raw calls as a trace keeps them.
use crate::labels::LabelId;
use histar_object::{Entry, ObjId};
use histar_rules::Denied;
use std::marker::Model;

/// The Id of the bytes of a call in a trace: their place in the list of bytes.
#[derive(Clone, Copy)]
pub struct BytesId(pub(crate) u32);

impl Model for BytesId {
    ghost use Rattle.std.specs.Prelude.{ℕ};

    ghost Value = { ℕ };

    ghost view = { λ id. id.0 };

    ghost inverse = { λ n. record { 0 = n } };
}

/// A raw call as a trace keeps it: with the Ids of its labels and of its bytes.
#[derive(Clone, Copy)]
pub enum StoredCall {
    /// Makes a category.
    MakeCategory,
    /// Asks for the thread's own label and clearance.
    OwnLabel,
    /// Gives the thread another label.
    SetLabel(LabelId),
    /// Gives the thread another clearance.
    SetClearance(LabelId),
    /// Makes a segment in a container, with a label and bytes.
    MakeSegment(ObjId, LabelId, BytesId),
    /// Makes a container in a container, with a label.
    MakeContainer(ObjId, LabelId),
    /// Makes a thread in a container, with a label and a clearance.
    MakeThread(ObjId, LabelId, LabelId),
    /// Makes a gate in a container, with a label, a clearance and an entry.
    MakeGate(ObjId, LabelId, LabelId, Entry),
    /// Enters a gate that a container links: the label and the clearance that the thread wants, and its
    /// verify label.
    Enter(ObjId, ObjId, LabelId, LabelId, LabelId),
    /// Reads a segment that a container links.
    Read(ObjId, ObjId),
    /// Keeps the first bytes of a segment that a container links, at most this many, and appends new ones.
    Write(ObjId, ObjId, u32, BytesId),
    /// Unlinks an object from a container.
    Unlink(ObjId, ObjId),
    /// Asks for the label of an object that a container links.
    LabelOf(ObjId, ObjId),
}

/// An entry as a trace keeps it.
#[derive(Clone, Copy)]
pub(crate) struct StoredEntry {
    pub(crate) thread: ObjId,
    pub(crate) line: u32,
    pub(crate) denied: Option<Denied>,
    pub(crate) call: StoredCall,
}
