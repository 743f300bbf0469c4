//! Objects: segments, containers, threads and gates.
use crate::links::Links;
use histar_base::Bytes;

/// What a gate gives to the thread that enters it.
#[derive(Clone, Copy, Debug, PartialEq, Eq)]
pub enum Entry {
    /// The login gate of a user, by the user's number, from 1 on.
    Login(u8),
    /// A mark that the gate's maker chose.
    Mark(u32),
}

/// What an object is, without its label. `L` is the type of labels, or of Ids that stand for them.
#[derive(Drop)]
pub enum Kind<L> {
    /// Bytes.
    Segment(Bytes),
    /// Links to other objects, each of which has no other link.
    Container(Links),
    /// A thread, with its clearance: how far it may raise its label.
    Thread(L),
    /// A gate, with its clearance and its entry. Its label is what it gives to a thread that enters it.
    Gate(L, Entry),
}

/// An object with its label, which controls what may flow from it and to it (HiStar, OSDI 2006).
#[derive(Drop)]
pub struct Object<L> {
    pub label: L,
    pub kind: Kind<L>,
}
