//! Explanations of denied raw calls.
use crate::reasons::Reason;
use histar_label::Category;
use histar_object::ObjId;

/// The action that a denied call tried.
#[derive(Clone, Copy, Debug, PartialEq, Eq)]
pub enum Act {
    /// Making a call at all.
    Call,
    /// Naming an object.
    Use(ObjId),
    /// Observing an object.
    Observe(ObjId),
    /// Modifying an object.
    Modify(ObjId),
    /// Entering a gate.
    Enter(ObjId),
    /// Entering a gate with the labels that were asked for.
    EnterWith(ObjId),
    /// Putting bytes into a segment.
    Write(ObjId),
    /// Taking another label.
    TakeLabel,
    /// Taking another clearance.
    TakeClearance,
    /// Making a category.
    MakeCategory,
    /// Making a segment.
    MakeSegment,
    /// Making a container.
    MakeContainer,
    /// Making a thread.
    MakeThread,
    /// Making a gate.
    MakeGate,
}

/// The reason of a denial that no label decides.
#[derive(Clone, Copy, Debug, PartialEq, Eq)]
pub enum Obstacle {
    /// The caller is no thread.
    NoThread,
    /// There is no object of the number.
    NoObject,
    /// This container doesn't link the object.
    NotLinked(ObjId),
    /// The object is no container.
    NoContainer,
    /// The object is no segment.
    NoSegment,
    /// The object is no gate.
    NoGate,
    /// The object is a thread.
    IsThread,
    /// The segment would have this many bytes.
    TooLong(usize),
    /// No number is left for the new category or object.
    NoNumber,
}

/// The reasons why a raw call was denied.
#[derive(Drop)]
pub struct Explanation {
    /// The action that the call tried.
    pub act: Act,
    /// The categories that its labels name and that were never made, in rising order.
    pub unmade: Vec<Category>,
    /// Each comparison of labels that the denial rests on, and the categories at which it fails.
    pub reasons: Vec<Reason>,
    /// The obstacle, where no label decides.
    pub obstacle: Option<Obstacle>,
}
