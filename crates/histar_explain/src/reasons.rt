//! Reasons: the categories at which a comparison of two labels fails.
use histar_label::{Category, Level};

/// The party whose label is on a side of a comparison.
#[derive(Clone, Copy, Debug, PartialEq, Eq)]
pub enum Party {
    /// The label of the thread that called.
    Thread,
    /// The label of the object that is tested.
    Object,
    /// The clearance of the gate.
    GateClearance,
    /// The verify label that the thread hands to `enter`.
    VerifyLabel,
    /// The label that was asked for.
    LabelAsked,
    /// The clearance that was asked for.
    ClearanceAsked,
    /// The clearance of the thread.
    ThreadClearance,
    /// The join of the clearance of the thread and its label, where star in the label counts as 3.
    ThreadClearanceAndLabel,
    /// The floor of the labels of thread and gate.
    Floor,
    /// The join of the clearances of thread and gate.
    Clearances,
    /// The lowest label that a segment may have, since it owns nothing: 0 at every category.
    AnySegment,
    /// The lowest label that a container may have, since it owns nothing either.
    AnyContainer,
}

/// A category with the levels that the two labels of a comparison have there.
#[derive(Clone, Copy)]
pub struct Difference {
    /// The category.
    pub category: Category,
    /// The level of the label that has to be below.
    pub lower: Level,
    /// The level of the label that has to be above.
    pub upper: Level,
}

/// The categories at which a comparison of two labels fails.
#[derive(Drop)]
pub struct Reason {
    /// The party whose label has to be below.
    pub lower: Party,
    /// The party whose label has to be above.
    pub upper: Party,
    /// The categories that one of the labels lists and at which the comparison fails, in rising order.
    pub named: Vec<Difference>,
    /// The listed categories at which it passes.
    pub spared: Vec<Difference>,
    /// The two defaults, where the comparison fails for them: it then fails at every category that neither
    /// label lists.
    pub elsewhere: Option<(Level, Level)>,
}
