//! The labels that raw calls are given.
ghost use Rattle.std.specs.Prelude.{OnErr, ◌≡◌, IfOk};

use histar_heap::Heap;
use histar_label::Label;
use std::alloc::AllocError;
use std::marker::Model;

/// A label that a raw call as data is given. It lies on the heap, so that a list of calls stays small: most raw
/// calls are given no label, and each has room for the largest of them.
#[derive(Drop)]
pub struct HandedLabel {
    label: Box<Label>,
}

impl Model for HandedLabel {
    ghost use Rattle.histar_level.specs.Levels.{Levels};
    ghost use Rattle.histar_label.specs.Levels.{coded_levels};

    ghost Value = { Levels };

    ghost coded = { coded_levels };

    ghost view = { λ handed. handed.label.value };
}

impl HandedLabel {
    /// Keeps a label on the heap.
    pub fn new<H: Heap>(heap: H, label: Label) -> Result<HandedLabel, AllocError>
        ensures ok { IfOk result (λ handed. handed ≡ label) }
        ensures memory { OnErr result H.Refused }
    {
        Ok(HandedLabel {
            label: heap.boxed(label)?,
        })
    }

    /// Returns the label itself.
    pub fn label(&self) -> &Label
        ensures { result.now ≡ self.now }
    {
        &self.label
    }
}

/// The labels with which a thread enters a gate.
#[derive(Clone, Copy)]
pub struct HandedLabels<'l> {
    /// The label that the thread wants.
    pub wanted: &'l Label,
    /// The clearance that it wants.
    pub clearance: &'l Label,
    /// The verify label, by which the gate decides.
    pub verify: &'l Label,
}
