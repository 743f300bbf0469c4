//! The labels of a trace.
ghost use Rattle.std.specs.Prelude.{◌≡◌, IfOk, IfSome, IsSome, OnErr, Some, [], slice_get};
ghost use Rattle.histar_label.specs.Store.{Keeps};

use histar_heap::Heap;
use histar_label::{Category, Label, Level, OutOfMemory};
use std::marker::Model;

/// How many places at hand there are for labels.
const AT_HAND: usize = 1_024;

/// The number of exceptions for which a trace has room from the start. Memory that holds none yet isn't touched.
const FIRST_EXCEPTIONS: usize = 131_072;

/// The Id of a label in a trace: its place in the list of labels.
#[derive(Clone, Copy)]
pub struct LabelId(u32);

impl Model for LabelId {
    ghost use Rattle.std.specs.Prelude.{ℕ};

    ghost Value = { ℕ };

    ghost view = { λ id. id.0 };

    ghost inverse = { λ n. record { 0 = n } };
}

/// A label as a trace keeps it: its default, and where its exceptions lie in the list of those of all labels.
#[derive(Clone, Copy)]
pub(crate) struct KeptLabel {
    default: Level,
    first: usize,
    end: usize,
}

/// The labels that the calls of a trace were given. Of equal labels one is kept, as long as no other label
/// took its place at hand in between. The exceptions of all labels are in one list, so that most labels need
/// no allocation of their own.
#[derive(Drop)]
pub(crate) struct TraceLabels {
    labels: Vec<KeptLabel>,
    exceptions: Vec<(Category, Level)>,
    // The places of labels in the list. Which place at hand a label has is computed from its exceptions.
    at_hand: Vec<u32>,
}

impl Model for TraceLabels {
    ghost use Rattle.std.specs.Prelude.{List, All, map};
    ghost use Rattle.std.specs.Coded.{coded_list};
    ghost use Rattle.histar_level.specs.Levels.{Levels};
    ghost use Rattle.histar_label.specs.Levels.{coded_levels};
    ghost use Rattle.histar_trace.specs.Labels.{HasExceptions, label_kept};

    ghost Value = { List Levels };

    ghost coded = { coded_list coded_levels };

    ghost view = { λ t. map (label_kept t.exceptions.items) t.labels.items };

    ghost invariant = { λ t. All (HasExceptions t.exceptions.items) t.labels.items };
}

impl TraceLabels {
    /// Makes a list of no labels.
    pub(crate) fn new<H: Heap>(heap: H) -> Result<TraceLabels, OutOfMemory>
        ensures ok { IfOk result (λ labels. labels ≡ []) }
        ensures memory { OnErr result H.Refused }
    {
        let mut at_hand = heap.with_room(AT_HAND)?;
        for _ in 0..AT_HAND {
            heap.push(&mut at_hand, 0)?;
        }
        Ok(TraceLabels {
            labels: Vec::new(heap.alloc()),
            exceptions: heap.with_room(FIRST_EXCEPTIONS)?,
            at_hand,
        })
    }

    /// Copies the label of an Id.
    pub(crate) fn copy<H: Heap>(&self, heap: H, id: LabelId) -> Result<Label, OutOfMemory>
        requires { IsSome (slice_get self.now id) }
        ensures ok { IfOk result (λ label. slice_get self.now id ≡ Some label) }
        ensures memory { OnErr result H.Refused }
    {
        let kept = &self.labels[id.0 as usize];
        let exceptions = &self.exceptions[kept.first..kept.end];
        Label::from_exceptions(heap, kept.default, exceptions)
    }

    /// Keeps a label, and returns its Id. A label that is found at hand is not copied.
    pub(crate) fn keep<H: Heap>(&mut self, heap: H, label: &Label) -> Result<LabelId, OutOfMemory>
        ensures kept { IfOk result (λ id. slice_get self.new id ≡ Some label.now) }
        ensures keeps { Keeps (slice_get self.old) (slice_get self.new) }
        ensures unchanged { OnErr result (self.new ≡ self.old) }
        ensures memory { OnErr result H.Refused }
    {
        let place = label.place_among(AT_HAND);
        match self.found(place, label) {
            Some(id) => Ok(id),
            None => self.add(heap, place, label),
        }
    }

    // Returns the Id of a label, if it is the label that was kept last at its place at hand.
    fn found(&self, place: usize, label: &Label) -> Option<LabelId>
        ensures { IfSome result (λ id. slice_get self.now id ≡ Some label.now) }
    {
        let id = *self.at_hand.get(place)?;
        let kept = self.labels.get(id as usize)?;
        let exceptions = &self.exceptions[kept.first..kept.end];
        if kept.default == label.default_level() && exceptions == label.exceptions() {
            Some(LabelId(id))
        } else {
            None
        }
    }

    // Adds a copy of a label to the list, and keeps it at hand.
    // Not inlined, so that a label at hand is found in few steps.
    #[inline(never)]
    fn add<H: Heap>(&mut self, heap: H, place: usize, label: &Label) -> Result<LabelId, OutOfMemory>
        ensures kept { IfOk result (λ id. slice_get self.new id ≡ Some label.now) }
        ensures keeps { Keeps (slice_get self.old) (slice_get self.new) }
        ensures unchanged { OnErr result (self.new ≡ self.old) }
        ensures memory { OnErr result H.Refused }
    {
        let id = heap.place(&self.labels)?;
        heap.reserve(&mut self.labels)?;
        let first = self.exceptions.len();
        heap.extend(&mut self.exceptions, label.exceptions())?;
        self.labels.push_reserved(KeptLabel {
            default: label.default_level(),
            first,
            end: self.exceptions.len(),
        });
        set_at_hand(&mut self.at_hand, place, id);
        Ok(LabelId(id))
    }
}

// Notes the Id of a label at its place at hand.
fn set_at_hand(at_hand: &mut Vec<u32>, place: usize, id: u32) {
    if let Some(latest) = at_hand.get_mut(place) {
        *latest = id;
    }
}
