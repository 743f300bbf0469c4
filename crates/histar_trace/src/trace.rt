//! The trace of raw calls.
ghost use Rattle.std.specs.Prelude.{OnErr, ◌≡◌, ◌↔◌, ◌<◌, [], IfOk, IsSome, IsTrue, OnOk, Some, length, slice_get};
ghost use Rattle.histar_label.specs.Store.{Keeps};
ghost use Rattle.histar_rules.specs.declared.raw.RawCall.{RawCall as RawCallOf};
ghost use Rattle.histar_trace.specs.Stored.{IsKept, IsStored, call_of, label_of};
ghost use Rattle.histar_trace.specs.Traces.{StandsFor, logged};

use crate::entries::TraceEntry;
use crate::labels::{LabelId, TraceLabels};
use crate::stored::{BytesId, StoredCall, StoredEntry};
use histar_base::Bytes;
use histar_heap::Heap;
use histar_label::Label;
use histar_object::ObjId;
use histar_rules::{HandedLabel, RawCall, Refusal};
use std::alloc::AllocError;
use std::marker::Model;

/// The number of entries for which a trace has room from the start. Memory that holds no entry yet isn't touched,
/// and the entries of most sessions are never moved to a larger place.
const FIRST_ROOM: usize = 65_536;

/// The number of calls with bytes for which a trace has room from the start.
const FIRST_BYTES: usize = 32_768;

/// The raw calls of a kernel, in their order. It changes in two steps: a call is stored before it is decided,
/// with room for its entry, and its entry is recorded afterwards with its outcome. Where memory runs out the
/// entries are as they were.
#[derive(Drop)]
pub struct Trace {
    entries: Vec<StoredEntry>,
    labels: TraceLabels,
    bytes: Vec<Bytes>,
}

impl Model for Trace {
    ghost use Rattle.std.specs.Prelude.{◌-◌, map, All};
    ghost use Rattle.std.specs.Vec.{vec_len, vec_capacity};
    ghost use Rattle.histar_trace.specs.Stored.{IsStored, entry_of};
    ghost use Rattle.histar_trace.specs.Traces.{TraceModel, coded_trace};

    ghost Value = { TraceModel };

    ghost coded = { coded_trace };

    ghost view = { λ t. record {
      entries = map (entry_of t.labels t.bytes.items) t.entries.items;
      labels = t.labels;
      bytes = t.bytes.items;
      room = vec_capacity t.entries - vec_len t.entries;
    } };

    ghost invariant = { λ t. All (λ e. IsStored t.labels t.bytes.items e.call) t.entries.items };
}

impl Trace {
    /// Makes a trace of no calls.
    pub fn new<H: Heap>(heap: H) -> Result<Trace, AllocError>
        ensures ok { IfOk result (λ trace. trace.entries ≡ []) }
        ensures memory { OnErr result H.Refused }
    {
        Ok(Trace {
            entries: heap.with_room(FIRST_ROOM)?,
            labels: TraceLabels::new(heap)?,
            bytes: heap.with_room(FIRST_BYTES)?,
        })
    }

    /// Returns the number of entries.
    pub fn len(&self) -> usize
        ensures { result ≡ length self.now.entries }
    {
        self.entries.len()
    }

    /// Checks whether there are no entries.
    pub fn is_empty(&self) -> bool
        ensures { IsTrue result ↔ (self.now.entries ≡ []) }
    {
        self.entries.is_empty()
    }

    /// Returns a copy of the entry at a place, with its labels and its bytes.
    pub fn entry<H: Heap>(&self, heap: H, at: usize) -> Result<TraceEntry, AllocError>
        requires { at < length self.now.entries }
        ensures ok { IfOk result (λ entry. slice_get self.now.entries at ≡ Some entry) }
        ensures memory { OnErr result H.Refused }
    {
        let stored = &self.entries[at];
        Ok(TraceEntry {
            line: stored.line,
            thread: stored.thread,
            call: self.call(heap, &stored.call)?,
            denied: stored.denied,
        })
    }

    // Makes the raw call that a stored call stands for.
    fn call<H: Heap>(&self, heap: H, stored: &StoredCall) -> Result<RawCall, AllocError>
        requires { IsStored self.now.labels self.now.bytes stored.now }
        ensures ok { IfOk result (λ call. call ≡ call_of self.now.labels self.now.bytes stored.now) }
        ensures memory { OnErr result H.Refused }
    {
        match *stored {
            StoredCall::MakeCategory => Ok(RawCall::MakeCategory),
            StoredCall::OwnLabel => Ok(RawCall::OwnLabel),
            StoredCall::SetLabel(label) => self.label(heap, label).map(RawCall::SetLabel),
            StoredCall::SetClearance(label) => self.label(heap, label).map(RawCall::SetClearance),
            StoredCall::MakeSegment(container, label, bytes) => {
                let label = self.label(heap, label)?;
                let bytes = self.bytes(bytes).copy(heap)?;
                Ok(RawCall::MakeSegment(container, label, bytes))
            }
            StoredCall::MakeContainer(container, label) => {
                let label = self.label(heap, label)?;
                Ok(RawCall::MakeContainer(container, label))
            }
            StoredCall::MakeThread(container, label, clearance) => {
                let (label, clearance) = self.pair(heap, label, clearance)?;
                Ok(RawCall::MakeThread(container, label, clearance))
            }
            StoredCall::MakeGate(container, label, clearance, entry) => {
                let (label, clearance) = self.pair(heap, label, clearance)?;
                Ok(RawCall::MakeGate(container, label, clearance, entry))
            }
            StoredCall::Enter(container, gate, wanted, clearance, verify) => {
                let (wanted, clearance) = self.pair(heap, wanted, clearance)?;
                let verify = self.label(heap, verify)?;
                Ok(RawCall::Enter(container, gate, wanted, clearance, verify))
            }
            StoredCall::Read(container, segment) => Ok(RawCall::Read(container, segment)),
            StoredCall::Write(container, segment, keep, bytes) => {
                let bytes = self.bytes(bytes).copy(heap)?;
                Ok(RawCall::Write(container, segment, keep, bytes))
            }
            StoredCall::Unlink(container, object) => Ok(RawCall::Unlink(container, object)),
            StoredCall::LabelOf(container, object) => Ok(RawCall::LabelOf(container, object)),
        }
    }

    // Copies the label of an Id.
    fn label<H: Heap>(&self, heap: H, id: LabelId) -> Result<HandedLabel, AllocError>
        requires { IsKept self.now.labels id }
        ensures ok { IfOk result (λ label. label ≡ label_of self.now.labels id) }
        ensures memory { OnErr result H.Refused }
    {
        HandedLabel::new(heap, self.labels.copy(heap, id)?)
    }

    // Copies the labels of two Ids.
    fn pair<H: Heap>(
        &self,
        heap: H,
        first: LabelId,
        second: LabelId,
    ) -> Result<(HandedLabel, HandedLabel), AllocError>
        requires first { IsKept self.now.labels first }
        requires second { IsKept self.now.labels second }
        ensures ok { IfOk result (λ labels. (labels.0 ≡ label_of self.now.labels first)
            × (labels.1 ≡ label_of self.now.labels second)) }
        ensures memory { OnErr result H.Refused }
    {
        let first = self.label(heap, first)?;
        let second = self.label(heap, second)?;
        Ok((first, second))
    }

    /// Lends the bytes of an Id.
    pub fn bytes(&self, id: BytesId) -> &Bytes
        requires { IsSome (slice_get self.now.bytes id) }
        ensures { slice_get self.now.bytes id ≡ Some result.now }
    {
        self.bytes.get(id.0 as usize).unwrap()
    }

    /// Keeps a label, to be named by a stored call.
    pub(crate) fn keep_label<H: Heap>(
        &mut self,
        heap: H,
        label: &Label,
    ) -> Result<LabelId, AllocError>
        ensures kept { IfOk result (λ id. slice_get self.new.labels id ≡ Some label.now) }
        ensures keeps { Keeps (slice_get self.old.labels) (slice_get self.new.labels) }
        ensures bytes { self.new.bytes ≡ self.old.bytes }
        ensures entries { self.new.entries ≡ self.old.entries }
        ensures memory { OnErr result H.Refused }
    {
        self.labels.keep(heap, label)
    }

    /// Keeps bytes, to be named by a stored call.
    pub(crate) fn keep_bytes<H: Heap>(
        &mut self,
        heap: H,
        bytes: Bytes,
    ) -> Result<BytesId, AllocError>
        ensures kept { IfOk result (λ id. slice_get self.new.bytes id ≡ Some bytes) }
        ensures labels { self.new.labels ≡ self.old.labels }
        ensures entries { self.new.entries ≡ self.old.entries }
        ensures memory { OnErr result H.Refused }
    {
        let id = heap.place(&self.bytes)?;
        heap.push(&mut self.bytes, bytes)?;
        Ok(BytesId(id))
    }

    /// Makes room for one more entry.
    pub fn make_room<H: Heap>(&mut self, heap: H) -> Result<(), AllocError>
        ensures room { OnOk result (0 < self.new.room) }
        ensures labels { self.new.labels ≡ self.old.labels }
        ensures bytes { self.new.bytes ≡ self.old.bytes }
        ensures entries { self.new.entries ≡ self.old.entries }
        ensures memory { OnErr result H.Refused }
    {
        heap.reserve(&mut self.entries)
    }

    /// Records a call that was stored, with its outcome, and returns the outcome. A call that ran out of memory
    /// has no entry.
    // Inlined, so that the outcome is not moved.
    #[inline(always)]
    pub fn record<A>(
        &mut self,
        line: u32,
        thread: ObjId,
        call: StoredCall,
        outcome: Result<A, Refusal>,
    ) -> Result<A, Refusal>
        requires room { 0 < self.old.room }
        requires kept { IsStored self.old.labels self.old.bytes call }
        ensures outcome { result ≡ outcome }
        ensures entries { (raw : RawCallOf) → StandsFor self.old call raw
            → self.new.entries ≡ logged self.old.entries line thread raw outcome }
    {
        let denied = match &outcome {
            Ok(_) => None,
            Err(Refusal::Denied(denied)) => Some(*denied),
            Err(Refusal::OutOfMemory) => return outcome,
        };
        self.entries.push_reserved(StoredEntry {
            thread,
            line,
            denied,
            call,
        });
        outcome
    }
}
