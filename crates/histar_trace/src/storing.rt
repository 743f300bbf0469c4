//! Storing raw calls in a trace, before they are decided.
ghost use Rattle.std.specs.Prelude.{OnErr, ◌≡◌, ◌<◌, IfOk, OnOk, Some, slice_get};
ghost use Rattle.histar_rules.specs.declared.raw.RawCall.TheVariants as calls;
ghost use Rattle.histar_trace.specs.Traces.{StandsFor};

use crate::stored::{BytesId, StoredCall};
use crate::trace::Trace;
use histar_base::Bytes;
use histar_heap::Heap;
use histar_label::Label;
use histar_object::{Entry, ObjId};
use histar_rules::{HandedLabels, RawCall};
use std::alloc::AllocError;

impl Trace {
    /// Stores a raw call of any kind.
    pub fn store<H: Heap>(&mut self, heap: H, call: &RawCall) -> Result<StoredCall, AllocError>
        ensures stands { IfOk result (λ stored. StandsFor self.new stored call.now) }
        ensures entries { self.new.entries ≡ self.old.entries }
        ensures room { OnOk result (0 < self.new.room) }
        ensures memory { OnErr result H.Refused }
    {
        match call {
            RawCall::MakeCategory => self.store_plain(heap, StoredCall::MakeCategory),
            RawCall::OwnLabel => self.store_plain(heap, StoredCall::OwnLabel),
            RawCall::SetLabel(label) => self.store_set_label(heap, label.label()),
            RawCall::SetClearance(clearance) => self.store_set_clearance(heap, clearance.label()),
            RawCall::MakeSegment(container, label, bytes) => {
                let bytes = bytes.copy(heap)?;
                let (stored, _) = self.store_make_segment(heap, *container, label.label(), bytes)?;
                Ok(stored)
            }
            RawCall::MakeContainer(container, label) => {
                self.store_make_container(heap, *container, label.label())
            }
            RawCall::MakeThread(container, label, clearance) => {
                self.store_make_thread(heap, *container, label.label(), clearance.label())
            }
            RawCall::MakeGate(container, label, clearance, entry) => {
                self.store_make_gate(heap, *container, label.label(), clearance.label(), *entry)
            }
            RawCall::Enter(container, gate, wanted, clearance, verify) => {
                let labels = HandedLabels {
                    wanted: wanted.label(),
                    clearance: clearance.label(),
                    verify: verify.label(),
                };
                self.store_enter(heap, *container, *gate, labels)
            }
            RawCall::Read(container, segment) => {
                self.store_plain(heap, StoredCall::Read(*container, *segment))
            }
            RawCall::Write(container, segment, keep, bytes) => {
                let bytes = bytes.copy(heap)?;
                let (stored, _) = self.store_write(heap, *container, *segment, *keep, bytes)?;
                Ok(stored)
            }
            RawCall::Unlink(container, object) => {
                self.store_plain(heap, StoredCall::Unlink(*container, *object))
            }
            RawCall::LabelOf(container, object) => {
                self.store_plain(heap, StoredCall::LabelOf(*container, *object))
            }
        }
    }

    // Stores a call that names no label and no bytes.
    fn store_plain<H: Heap>(&mut self, heap: H, call: StoredCall) -> Result<StoredCall, AllocError>
        ensures value { IfOk result (λ stored. stored ≡ call) }
        ensures entries { self.new.entries ≡ self.old.entries }
        ensures room { OnOk result (0 < self.new.room) }
        ensures memory { OnErr result H.Refused }
    {
        self.make_room(heap)?;
        Ok(call)
    }

    /// Stores a call that gives the thread another label.
    pub fn store_set_label<H: Heap>(
        &mut self,
        heap: H,
        label: &Label,
    ) -> Result<StoredCall, AllocError>
        ensures stands { IfOk result (λ stored. StandsFor self.new stored (calls.SetLabel label.now)) }
        ensures entries { self.new.entries ≡ self.old.entries }
        ensures room { OnOk result (0 < self.new.room) }
        ensures memory { OnErr result H.Refused }
    {
        let label = self.keep_label(heap, label)?;
        self.make_room(heap)?;
        Ok(StoredCall::SetLabel(label))
    }

    /// Stores a call that gives the thread another clearance.
    pub fn store_set_clearance<H: Heap>(
        &mut self,
        heap: H,
        clearance: &Label,
    ) -> Result<StoredCall, AllocError>
        ensures stands { IfOk result (λ stored. StandsFor self.new stored (calls.SetClearance clearance.now)) }
        ensures entries { self.new.entries ≡ self.old.entries }
        ensures room { OnOk result (0 < self.new.room) }
        ensures memory { OnErr result H.Refused }
    {
        let clearance = self.keep_label(heap, clearance)?;
        self.make_room(heap)?;
        Ok(StoredCall::SetClearance(clearance))
    }

    /// Stores a call that makes a segment, and returns the Id of its bytes too.
    pub fn store_make_segment<H: Heap>(
        &mut self,
        heap: H,
        container: ObjId,
        label: &Label,
        bytes: Bytes,
    ) -> Result<(StoredCall, BytesId), AllocError>
        ensures stands { IfOk result (λ stored.
            StandsFor self.new stored.0 (calls.MakeSegment container label.now bytes)) }
        ensures bytes { IfOk result (λ stored. slice_get self.new.bytes stored.1 ≡ Some bytes) }
        ensures entries { self.new.entries ≡ self.old.entries }
        ensures room { OnOk result (0 < self.new.room) }
        ensures memory { OnErr result H.Refused }
    {
        let label = self.keep_label(heap, label)?;
        let bytes = self.keep_bytes(heap, bytes)?;
        self.make_room(heap)?;
        Ok((StoredCall::MakeSegment(container, label, bytes), bytes))
    }

    /// Stores a call that makes a container.
    pub fn store_make_container<H: Heap>(
        &mut self,
        heap: H,
        container: ObjId,
        label: &Label,
    ) -> Result<StoredCall, AllocError>
        ensures stands { IfOk result (λ stored.
            StandsFor self.new stored (calls.MakeContainer container label.now)) }
        ensures entries { self.new.entries ≡ self.old.entries }
        ensures room { OnOk result (0 < self.new.room) }
        ensures memory { OnErr result H.Refused }
    {
        let label = self.keep_label(heap, label)?;
        self.make_room(heap)?;
        Ok(StoredCall::MakeContainer(container, label))
    }

    /// Stores a call that makes a thread.
    pub fn store_make_thread<H: Heap>(
        &mut self,
        heap: H,
        container: ObjId,
        label: &Label,
        clearance: &Label,
    ) -> Result<StoredCall, AllocError>
        ensures stands { IfOk result (λ stored.
            StandsFor self.new stored (calls.MakeThread container label.now clearance.now)) }
        ensures entries { self.new.entries ≡ self.old.entries }
        ensures room { OnOk result (0 < self.new.room) }
        ensures memory { OnErr result H.Refused }
    {
        let label = self.keep_label(heap, label)?;
        let clearance = self.keep_label(heap, clearance)?;
        self.make_room(heap)?;
        Ok(StoredCall::MakeThread(container, label, clearance))
    }

    /// Stores a call that makes a gate.
    pub fn store_make_gate<H: Heap>(
        &mut self,
        heap: H,
        container: ObjId,
        label: &Label,
        clearance: &Label,
        entry: Entry,
    ) -> Result<StoredCall, AllocError>
        ensures stands { IfOk result (λ stored.
            StandsFor self.new stored (calls.MakeGate container label.now clearance.now entry)) }
        ensures entries { self.new.entries ≡ self.old.entries }
        ensures room { OnOk result (0 < self.new.room) }
        ensures memory { OnErr result H.Refused }
    {
        let label = self.keep_label(heap, label)?;
        let clearance = self.keep_label(heap, clearance)?;
        self.make_room(heap)?;
        Ok(StoredCall::MakeGate(container, label, clearance, entry))
    }

    /// Stores a call that enters a gate.
    pub fn store_enter<H: Heap>(
        &mut self,
        heap: H,
        container: ObjId,
        gate: ObjId,
        labels: HandedLabels,
    ) -> Result<StoredCall, AllocError>
        ensures stands { IfOk result (λ stored. StandsFor self.new stored (calls.Enter container gate
            labels.entry.wanted.now labels.entry.clearance.now labels.entry.verify.now)) }
        ensures entries { self.new.entries ≡ self.old.entries }
        ensures room { OnOk result (0 < self.new.room) }
        ensures memory { OnErr result H.Refused }
    {
        let wanted = self.keep_label(heap, labels.wanted)?;
        let clearance = self.keep_label(heap, labels.clearance)?;
        let verify = self.keep_label(heap, labels.verify)?;
        self.make_room(heap)?;
        Ok(StoredCall::Enter(container, gate, wanted, clearance, verify))
    }

    /// Stores a call that writes a segment, and returns the Id of its bytes too.
    pub fn store_write<H: Heap>(
        &mut self,
        heap: H,
        container: ObjId,
        segment: ObjId,
        keep: u32,
        bytes: Bytes,
    ) -> Result<(StoredCall, BytesId), AllocError>
        ensures stands { IfOk result (λ stored.
            StandsFor self.new stored.0 (calls.Write container segment keep bytes)) }
        ensures bytes { IfOk result (λ stored. slice_get self.new.bytes stored.1 ≡ Some bytes) }
        ensures entries { self.new.entries ≡ self.old.entries }
        ensures room { OnOk result (0 < self.new.room) }
        ensures memory { OnErr result H.Refused }
    {
        let bytes = self.keep_bytes(heap, bytes)?;
        self.make_room(heap)?;
        Ok((StoredCall::Write(container, segment, keep, bytes), bytes))
    }
}
