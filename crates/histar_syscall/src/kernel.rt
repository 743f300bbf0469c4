//! The kernel and its raw calls.
ghost use Rattle.std.specs.Prelude.{OnErr, ◌≡◌, ◌<◌, [], Some, IfOk, length};
ghost use Rattle.histar_level.specs.Levels.{Levels};
ghost use Rattle.std.specs.Option.{option_copied};
ghost use Rattle.std.specs.FinSet as set;
ghost use Rattle.histar_object.specs.Objects.{objects_of, bytes_in, clearance_there, is_container, is_thread, label_there, links_in};
ghost use Rattle.histar_object.specs.State.{empty_state};
ghost use Rattle.histar_rules.specs.Kinds.{kind_there};
ghost use Rattle.histar_rules.specs.RawAnswers.{IsAnswer};
ghost use Rattle.histar_rules.specs.Sound.{IsSound};
ghost use Rattle.histar_rules.specs.declared.raw.RawCall.TheVariants as calls;
ghost use Rattle.histar_syscall.specs.Answers.{IsAnswerValue};
ghost use Rattle.histar_syscall.specs.KernelModel.{Answered, AnsweredAs, ReadsLent, OwnLent, EndsAs, lent_bytes, state};
ghost use Rattle.histar_rules.specs.Memory.{OnOutOfMemory};

use crate::answers::Answer;
use crate::containers::{make_container, unlink};
use crate::decide::decide;
use crate::empty_objects::empty_objects;
use crate::segments::{check_read, make_segment, read, write};
use histar_base::Bytes;
use histar_gate::{enter, make_gate};
use histar_heap::Heap;
use histar_label::{Category, Label, LabelStore, OutOfMemory};
use histar_object::{Entry, ObjId};
use histar_rules::{Access, HandedLabels, LabelledObjects, Maker, ObjectKind, RawCall, Refusal};
use histar_thread::{
    check_own_label, make_category, make_thread, own_label, set_clearance, set_label,
};
use histar_trace::{StoredCall, Trace};
use std::marker::Model;
use std::mem::forget;

/// A labelled kernel over any store of labels: its objects, the trace of all its calls, and the line that was
/// begun last. Each raw call makes room in the trace, is decided on the objects by the function of its kind,
/// and is recorded with its outcome. A raw call that runs out of memory leaves objects, links, counters and
/// trace as they were: it allocates before its first change. Its store may keep a label that no object has.
///
/// Its objects are always a tree below the root container, so that no object outlives the container that held
/// it.
#[derive(Drop)]
pub struct Kernel<S: LabelStore + Drop> {
    objects: LabelledObjects<S>,
    trace: Trace,
    line: u32,
}

impl<S: LabelStore + Drop> Model for Kernel<S> {
    ghost use Rattle.histar_container.specs.ObjectsModel.{state_of};
    ghost use Rattle.histar_rules.specs.Sound.{IsSound};
    ghost use Rattle.histar_syscall.specs.KernelModel.{KernelModel, coded_kernel_model};

    ghost Value = { KernelModel };

    ghost coded = { coded_kernel_model };

    ghost view = { λ k. record { kept = k.objects; line = k.line; trace = k.trace.entries } };

    ghost invariant = { λ k. IsSound (state_of k.objects) };
}

#[tactic(auto, using(crate::proofs::Rooms::answered, crate::proofs::Rooms::exits, histar_rules::proofs::Sound::sound_decided))]
impl<S: LabelStore + Drop> Kernel<S> {
    ghost use Rattle.std.specs.Borrow.{sem};
    ghost use Rattle.histar_syscall.specs.contracts.kernel.Kernel.{the_row};

    /// Makes the empty kernel: the root container, and in it the boot thread, which owns category 1. No line
    /// was begun, and no call was made.
    pub fn new<H: Heap>(heap: H, store: S) -> Result<Self, OutOfMemory>
        ensures state { IfOk result (λ kernel. state kernel ≡ empty_state) }
        ensures line { IfOk result (λ kernel. kernel.line ≡ 0) }
        ensures trace { IfOk result (λ kernel. kernel.trace ≡ []) }
        ensures memory { OnErr result H.Refused }
    {
        let objects = empty_objects(heap, store)?;
        Ok(Kernel {
            objects,
            trace: Trace::new(heap)?,
            line: 0,
        })
    }

    /// Sets the line of the script that the trace records with the next calls.
    pub fn begin(&mut self, line: u32)
        ensures { self.new ≡ record self.old { line = line } }
    {
        self.line = line;
    }

    /// Lends the calls so far, in their order.
    pub fn trace(&self) -> &Trace
        ensures { result.now.entries ≡ self.now.trace }
    {
        &self.trace
    }

    /// Moves out the calls so far, and leaks the objects: a program that ends soon takes no time to free them.
    pub fn leak_into_trace(self) -> Trace
        ensures { result.entries ≡ self.trace }
    {
        forget(self.objects);
        self.trace
    }

    /// Makes one raw call of any kind.
    pub fn call<H: Heap>(
        &mut self,
        heap: H,
        thread: ObjId,
        call: RawCall,
    ) -> Result<Answer, Refusal>
        ensures answered { AnsweredAs self.old self.new thread call result
            (λ a. IsAnswerValue (state self.old) thread call a) }

        // The objects of every kernel are sound.
        ensures sound { IsSound (state self.old) × IsSound (state self.new) }
        ensures memory { OnOutOfMemory result H.Refused }
    {
        let answer = self.make_call(heap, thread, &call);
        drop(call);
        answer
    }

    /// Makes one raw call of any kind, which stays the caller's.
    pub fn make_call<H: Heap>(
        &mut self,
        heap: H,
        thread: ObjId,
        call: &RawCall,
    ) -> Result<Answer, Refusal>
        ensures answered { AnsweredAs self.old self.new thread call.now result
            (λ a. IsAnswerValue (state self.old) thread call.now a) }
        ensures sound { IsSound (state self.old) × IsSound (state self.new) }
        ensures memory { OnOutOfMemory result H.Refused }
    {
        let stored = self.trace.store(heap, call)?;
        let answer = decide(&mut self.objects, heap, thread, call);
        self.trace.record(self.line, thread, stored, answer)
    }

    /// Makes a category. The thread owns it from then on, and its clearance there is 3.
    pub fn make_category<H: Heap>(&mut self, heap: H, thread: ObjId) -> Result<Category, Refusal>
        ensures ok { Answered self.old self.new thread calls.MakeCategory result }
        ensures memory { OnOutOfMemory result H.Refused }
    {
        self.trace.make_room(heap)?;
        let answer = make_category(heap, &mut self.objects, thread);
        let call = StoredCall::MakeCategory;
        self.trace.record(self.line, thread, call, answer)
    }

    /// Returns the thread's own label and clearance.
    pub fn own_label<H: Heap>(&mut self, heap: H, thread: ObjId) -> Result<(Label, Label), Refusal>
        ensures ok { Answered self.old self.new thread calls.OwnLabel result }
        ensures memory { OnOutOfMemory result H.Refused }
    {
        self.trace.make_room(heap)?;
        let answer = own_label(heap, &self.objects, thread);
        let call = StoredCall::OwnLabel;
        self.trace.record(self.line, thread, call, answer)
    }

    /// Lends the thread's own label. The kernel is free again when it is no longer used.
    pub fn lend_own_label<H: Heap>(&mut self, heap: H, thread: ObjId) -> Result<&Label, Refusal>
        ensures* lends { sem 𝓛 (EndsAs (the_row S.row S.Id.row S.LabelStore S.Id.PartialEq) self.entry
            (OwnLent self.old thread result)) }
        ensures memory { OnOutOfMemory result H.Refused }
    {
        self.ask_own_label(heap, thread)?;
        Ok(self.label(thread).unwrap())
    }

    // Makes the call by which a thread learns its own label, without the label: it is lent once it is recorded.
    fn ask_own_label<H: Heap>(&mut self, heap: H, thread: ObjId) -> Result<(), Refusal>
        ensures ok { AnsweredAs self.old self.new thread calls.OwnLabel result
            (λ _. (own : Levels × Levels) × IsAnswer (state self.old) thread calls.OwnLabel own) }
        ensures memory { OnOutOfMemory result H.Refused }
    {
        self.trace.make_room(heap)?;
        let answer = check_own_label(heap, &self.objects, thread);
        let call = StoredCall::OwnLabel;
        self.trace.record(self.line, thread, call, answer)
    }

    /// Gives the thread another label, which lies between its own label and its clearance.
    pub fn set_label<H: Heap>(
        &mut self,
        heap: H,
        thread: ObjId,
        label: Label,
    ) -> Result<(), Refusal>
        ensures ok { Answered self.old self.new thread (calls.SetLabel label) result }
        ensures memory { OnOutOfMemory result H.Refused }
    {
        let call = self.trace.store_set_label(heap, &label)?;
        let answer = set_label(heap, &mut self.objects, thread, &label);
        self.trace.record(self.line, thread, call, answer)
    }

    /// Gives the thread another clearance, which is above its own label, and exceeds its old clearance only
    /// where the thread owns.
    pub fn set_clearance<H: Heap>(
        &mut self,
        heap: H,
        thread: ObjId,
        clearance: Label,
    ) -> Result<(), Refusal>
        ensures ok { Answered self.old self.new thread (calls.SetClearance clearance) result }
        ensures memory { OnOutOfMemory result H.Refused }
    {
        let call = self.trace.store_set_clearance(heap, &clearance)?;
        let answer = set_clearance(heap, &mut self.objects, thread, &clearance);
        self.trace.record(self.line, thread, call, answer)
    }

    /// Makes a segment in a container, and returns its number.
    pub fn make_segment<H: Heap>(
        &mut self,
        heap: H,
        thread: ObjId,
        container: ObjId,
        label: Label,
        bytes: Bytes,
    ) -> Result<ObjId, Refusal>
        ensures answered { Answered self.old self.new thread (calls.MakeSegment container label bytes) result }

        // No object has the number 0.
        ensures numbered { IfOk result (λ number. 0 < number) }
        ensures memory { OnOutOfMemory result H.Refused }
    {
        let (call, bytes) = self
            .trace
            .store_make_segment(heap, container, &label, bytes)?;
        let bytes = self.trace.bytes(bytes);
        let maker = Maker::new(thread, container);
        let answer = make_segment(&mut self.objects, heap, &maker, label, bytes);
        self.trace.record(self.line, thread, call, answer)
    }

    /// Makes a container in a container, and returns its number.
    pub fn make_container<H: Heap>(
        &mut self,
        heap: H,
        thread: ObjId,
        container: ObjId,
        label: Label,
    ) -> Result<ObjId, Refusal>
        ensures answered { Answered self.old self.new thread (calls.MakeContainer container label) result }
        ensures numbered { IfOk result (λ number. 0 < number) }
        ensures memory { OnOutOfMemory result H.Refused }
    {
        let call = self.trace.store_make_container(heap, container, &label)?;
        let maker = Maker::new(thread, container);
        let answer = make_container(&mut self.objects, heap, &maker, label);
        self.trace.record(self.line, thread, call, answer)
    }

    /// Makes a thread in a container, and returns its number. The new thread owns no more than its maker, and
    /// its clearance is at most the maker's.
    pub fn make_thread<H: Heap>(
        &mut self,
        heap: H,
        thread: ObjId,
        container: ObjId,
        label: Label,
        clearance: Label,
    ) -> Result<ObjId, Refusal>
        ensures ok { Answered self.old self.new thread (calls.MakeThread container label clearance) result }
        ensures memory { OnOutOfMemory result H.Refused }
    {
        let call = self
            .trace
            .store_make_thread(heap, container, &label, &clearance)?;
        let maker = Maker::new(thread, container);
        let answer = make_thread(heap, &mut self.objects, &maker, label, clearance);
        self.trace.record(self.line, thread, call, answer)
    }

    /// Makes a gate in a container, and returns its number. The gate gives its label to each thread that
    /// enters it, so its maker must own what the gate is to own.
    pub fn make_gate<H: Heap>(
        &mut self,
        heap: H,
        thread: ObjId,
        container: ObjId,
        label: Label,
        clearance: Label,
        entry: Entry,
    ) -> Result<ObjId, Refusal>
        ensures ok { Answered self.old self.new thread (calls.MakeGate container label clearance entry) result }
        ensures memory { OnOutOfMemory result H.Refused }
    {
        let call = self
            .trace
            .store_make_gate(heap, container, &label, &clearance, entry)?;
        let maker = Maker::new(thread, container);
        let answer = make_gate(heap, &mut self.objects, &maker, label, clearance, entry);
        self.trace.record(self.line, thread, call, answer)
    }

    /// Enters a gate that a container links, and returns its entry. The thread gets the label and the
    /// clearance that it wants, within what the gate and its own labels allow.
    pub fn enter<H: Heap>(
        &mut self,
        heap: H,
        thread: ObjId,
        container: ObjId,
        gate: ObjId,
        labels: HandedLabels,
    ) -> Result<Entry, Refusal>
        ensures ok { Answered self.old self.new thread (calls.Enter container gate labels.entry.wanted.now
            labels.entry.clearance.now labels.entry.verify.now) result }
        ensures memory { OnOutOfMemory result H.Refused }
    {
        let call = self.trace.store_enter(heap, container, gate, labels)?;
        let access = Access::new(thread, container, gate);
        let answer = enter(heap, &mut self.objects, &access, labels);
        self.trace.record(self.line, thread, call, answer)
    }

    /// Lends the bytes of a segment that the container links. The kernel is free again when they are no
    /// longer used.
    pub fn read<H: Heap>(
        &mut self,
        heap: H,
        thread: ObjId,
        container: ObjId,
        segment: ObjId,
    ) -> Result<&[u8], Refusal>
        ensures* lends { sem 𝓛 (EndsAs (the_row S.row S.Id.row S.LabelStore S.Id.PartialEq) self.entry
            (ReadsLent self.old thread container segment result)) }
        ensures memory { OnOutOfMemory result H.Refused }
    {
        self.make_read(heap, thread, container, segment)?;
        Ok(self.bytes_of(segment))
    }

    // Makes a read without its bytes: they are lent once it is recorded.
    fn make_read<H: Heap>(
        &mut self,
        heap: H,
        thread: ObjId,
        container: ObjId,
        segment: ObjId,
    ) -> Result<(), Refusal>
        ensures ok { AnsweredAs self.old self.new thread (calls.Read container segment) result (λ _. Unit {0}) }
        ensures memory { OnOutOfMemory result H.Refused }
    {
        self.trace.make_room(heap)?;
        let access = Access::new(thread, container, segment);
        let answer = check_read(heap, &mut self.objects, &access);
        let call = StoredCall::Read(container, segment);
        self.trace.record(self.line, thread, call, answer)
    }

    /// Returns the bytes of a segment, and none for another object or for one that the root container links:
    /// there are the passwords and the user table. This is no raw call, and leaves no entry: with it the
    /// machine looks up in its own table which thread makes a call.
    pub fn bytes(&self, segment: ObjId) -> &[u8]
        ensures { result.now ≡ lent_bytes (state self.now) segment }
    {
        if self.objects.is_in_root(segment) {
            return &[];
        }
        self.bytes_of(segment)
    }

    // Returns the bytes of any segment, and none for another object.
    fn bytes_of(&self, segment: ObjId) -> &[u8]
        ensures { result.now ≡ bytes_in (objects_of self.now.kept.objects segment) }
    {
        match self.objects.bytes(segment) {
            Some(bytes) => bytes,
            None => &[],
        }
    }

    /// Returns the number of bytes of a segment, and 0 for another object. This is no raw call either.
    pub fn size(&self, segment: ObjId) -> usize
        ensures { result ≡ length (bytes_in (objects_of self.now.kept.objects segment)) }
    {
        self.bytes_of(segment).len()
    }

    /// Returns the label of an object, if there is one. This is no raw call either.
    pub fn label(&self, object: ObjId) -> Option<&Label>
        ensures { option_copied result ≡ label_there (objects_of self.now.kept.objects object) }
    {
        self.objects.label(object)
    }

    /// Returns the clearance of an object, if it is a thread or a gate. This is no raw call either.
    pub fn clearance(&self, object: ObjId) -> Option<&Label>
        ensures { option_copied result ≡ clearance_there (objects_of self.now.kept.objects object) }
    {
        self.objects.clearance(object)
    }

    /// Returns the kind of an object, if there is one. This is no raw call either.
    pub fn kind(&self, object: ObjId) -> Option<ObjectKind>
        ensures { result ≡ kind_there (objects_of self.now.kept.objects object) }
    {
        self.objects.kind(object)
    }

    /// Returns the number that the next category gets: each category below it was made. This is no raw call
    /// either.
    pub fn next_category(&self) -> u64
        ensures { result ≡ self.now.kept.next_category }
    {
        self.objects.next_category()
    }

    /// Checks whether a container links an object. This is no raw call either.
    pub fn is_linked(&self, container: ObjId, object: ObjId) -> bool
        ensures { result ≡ set.contains (links_in (objects_of self.now.kept.objects container)) object }
    {
        self.objects.is_linked(container, object)
    }

    /// Checks whether there is a container of this number. This is no raw call either.
    pub fn is_container(&self, object: ObjId) -> bool
        ensures { result ≡ is_container (objects_of self.now.kept.objects object) }
    {
        self.objects.is_container(object)
    }

    /// Checks whether there is a thread of this number. This is no raw call either.
    pub fn is_thread(&self, object: ObjId) -> bool
        ensures { result ≡ is_thread (objects_of self.now.kept.objects object) }
    {
        self.objects.is_thread(object)
    }

    /// Reads a segment, and returns a copy of its bytes, which stays while the kernel goes on.
    pub fn read_copy<H: Heap>(
        &mut self,
        heap: H,
        thread: ObjId,
        container: ObjId,
        segment: ObjId,
    ) -> Result<Bytes, Refusal>
        ensures ok { Answered self.old self.new thread (calls.Read container segment) result }
        ensures memory { OnOutOfMemory result H.Refused }
    {
        self.trace.make_room(heap)?;
        let access = Access::new(thread, container, segment);
        let answer = read(&mut self.objects, heap, &access);
        let call = StoredCall::Read(container, segment);
        self.trace.record(self.line, thread, call, answer)
    }

    /// Keeps the first bytes of a segment that the container links, at most `keep`, and appends new ones.
    pub fn write<H: Heap>(
        &mut self,
        heap: H,
        thread: ObjId,
        container: ObjId,
        segment: ObjId,
        keep: u32,
        bytes: Bytes,
    ) -> Result<(), Refusal>
        ensures ok { Answered self.old self.new thread (calls.Write container segment keep bytes) result }
        ensures memory { OnOutOfMemory result H.Refused }
    {
        let (call, bytes) = self
            .trace
            .store_write(heap, container, segment, keep, bytes)?;
        let bytes = self.trace.bytes(bytes);
        let access = Access::new(thread, container, segment);
        let answer = write(&mut self.objects, heap, &access, keep, bytes);
        self.trace.record(self.line, thread, call, answer)
    }

    /// Unlinks an object from a container, and removes it with all that hangs below it, its threads too.
    pub fn unlink<H: Heap>(
        &mut self,
        heap: H,
        thread: ObjId,
        container: ObjId,
        object: ObjId,
    ) -> Result<(), Refusal>
        ensures ok { Answered self.old self.new thread (calls.Unlink container object) result }
        ensures memory { OnOutOfMemory result H.Refused }
    {
        self.trace.make_room(heap)?;
        let access = Access::new(thread, container, object);
        let answer = unlink(&mut self.objects, heap, &access);
        let call = StoredCall::Unlink(container, object);
        self.trace.record(self.line, thread, call, answer)
    }

    /// Returns the label of an object that the container links and that is no thread.
    pub fn label_of<H: Heap>(
        &mut self,
        heap: H,
        thread: ObjId,
        container: ObjId,
        object: ObjId,
    ) -> Result<Label, Refusal>
        ensures ok { Answered self.old self.new thread (calls.LabelOf container object) result }
        ensures memory { OnOutOfMemory result H.Refused }
    {
        self.trace.make_room(heap)?;
        let access = Access::new(thread, container, object);
        let answer = self.objects.label_of(heap, &access);
        let call = StoredCall::LabelOf(container, object);
        self.trace.record(self.line, thread, call, answer)
    }
}
