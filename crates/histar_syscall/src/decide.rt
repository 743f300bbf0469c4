//! How a raw call that comes as data is decided: by the function of its kind.
ghost use Rattle.histar_object.specs.Objects.{objects_of};
ghost use Rattle.histar_container.specs.ObjectsModel.{state_of};
ghost use Rattle.histar_container.specs.Tree.{AreTree};
ghost use Rattle.histar_rules.specs.Rules.{DecidesAs};
ghost use Rattle.histar_syscall.specs.Answers.{IsAnswerValue, IsValueOf};
ghost use Rattle.histar_syscall.specs.declared.answers.Answer.TheVariants as answers;
ghost use Rattle.histar_rules.specs.Memory.{OnOutOfMemory};

use crate::answers::Answer;
use crate::containers::unlink;
use crate::copied::{copied_container, copied_gate, copied_segment, copied_thread};
use crate::segments::{read, write};
use histar_base::Bytes;
use histar_gate::enter;
use histar_heap::Heap;
use histar_label::{Category, Label, LabelStore};
use histar_object::{Entry, ObjId};
use histar_rules::{Access, HandedLabels, LabelledObjects, Maker, RawCall, Refusal};
use histar_thread::{make_category, own_label, set_clearance, set_label};

/// Decides a raw call on the objects, and returns its answer where it is granted.
pub(crate) fn decide<H: Heap, S: LabelStore + Drop>(
    objects: &mut LabelledObjects<S>,
    heap: H,
    thread: ObjId,
    call: &RawCall,
) -> Result<Answer, Refusal>
    requires { AreTree (objects_of objects.old.objects) }
    ensures ok { DecidesAs objects.old objects.new thread call.now result
        (λ a. IsAnswerValue (state_of objects.old) thread call.now a) }
    ensures memory { OnOutOfMemory result H.Refused }
{
    match call {
        RawCall::MakeCategory => category(make_category(heap, objects, thread)),
        RawCall::OwnLabel => own(own_label(heap, objects, thread)),
        RawCall::SetLabel(label) => done(set_label(heap, objects, thread, label.label())),
        RawCall::SetClearance(clearance) => {
            done(set_clearance(heap, objects, thread, clearance.label()))
        }
        RawCall::MakeSegment(container, label, bytes) => {
            let maker = Maker::new(thread, *container);
            made(copied_segment(objects, heap, &maker, label, bytes))
        }
        RawCall::MakeContainer(container, label) => {
            let maker = Maker::new(thread, *container);
            made(copied_container(objects, heap, &maker, label))
        }
        RawCall::MakeThread(container, label, clearance) => {
            let maker = Maker::new(thread, *container);
            made(copied_thread(heap, objects, &maker, label, clearance))
        }
        RawCall::MakeGate(container, label, clearance, entry) => {
            let maker = Maker::new(thread, *container);
            made(copied_gate(heap, objects, &maker, label, clearance, *entry))
        }
        RawCall::Enter(container, gate, wanted, clearance, verify) => {
            let access = Access::new(thread, *container, *gate);
            let labels = HandedLabels {
                wanted: wanted.label(),
                clearance: clearance.label(),
                verify: verify.label(),
            };
            entry(enter(heap, objects, &access, labels))
        }
        RawCall::Read(container, segment) => {
            let access = Access::new(thread, *container, *segment);
            bytes(read(objects, heap, &access))
        }
        RawCall::Write(container, segment, keep, bytes) => {
            let access = Access::new(thread, *container, *segment);
            done(write(objects, heap, &access, *keep, bytes))
        }
        RawCall::Unlink(container, object) => {
            let access = Access::new(thread, *container, *object);
            done(unlink(objects, heap, &access))
        }
        RawCall::LabelOf(container, object) => {
            let access = Access::new(thread, *container, *object);
            label(objects.label_of(heap, &access))
        }
    }
}

/// Answers `Done`, where the call was granted.
fn done(outcome: Result<(), Refusal>) -> Result<Answer, Refusal>
    ensures { IsValueOf outcome (λ _. answers.Done) result }
{
    outcome.map(|()| Answer::Done)
}

/// Answers the new category, where the call was granted.
fn category(outcome: Result<Category, Refusal>) -> Result<Answer, Refusal>
    ensures { IsValueOf outcome answers.Category result }
{
    outcome.map(Answer::Category)
}

/// Answers the thread's label and clearance, where the call was granted.
fn own(outcome: Result<(Label, Label), Refusal>) -> Result<Answer, Refusal>
    ensures { IsValueOf outcome (λ own. answers.OwnLabel own.0 own.1) result }
{
    outcome.map(|own| Answer::OwnLabel(own.0, own.1))
}

/// Answers the number of the new object, where the call was granted.
fn made(outcome: Result<ObjId, Refusal>) -> Result<Answer, Refusal>
    ensures { IsValueOf outcome answers.Object result }
{
    outcome.map(Answer::Object)
}

/// Answers the gate's entry, where the call was granted.
fn entry(outcome: Result<Entry, Refusal>) -> Result<Answer, Refusal>
    ensures { IsValueOf outcome answers.Entry result }
{
    outcome.map(Answer::Entry)
}

/// Answers the segment's bytes, where the call was granted.
fn bytes(outcome: Result<Bytes, Refusal>) -> Result<Answer, Refusal>
    ensures { IsValueOf outcome answers.Bytes result }
{
    outcome.map(Answer::Bytes)
}

/// Answers the object's label, where the call was granted.
fn label(outcome: Result<Label, Refusal>) -> Result<Answer, Refusal>
    ensures { IsValueOf outcome answers.Label result }
{
    outcome.map(Answer::Label)
}
