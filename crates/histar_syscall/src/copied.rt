//! The calls that make an object, with labels that are copied from a raw call as data.
ghost use Rattle.histar_rules.specs.Rules.{Decides};
ghost use Rattle.histar_rules.specs.declared.raw.RawCall.TheVariants as calls;
ghost use Rattle.histar_rules.specs.Memory.{OnOutOfMemory};

use crate::containers::make_container;
use crate::segments::make_segment;
use histar_base::Bytes;
use histar_gate::make_gate;
use histar_heap::Heap;
use histar_label::LabelStore;
use histar_object::{Entry, ObjId};
use histar_rules::{HandedLabel, LabelledObjects, Maker, Refusal};
use histar_thread::make_thread;

/// Makes a segment with a copy of the label and of the bytes, and returns its number.
pub(crate) fn copied_segment<H: Heap, S: LabelStore + Drop>(
    objects: &mut LabelledObjects<S>,
    heap: H,
    maker: &Maker,
    label: &HandedLabel,
    bytes: &Bytes,
) -> Result<ObjId, Refusal>
    ensures ok { Decides objects.old objects.new maker.now.thread
        (calls.MakeSegment maker.now.container label.now bytes.now) result }
    ensures memory { OnOutOfMemory result H.Refused }
{
    let label = label.label().copy(heap)?;
    make_segment(objects, heap, maker, label, bytes)
}

/// Makes a container with a copy of the label, and returns its number.
pub(crate) fn copied_container<H: Heap, S: LabelStore + Drop>(
    objects: &mut LabelledObjects<S>,
    heap: H,
    maker: &Maker,
    label: &HandedLabel,
) -> Result<ObjId, Refusal>
    ensures ok { Decides objects.old objects.new maker.now.thread
        (calls.MakeContainer maker.now.container label.now) result }
    ensures memory { OnOutOfMemory result H.Refused }
{
    let label = label.label().copy(heap)?;
    make_container(objects, heap, maker, label)
}

/// Makes a thread with copies of the label and the clearance, and returns its number.
pub(crate) fn copied_thread<H: Heap, S: LabelStore + Drop>(
    heap: H,
    objects: &mut LabelledObjects<S>,
    maker: &Maker,
    label: &HandedLabel,
    clearance: &HandedLabel,
) -> Result<ObjId, Refusal>
    ensures ok { Decides objects.old objects.new maker.now.thread
        (calls.MakeThread maker.now.container label.now clearance.now) result }
    ensures memory { OnOutOfMemory result H.Refused }
{
    let label = label.label().copy(heap)?;
    let clearance = clearance.label().copy(heap)?;
    make_thread(heap, objects, maker, label, clearance)
}

/// Makes a gate with copies of the label and the clearance, and returns its number.
pub(crate) fn copied_gate<H: Heap, S: LabelStore + Drop>(
    heap: H,
    objects: &mut LabelledObjects<S>,
    maker: &Maker,
    label: &HandedLabel,
    clearance: &HandedLabel,
    entry: Entry,
) -> Result<ObjId, Refusal>
    ensures ok { Decides objects.old objects.new maker.now.thread
        (calls.MakeGate maker.now.container label.now clearance.now entry) result }
    ensures memory { OnOutOfMemory result H.Refused }
{
    let label = label.label().copy(heap)?;
    let clearance = clearance.label().copy(heap)?;
    make_gate(heap, objects, maker, label, clearance, entry)
}
