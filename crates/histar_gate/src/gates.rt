//! Making gates, and entering them.
ghost use Rattle.histar_rules.specs.Rules.{Decides};
ghost use Rattle.histar_rules.specs.declared.raw.RawCall.TheVariants as calls;
ghost use Rattle.histar_rules.specs.Memory.{OnOutOfMemory};

use histar_heap::Heap;
use histar_label::{Label, LabelStore};
use histar_object::{Entry, Kind, ObjId};
use histar_rules::{Access, HandedLabels, LabelledObjects, Maker, Refusal};

/// Makes a gate in a container, and returns its number. The gate gives its label to each thread that enters
/// it, so its maker must own what the gate is to own.
pub fn make_gate<H: Heap, S: LabelStore + Drop>(
    heap: H,
    objects: &mut LabelledObjects<S>,
    maker: &Maker,
    label: Label,
    clearance: Label,
    entry: Entry,
) -> Result<ObjId, Refusal>
    ensures ok { Decides objects.old objects.new maker.now.thread
        (calls.MakeGate maker.now.container label clearance entry) result }
    ensures memory { OnOutOfMemory result H.Refused }
{
    objects.check_new_owner(maker, &label, &clearance)?;
    let number = objects.next_object();
    objects.add(heap, maker.container, label, Kind::Gate(clearance, entry))?;
    Ok(number)
}

/// Enters a gate, and returns its entry: the thread gets the label and the clearance that it wants, within
/// what the gate and its own labels allow. Its own label is below the verify label, which proves what the
/// thread owns. `Gate` where the gate's clearance or the verify label doesn't let it in.
pub fn enter<H: Heap, S: LabelStore + Drop>(
    heap: H,
    objects: &mut LabelledObjects<S>,
    access: &Access,
    labels: HandedLabels,
) -> Result<Entry, Refusal>
    ensures ok { Decides objects.old objects.new access.now.thread
        (calls.Enter access.now.container access.now.object
        labels.entry.wanted.now labels.entry.clearance.now labels.entry.verify.now) result }
    ensures memory { OnOutOfMemory result H.Refused }
{
    objects.enter(heap, access, labels)
}
