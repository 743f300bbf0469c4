//! The raw calls on containers.
ghost use Rattle.histar_object.specs.Objects.{objects_of};
ghost use Rattle.histar_container.specs.Tree.{AreTree};
ghost use Rattle.histar_rules.specs.Rules.{Decides};
ghost use Rattle.histar_rules.specs.declared.raw.RawCall.TheVariants as calls;
ghost use Rattle.histar_rules.specs.Memory.{OnOutOfMemory};

use histar_heap::Heap;
use histar_label::{Label, LabelStore};
use histar_object::{Kind, Links, ObjId};
use histar_rules::{Access, LabelledObjects, Maker, Refusal};

/// Makes a container in a container, and returns its number.
pub fn make_container<H: Heap, S: LabelStore + Drop>(
    objects: &mut LabelledObjects<S>,
    heap: H,
    maker: &Maker,
    label: Label,
) -> Result<ObjId, Refusal>
    ensures ok { Decides objects.old objects.new maker.now.thread
        (calls.MakeContainer maker.now.container label) result }
    ensures memory { OnOutOfMemory result H.Refused }
{
    objects.check_new(maker, &label, 0)?;
    let number = objects.next_object();
    objects.add(
        heap,
        maker.container,
        label,
        Kind::Container(Links::new(heap.alloc())),
    )?;
    Ok(number)
}

/// Unlinks an object from a container, and removes it with all that hangs below it, whatever its labels.
pub fn unlink<H: Heap, S: LabelStore + Drop>(
    objects: &mut LabelledObjects<S>,
    heap: H,
    access: &Access,
) -> Result<(), Refusal>
    requires { AreTree (objects_of objects.old.objects) }
    ensures ok { Decides objects.old objects.new access.now.thread
        (calls.Unlink access.now.container access.now.object) result }
    ensures memory { OnOutOfMemory result H.Refused }
{
    objects.check_unlink(access)?;
    objects.remove(heap, access.container, access.object)?;
    Ok(())
}
