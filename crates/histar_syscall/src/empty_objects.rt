//! The objects of the empty kernel.
ghost use Rattle.std.specs.Prelude.{OnErr, ◌≡◌, ◌+◌, ◌<◌, IfOk, OnOk};
ghost use Rattle.std.specs.FinSet as set;
ghost use Rattle.histar_level.specs.declared.level.Level.TheVariants.{L0, L1};
ghost use Rattle.histar_label.specs.Levels.{constant, with_level};
ghost use Rattle.histar_object.specs.declared.objects.Kind.TheVariants as kinds;
ghost use Rattle.histar_object.specs.State.{boot_thread, empty_state, with_next, with_object};
ghost use Rattle.histar_container.specs.ObjectsModel.{state_of};
ghost use Rattle.histar_rules.specs.Rules.{greatest};

use histar_heap::Heap;
use histar_label::{Category, Label, LabelStore, Level, OutOfMemory};
use histar_object::{Kind, Links, ObjId};
use histar_rules::LabelledObjects;

/// Makes the objects of the empty kernel: the root container, and the boot thread in it.
pub fn empty_objects<H: Heap, S: LabelStore + Drop>(
    heap: H,
    store: S,
) -> Result<LabelledObjects<S>, OutOfMemory>
    ensures ok { IfOk result (λ objects. state_of objects ≡ empty_state) }
    ensures memory { OnErr result H.Refused }
{
    let mut objects = LabelledObjects::new(heap.alloc(), store, 1, 2);
    push_root(heap, &mut objects)?;
    add_boot_thread(heap, &mut objects)?;
    Ok(objects)
}

/// Adds a container that no container links, and that only the owner of category 1 may modify.
fn push_root<H: Heap, S: LabelStore + Drop>(
    heap: H,
    objects: &mut LabelledObjects<S>,
) -> Result<(), OutOfMemory>
    requires { objects.old.next_object < greatest }
    ensures state { OnOk result (state_of objects.new ≡ with_next (state_of objects.old)
        (record { label = with_level (constant L1) 1 L0; kind = kinds.Container set.empty })) }
    ensures counted { OnOk result (objects.new.next_object ≡ objects.old.next_object + 1) }
    ensures memory { OnErr result H.Refused }
{
    let guarded = first_label(heap, Level::L1, Level::L0)?;
    objects.push(heap, guarded, Kind::Container(Links::new(heap.alloc())))?;
    Ok(())
}

/// Adds the boot thread, which owns category 1, to the root container.
fn add_boot_thread<H: Heap, S: LabelStore + Drop>(
    heap: H,
    objects: &mut LabelledObjects<S>,
) -> Result<(), OutOfMemory>
    requires { objects.old.next_object < greatest }
    ensures ok { OnOk result (state_of objects.new ≡ with_object (state_of objects.old) 1 boot_thread) }
    ensures memory { OnErr result H.Refused }
{
    let owning = first_label(heap, Level::L1, Level::Star)?;
    let cleared = first_label(heap, Level::L2, Level::L3)?;
    objects.add(heap, ObjId::new(1), owning, Kind::Thread(cleared))?;
    Ok(())
}

/// Makes a label with one level at category 1, and another one at all other categories.
fn first_label<H: Heap>(heap: H, default: Level, level: Level) -> Result<Label, OutOfMemory>
    ensures ok { IfOk result (λ label. label ≡ with_level (constant default) 1 level) }
    ensures memory { OnErr result H.Refused }
{
    Label::new(heap.alloc(), default).with(heap, Category::new(1), level)
}
