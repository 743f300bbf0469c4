//! The calls of a thread on itself, and the call that makes a thread.
ghost use Rattle.std.specs.Prelude.{◌≡◌, ◌<◌, IfOk, Some};
ghost use Rattle.histar_level.specs.Levels.{Levels};
ghost use Rattle.histar_object.specs.Objects.{objects_of, thread_of};
ghost use Rattle.histar_container.specs.ObjectsModel.{state_of};
ghost use Rattle.histar_rules.specs.Rules.{check, FailsAt, Decides, DecidesAs};
ghost use Rattle.histar_rules.specs.RawAnswers.{IsAnswer};
ghost use Rattle.histar_rules.specs.declared.raw.RawCall.TheVariants as calls;
ghost use Rattle.histar_rules.specs.Memory.{OnOutOfMemory};

use histar_heap::Heap;
use histar_label::{Category, Label, LabelStore, Level};
use histar_object::{Kind, ObjId};
use histar_rules::{Denied, LabelledObjects, Maker, Refusal, require};

/// Returns the thread's own label and clearance.
pub fn own_label<H: Heap, S: LabelStore + Drop>(
    heap: H,
    objects: &LabelledObjects<S>,
    thread: ObjId,
) -> Result<(Label, Label), Refusal>
    ensures ok { Decides objects.now objects.now thread calls.OwnLabel result }
    ensures memory { OnOutOfMemory result H.Refused }
{
    let Some((label, clearance)) = objects.own(thread) else {
        return Err(Refusal::Denied(Denied::NoThread));
    };
    let label = label.copy(heap)?;
    let clearance = clearance.copy(heap)?;
    Ok((label, clearance))
}

/// Checks that a thread is there, so that it has a label and a clearance, which may be lent to it.
pub fn check_own_label<H: Heap, S: LabelStore + Drop>(
    heap: H,
    objects: &LabelledObjects<S>,
    thread: ObjId,
) -> Result<(), Refusal>
    ensures ok { DecidesAs objects.now objects.now thread calls.OwnLabel result
        (λ _. (own : Levels × Levels) × IsAnswer (state_of objects.now) thread calls.OwnLabel own) }
    ensures memory { OnOutOfMemory result H.Refused }
{
    match objects.own(thread) {
        Some(_) => Ok(()),
        None => Err(Refusal::Denied(Denied::NoThread)),
    }
}

/// Checks that a category may be made, and returns the thread's label and clearance.
fn check_make_category<S: LabelStore + Drop>(
    objects: &LabelledObjects<S>,
    thread: ObjId,
) -> Result<(&Label, &Label), Denied>
    ensures answer { FailsAt (check (state_of objects.now) thread calls.MakeCategory) result }
    ensures own { IfOk result (λ own. objects_of objects.now.objects thread
        ≡ Some (thread_of own.0.now own.1.now)) }
{
    let Some(own) = objects.own(thread) else {
        return Err(Denied::NoThread);
    };
    require(objects.next_category() < u64::MAX, Denied::TooBig)?;
    Ok(own)
}

/// Makes a category. The thread owns it from then on, and its clearance there is 3.
pub fn make_category<H: Heap, S: LabelStore + Drop>(
    heap: H,
    objects: &mut LabelledObjects<S>,
    thread: ObjId,
) -> Result<Category, Refusal>
    ensures ok { Decides objects.old objects.new thread calls.MakeCategory result }
    ensures memory { OnOutOfMemory result H.Refused }
{
    let (label, clearance) = check_make_category(objects, thread)?;
    let category = Category::new(objects.next_category());
    let label = label.with(heap, category, Level::Star)?;
    let clearance = clearance.with(heap, category, Level::L3)?;
    objects.set_own(heap, thread, label, clearance)?;
    objects.count_category();
    Ok(category)
}

/// Gives the thread another label, which lies between its own label and its clearance: it may give up what it
/// owns, and taint itself, but not the other way.
pub fn set_label<H: Heap, S: LabelStore + Drop>(
    heap: H,
    objects: &mut LabelledObjects<S>,
    thread: ObjId,
    label: &Label,
) -> Result<(), Refusal>
    ensures ok { Decides objects.old objects.new thread (calls.SetLabel label.now) result }
    ensures memory { OnOutOfMemory result H.Refused }
{
    objects.set_label(heap, thread, label)
}

/// Gives the thread another clearance, which is above its own label, and exceeds its old clearance only where
/// the thread owns.
pub fn set_clearance<H: Heap, S: LabelStore + Drop>(
    heap: H,
    objects: &mut LabelledObjects<S>,
    thread: ObjId,
    clearance: &Label,
) -> Result<(), Refusal>
    ensures ok { Decides objects.old objects.new thread (calls.SetClearance clearance.now) result }
    ensures memory { OnOutOfMemory result H.Refused }
{
    objects.set_clearance(heap, thread, clearance)
}

/// Makes a thread in a container, and returns its number. The new thread owns no more than its maker, and its
/// clearance is at most the maker's.
pub fn make_thread<H: Heap, S: LabelStore + Drop>(
    heap: H,
    objects: &mut LabelledObjects<S>,
    maker: &Maker,
    label: Label,
    clearance: Label,
) -> Result<ObjId, Refusal>
    ensures ok { Decides objects.old objects.new maker.now.thread
        (calls.MakeThread maker.now.container label clearance) result }
    ensures memory { OnOutOfMemory result H.Refused }
{
    objects.check_new_owner(maker, &label, &clearance)?;
    let number = objects.next_object();
    objects.add(heap, maker.container, label, Kind::Thread(clearance))?;
    Ok(number)
}
