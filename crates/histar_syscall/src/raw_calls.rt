//! Raw calls as data: a run of many calls.
ghost use Rattle.std.specs.Prelude.{◌≡◌, ℕ, ◌<◌, OnOk, OnErr, length, take};
ghost use Rattle.histar_rules.specs.Sound.{IsSound};
ghost use Rattle.histar_rules.specs.Visible.{visible, AreConfined};
ghost use Rattle.histar_syscall.specs.Runs.{IsMade, MadeAll};
ghost use Rattle.histar_syscall.specs.KernelModel.{IsUnchanged, state};

use crate::kernel::Kernel;
use histar_heap::Heap;
use histar_label::{LabelStore, OutOfMemory};
use histar_object::ObjId;
use histar_rules::{RawCall, Refusal};

/// Makes raw calls one after another, each by its thread, even if earlier ones were refused. The kernel's
/// trace records their outcomes. Where memory runs out, the calls so far were made, and the others, at least
/// one, were not. Calls of threads that a category confines leave all that is visible without its taint.
pub fn run_raw<H: Heap, S: LabelStore + Drop>(
    heap: H,
    kernel: &mut Kernel<S>,
    calls: &[(ObjId, RawCall)],
) -> Result<(), OutOfMemory>
    ensures all { OnOk result (MadeAll kernel.old calls.now kernel.new) }
    ensures beginning { OnErr result ((made : ℕ) × (made < length calls.now)
        × MadeAll kernel.old (take made calls.now) kernel.new) }
    ensures confined { (v : ℕ) → AreConfined (state kernel.old) v calls.now
        → visible (state kernel.new) v ≡ visible (state kernel.old) v }
    ensures memory { OnErr result H.Refused }
{
    for asked in calls {
        make(heap, kernel, asked.0, &asked.1)?;
    }
    Ok(())
}

/// Makes one raw call, granted or refused.
fn make<H: Heap, S: LabelStore + Drop>(
    heap: H,
    kernel: &mut Kernel<S>,
    thread: ObjId,
    call: &RawCall,
) -> Result<(), OutOfMemory>
    ensures made { OnOk result (IsMade kernel.old thread call.now kernel.new) }
    ensures unchanged { OnErr result (IsUnchanged kernel.old kernel.new) }
    ensures sound { OnOk result (IsSound (state kernel.old)) }
    ensures memory { OnErr result H.Refused }
{
    match kernel.make_call(heap, thread, call) {
        Ok(_) => Ok(()),
        Err(refusal) => match refusal {
            Refusal::Denied(_) => Ok(()),
            Refusal::OutOfMemory => Err(OutOfMemory),
        },
    }
}
