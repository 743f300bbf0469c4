//! The objects that a raw call names.
ghost use Rattle.std.specs.Prelude.{◌≡◌};
ghost use Rattle.histar_level.specs.declared.level.Level.TheVariants.{L1};
ghost use Rattle.histar_label.specs.Levels.{constant};
ghost use Rattle.histar_object.specs.State.{observes};
ghost use Rattle.histar_syscall.specs.KernelModel.{state};
ghost use Rattle.histar_explain.specs.Named.{label_in, clearance_in, container_named, object_named, observed_by, modified_by};

use histar_label::{Label, LabelStore};
use histar_object::ObjId;
use histar_rules::RawCall;
use histar_syscall::Kernel;

/// Returns the label of an object, or 1 everywhere where there is none.
pub(crate) fn label_in<'k, S: LabelStore + Drop>(
    kernel: &'k Kernel<S>,
    object: ObjId,
    ones: &'k Label,
) -> &'k Label
    requires { ones.now ≡ constant L1 }
    ensures { result.now ≡ label_in (state kernel.now) object }
{
    match kernel.label(object) {
        Some(label) => label,
        None => ones,
    }
}

/// Returns the clearance of a thread or a gate, or 1 everywhere for another object.
pub(crate) fn clearance_in<'k, S: LabelStore + Drop>(
    kernel: &'k Kernel<S>,
    object: ObjId,
    ones: &'k Label,
) -> &'k Label
    requires { ones.now ≡ constant L1 }
    ensures { result.now ≡ clearance_in (state kernel.now) object }
{
    match kernel.clearance(object) {
        Some(clearance) => clearance,
        None => ones,
    }
}

/// Returns the container that a call names, or 0.
pub(crate) fn container_named(call: &RawCall) -> ObjId
    ensures { result ≡ container_named call.now }
{
    match call {
        RawCall::MakeCategory
        | RawCall::OwnLabel
        | RawCall::SetLabel(_)
        | RawCall::SetClearance(_) => ObjId::new(0),
        RawCall::MakeSegment(container, _, _) => *container,
        RawCall::MakeContainer(container, _) => *container,
        RawCall::MakeThread(container, _, _) => *container,
        RawCall::MakeGate(container, _, _, _) => *container,
        RawCall::Enter(container, _, _, _, _) => *container,
        RawCall::Read(container, _) => *container,
        RawCall::Write(container, _, _, _) => *container,
        RawCall::Unlink(container, _) => *container,
        RawCall::LabelOf(container, _) => *container,
    }
}

/// Returns the object that a call names in its container, or 0.
pub(crate) fn object_named(call: &RawCall) -> ObjId
    ensures { result ≡ object_named call.now }
{
    match call {
        RawCall::Enter(_, gate, _, _, _) => *gate,
        RawCall::Read(_, segment) => *segment,
        RawCall::Write(_, segment, _, _) => *segment,
        RawCall::Unlink(_, object) => *object,
        RawCall::LabelOf(_, object) => *object,
        _ => ObjId::new(0),
    }
}

/// Returns the object that a call would modify.
pub(crate) fn modified_by(call: &RawCall) -> ObjId
    ensures { result ≡ modified_by call.now }
{
    match call {
        RawCall::Write(_, segment, _, _) => *segment,
        _ => container_named(call),
    }
}

/// Returns the object that a call may not observe.
pub(crate) fn observed_by<S: LabelStore + Drop>(
    kernel: &Kernel<S>,
    thread: ObjId,
    call: &RawCall,
) -> ObjId
    ensures { result ≡ observed_by (state kernel.now) thread call.now }
{
    match call {
        RawCall::Read(container, segment) => {
            if observes(kernel, thread, *container) {
                *segment
            } else {
                *container
            }
        }
        _ => container_named(call),
    }
}

/// Checks whether a thread may observe an object.
fn observes<S: LabelStore + Drop>(kernel: &Kernel<S>, thread: ObjId, object: ObjId) -> bool
    ensures { result ≡ observes ((state kernel.now).objects thread) ((state kernel.now).objects object) }
{
    match kernel.label(thread) {
        Some(own) => match kernel.label(object) {
            Some(label) => label.below_raised(own),
            None => false,
        },
        None => false,
    }
}
