//! The action that a denied call tried, and its obstacle where no label decides.
ghost use Rattle.std.specs.Prelude.{◌≡◌, ◌+◌};
ghost use Rattle.histar_syscall.specs.KernelModel.{state};
ghost use Rattle.histar_object.specs.Objects.{is_present, is_container};
ghost use Rattle.histar_explain.specs.Obstacles.{act_of, bytes_after, excess, obstacle_of, whole_act, wrong_kind};

use crate::explanations::{Act, Obstacle};
use crate::named::{container_named, modified_by, object_named, observed_by};
use histar_label::LabelStore;
use histar_object::ObjId;
use histar_rules::{Denied, RawCall};
use histar_syscall::{Kernel, ObjectKind};

/// The greatest number of bytes that a segment has.
const SEGMENT_BYTES: usize = 4096;

/// Returns the action of a call as a whole.
fn whole_act(call: &RawCall) -> Act
    ensures { result ≡ whole_act call.now }
{
    match call {
        RawCall::MakeCategory => Act::MakeCategory,
        RawCall::SetLabel(_) => Act::TakeLabel,
        RawCall::SetClearance(_) => Act::TakeClearance,
        RawCall::MakeSegment(_, _, _) => Act::MakeSegment,
        RawCall::MakeContainer(_, _) => Act::MakeContainer,
        RawCall::MakeThread(_, _, _) => Act::MakeThread,
        RawCall::MakeGate(_, _, _, _) => Act::MakeGate,
        RawCall::Enter(_, gate, _, _, _) => Act::EnterWith(*gate),
        RawCall::Write(_, segment, _, _) => Act::Write(*segment),
        _ => Act::Call,
    }
}

/// Returns the action that a denied call tried.
pub(crate) fn act_of<S: LabelStore + Drop>(
    kernel: &Kernel<S>,
    thread: ObjId,
    call: &RawCall,
    denied: Denied,
) -> Act
    ensures { result ≡ act_of (state kernel.now) thread call.now denied }
{
    let container = container_named(call);
    match denied {
        Denied::Observe => Act::Observe(observed_by(kernel, thread, call)),
        Denied::Modify => Act::Modify(modified_by(call)),
        Denied::Range | Denied::TooBig => whole_act(call),
        Denied::Gate => Act::Enter(object_named(call)),
        Denied::NoEntry => {
            if is_present(kernel, container) {
                Act::Use(object_named(call))
            } else {
                Act::Use(container)
            }
        }
        Denied::NoThread => Act::Call,
        Denied::BadKind => {
            if is_container(kernel, container) {
                Act::Use(object_named(call))
            } else {
                Act::Use(container)
            }
        }
    }
}

/// Checks whether there is an object of this number.
fn is_present<S: LabelStore + Drop>(kernel: &Kernel<S>, object: ObjId) -> bool
    ensures { result ≡ is_present ((state kernel.now).objects object) }
{
    kernel.kind(object).is_some()
}

/// Checks whether there is a container of this number.
fn is_container<S: LabelStore + Drop>(kernel: &Kernel<S>, object: ObjId) -> bool
    ensures { result ≡ is_container ((state kernel.now).objects object) }
{
    kernel.kind(object) == Some(ObjectKind::Container)
}

/// Returns the obstacle of a call that names an object of a wrong kind in its container.
fn wrong_kind(call: &RawCall) -> Obstacle
    ensures { result ≡ wrong_kind call.now }
{
    match call {
        RawCall::Enter(_, _, _, _, _) => Obstacle::NoGate,
        RawCall::LabelOf(_, _) => Obstacle::IsThread,
        _ => Obstacle::NoSegment,
    }
}

/// Returns how many bytes of a segment a call keeps, and how many it adds.
fn bytes_after<S: LabelStore + Drop>(kernel: &Kernel<S>, call: &RawCall) -> (usize, usize)
    ensures { result.0 + result.1 ≡ bytes_after (state kernel.now) call.now }
{
    match call {
        RawCall::MakeSegment(_, _, bytes) => (0, bytes.len()),
        RawCall::Write(_, segment, keep, bytes) => (
            (*keep as usize).min(kernel.size(*segment)),
            bytes.len(),
        ),
        _ => (0, 0),
    }
}

/// Returns the obstacle of a denied call, where no label decides.
pub(crate) fn obstacle_of<S: LabelStore + Drop>(
    kernel: &Kernel<S>,
    call: &RawCall,
    denied: Denied,
) -> Option<Obstacle>
    ensures { result ≡ obstacle_of (state kernel.now) call.now denied }
{
    let container = container_named(call);
    match denied {
        Denied::Observe | Denied::Modify | Denied::Range | Denied::Gate => None,
        Denied::NoThread => Some(Obstacle::NoThread),
        Denied::NoEntry => Some(if is_present(kernel, container) {
            Obstacle::NotLinked(container)
        } else {
            Obstacle::NoObject
        }),
        Denied::BadKind => Some(if is_container(kernel, container) {
            wrong_kind(call)
        } else {
            Obstacle::NoContainer
        }),
        Denied::TooBig => {
            let (kept, added) = bytes_after(kernel, call);
            Some(excess(kept, added))
        }
    }
}

/// Returns the obstacle of a call that keeps and adds these many bytes: their number, or that no number is
/// left.
fn excess(kept: usize, added: usize) -> Obstacle
    ensures { result ≡ excess (kept + added) }
{
    let bytes = kept.saturating_add(added);
    if bytes <= SEGMENT_BYTES {
        Obstacle::NoNumber
    } else {
        Obstacle::TooLong(bytes)
    }
}
