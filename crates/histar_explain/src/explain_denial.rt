//! Explaining a denied raw call.
ghost use Rattle.std.specs.Prelude.{◌≡◌, IfOk};
ghost use Rattle.std.specs.List.{AllZip};
ghost use Rattle.histar_level.specs.declared.level.Level.TheVariants.{L1};
ghost use Rattle.histar_label.specs.Levels.{constant};
ghost use Rattle.histar_syscall.specs.KernelModel.{state};
ghost use Rattle.histar_explain.specs.Named.{clearance_in, label_in};
ghost use Rattle.histar_explain.specs.Tests.{entering, ranging, tests, IsReasonOf};
ghost use Rattle.histar_explain.specs.Explanations.{ExplainsDenial};

use crate::explanations::Explanation;
use crate::named::{clearance_in, label_in, modified_by, observed_by};
use crate::obstacles::{act_of, obstacle_of};
use crate::reasons::{Party, Reason};
use crate::test_reasons::{
    Opening, clear_reasons, gate_reasons, modify_reasons, observe_reasons, opening_reasons,
    range_reasons, span_reasons, unowning_reasons,
};
use crate::unmade::unmade;
use histar_label::{Label, LabelStore, Level, OutOfMemory};
use histar_object::ObjId;
use histar_rules::{Denied, RawCall};
use histar_syscall::Kernel;
use std::alloc::Global;

/// Explains why a raw call is denied in the state of a kernel: what it tried, the categories of its labels
/// that were never made, and each test of labels with the categories at which it fails, or the obstacle in
/// its way.
///
/// A denied call leaves the state as it was, so this may be called right after the kernel denied the call.
pub fn explain<S: LabelStore + Drop>(
    alloc: Global,
    kernel: &Kernel<S>,
    thread: ObjId,
    call: &RawCall,
    denied: Denied,
) -> Result<Explanation, OutOfMemory>
    ensures { IfOk result (ExplainsDenial (state kernel.now) thread call.now denied) }
{
    let ones = Label::new(alloc, Level::L1);
    Ok(Explanation {
        act: act_of(kernel, thread, call, denied),
        unmade: unmade(alloc, kernel.next_category(), call, denied, &ones)?,
        reasons: reasons(alloc, kernel, thread, call, denied)?,
        obstacle: obstacle_of(kernel, call, denied),
    })
}

/// Lists a reason for each test of a denial.
fn reasons<S: LabelStore + Drop>(
    alloc: Global,
    kernel: &Kernel<S>,
    thread: ObjId,
    call: &RawCall,
    denied: Denied,
) -> Result<Vec<Reason>, OutOfMemory>
    ensures { IfOk result (λ reasons. AllZip IsReasonOf
        (tests (state kernel.now) thread call.now denied) reasons.items) }
{
    let ones = Label::new(alloc, Level::L1);
    let own = label_in(kernel, thread, &ones);
    match denied {
        Denied::Observe => {
            let object = label_in(kernel, observed_by(kernel, thread, call), &ones);
            observe_reasons(alloc, own, object)
        }
        Denied::Modify => {
            let object = label_in(kernel, modified_by(call), &ones);
            modify_reasons(alloc, own, object)
        }
        Denied::Gate => entry_reasons(alloc, kernel, own, call, &ones),
        Denied::Range => all_range_reasons(alloc, kernel, thread, call, &ones),
        Denied::NoEntry | Denied::NoThread | Denied::BadKind | Denied::TooBig => {
            Ok(Vec::new(alloc))
        }
    }
}

/// Lists a reason for each test of a call that enters a gate.
fn entry_reasons<S: LabelStore + Drop>(
    alloc: Global,
    kernel: &Kernel<S>,
    own: &Label,
    call: &RawCall,
    ones: &Label,
) -> Result<Vec<Reason>, OutOfMemory>
    requires { ones.now ≡ constant L1 }
    ensures { IfOk result (λ reasons. AllZip IsReasonOf
        (entering own.now (state kernel.now) call.now) reasons.items) }
{
    match call {
        RawCall::Enter(_, gate, _, _, verify) => {
            let gate_clearance = clearance_in(kernel, *gate, ones);
            gate_reasons(alloc, own, gate_clearance, verify.label())
        }
        _ => Ok(Vec::new(alloc)),
    }
}

/// Lists a reason for each test of the labels that a call is given.
fn all_range_reasons<S: LabelStore + Drop>(
    alloc: Global,
    kernel: &Kernel<S>,
    thread: ObjId,
    call: &RawCall,
    ones: &Label,
) -> Result<Vec<Reason>, OutOfMemory>
    requires { ones.now ≡ constant L1 }
    ensures { IfOk result (λ reasons. AllZip IsReasonOf
        (ranging (label_in (state kernel.now) thread) (state kernel.now) thread call.now) reasons.items) }
{
    let own = label_in(kernel, thread, ones);
    let own_clearance = clearance_in(kernel, thread, ones);
    match call {
        RawCall::SetLabel(label) => range_reasons(alloc, own, label.label(), own_clearance),
        RawCall::SetClearance(clearance) => {
            clear_reasons(alloc, own, clearance.label(), own_clearance)
        }
        RawCall::MakeSegment(_, label, _) => {
            unowning_reasons(alloc, Party::AnySegment, own, label.label(), own_clearance)
        }
        RawCall::MakeContainer(_, label) => {
            unowning_reasons(
                alloc,
                Party::AnyContainer,
                own,
                label.label(),
                own_clearance,
            )
        }
        RawCall::MakeThread(_, label, clearance) => {
            span_reasons(alloc, own, label.label(), clearance.label(), own_clearance)
        }
        RawCall::MakeGate(_, label, clearance, _) => {
            span_reasons(alloc, own, label.label(), clearance.label(), own_clearance)
        }
        RawCall::Enter(_, gate, wanted, clearance, _) => {
            let opening = opening_of(kernel, thread, *gate, ones);
            opening_reasons(alloc, opening, wanted.label(), clearance.label())
        }
        _ => Ok(Vec::new(alloc)),
    }
}

/// Returns the labels of a thread and of a gate.
fn opening_of<'k, S: LabelStore + Drop>(
    kernel: &'k Kernel<S>,
    thread: ObjId,
    gate: ObjId,
    ones: &'k Label,
) -> Opening<'k>
    requires { ones.now ≡ constant L1 }
    ensures own { result.own.now ≡ label_in (state kernel.now) thread }
    ensures own_clearance { result.own_clearance.now ≡ clearance_in (state kernel.now) thread }
    ensures gate_label { result.gate_label.now ≡ label_in (state kernel.now) gate }
    ensures gate_clearance { result.gate_clearance.now ≡ clearance_in (state kernel.now) gate }
{
    Opening {
        own: label_in(kernel, thread, ones),
        own_clearance: clearance_in(kernel, thread, ones),
        gate_label: label_in(kernel, gate, ones),
        gate_clearance: clearance_in(kernel, gate, ones),
    }
}
