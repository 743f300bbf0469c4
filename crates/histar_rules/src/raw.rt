//! The raw calls, and the reasons to refuse them.
use crate::handed::HandedLabel;
use histar_base::Bytes;
use histar_object::{Entry, ObjId};
use std::alloc::{AllocError, AllocFailed};

/// The reason why the kernel refuses a raw call: the first of the call's checks that fails. A refused call
/// changes nothing but the trace.
#[derive(Clone, Copy, Debug, PartialEq, Eq)]
pub enum Denied {
    /// The thread may not observe the container or the object.
    Observe = 1,
    /// The thread may not modify the container or the object.
    Modify = 2,
    /// A label that was handed in lies outside its range, names a category that was never made, or has star
    /// where the object may own nothing.
    Range = 3,
    /// The thread may not enter the gate.
    Gate = 4,
    /// No object has the number, or the container doesn't link it.
    NoEntry = 5,
    /// The caller is no thread.
    NoThread = 6,
    /// The object is of another kind than the call needs.
    BadKind = 7,
    /// The segment would hold more than 4,096 bytes, or a counter has reached its greatest value.
    TooBig = 8,
}

/// A raw call: a call of HiStar's kernel (OSDI 2006), in this kernel's profile. `specs/Rules.antt` contains
/// the rules of all of them.
#[derive(Drop)]
pub enum RawCall {
    /// Makes a category, which the thread owns.
    MakeCategory,
    /// Asks for the thread's own label and clearance.
    OwnLabel,
    /// Gives the thread another label.
    SetLabel(HandedLabel),
    /// Gives the thread another clearance.
    SetClearance(HandedLabel),
    /// Makes a segment in a container, with a label and bytes.
    MakeSegment(ObjId, HandedLabel, Bytes),
    /// Makes a container in a container, with a label.
    MakeContainer(ObjId, HandedLabel),
    /// Makes a thread in a container, with a label and a clearance.
    MakeThread(ObjId, HandedLabel, HandedLabel),
    /// Makes a gate in a container, with a label, a clearance and an entry, which it gives to threads that
    /// enter it.
    MakeGate(ObjId, HandedLabel, HandedLabel, Entry),
    /// Enters a gate that a container links: the label and the clearance that the thread wants, and its
    /// verify label.
    Enter(ObjId, ObjId, HandedLabel, HandedLabel, HandedLabel),
    /// Reads a segment that a container links.
    Read(ObjId, ObjId),
    /// Keeps the first bytes of a segment that a container links, at most this many, and appends new ones.
    Write(ObjId, ObjId, u32, Bytes),
    /// Unlinks an object from a container, and removes it with all that hangs below it.
    Unlink(ObjId, ObjId),
    /// Asks for the label of an object that a container links and that is no thread.
    LabelOf(ObjId, ObjId),
}

/// The reason why a raw call has no answer.
#[derive(Clone, Copy, Debug, PartialEq, Eq)]
pub enum Refusal {
    /// The kernel refuses it, and records the denial in the trace.
    Denied(Denied),
    /// Memory ran out; nothing has changed, not even the trace.
    OutOfMemory,
}

impl From<Denied> for Refusal {
    ghost use Rattle.std.specs.Prelude.{◌≡◌};
    ghost use Rattle.histar_rules.specs.declared.raw.Refusal.TheVariants as refusals;

    ghost from_gives = { λ denied e. e ≡ refusals.Denied denied };

    fn from(denied: Denied) -> Self {
        Refusal::Denied(denied)
    }
}

impl From<AllocError> for Refusal {
    ghost use Rattle.std.specs.Prelude.{◌≡◌};
    ghost use Rattle.histar_rules.specs.declared.raw.Refusal.TheVariants.{OutOfMemory};

    ghost from_gives = { λ _ e. e ≡ OutOfMemory };

    fn from(_error: AllocError) -> Self {
        Refusal::OutOfMemory
    }
}

impl<T: Drop> From<AllocFailed<T>> for Refusal {
    ghost use Rattle.std.specs.Prelude.{◌≡◌};
    ghost use Rattle.histar_rules.specs.declared.raw.Refusal.TheVariants.{OutOfMemory};

    ghost from_gives = { λ _ e. e ≡ OutOfMemory };

    fn from(_error: AllocFailed<T>) -> Self {
        Refusal::OutOfMemory
    }
}
