//! Logging in, by raw calls of the thread that logs in.
ghost use Rattle.std.specs.Prelude.{◌≡◌, IfOk, OnErr};
ghost use Rattle.std.specs.Str.{bytes_eq};
ghost use Rattle.histar_label.specs.Levels.{with_level};
ghost use Rattle.histar_rules.specs.Sound.{root_number};
ghost use Rattle.histar_programs.specs.Parts.{ask};
ghost use Rattle.histar_programs.specs.Programs.{Runs, RunsPart};
ghost use Rattle.histar_programs.specs.Refusals.{settled};
ghost use Rattle.histar_login.specs.Login.{AreEntryLabels, ask_password};
ghost use Rattle.histar_programs.specs.Users.{user_label, user_clearance, gate_of, password_of};
ghost use Rattle.histar_login.specs.Login.{entering, label_if, clearance_if, take_due, reply_if, login_program, login_as_program};

use crate::gates::{Given, given_by};
use histar_flat::{Errno, Name, Password, Reply};
use histar_heap::Heap;
use histar_label::{Label, LabelStore, Level};
use histar_layout::owners_of;
use histar_object::{Entry, ObjId};
use histar_programs::{CallError, Caller, Unix};
use histar_rules::ROOT;
use histar_syscall::{HandedLabels, Kernel};
use std::alloc::AllocError;

/// Returns the label and the clearance of a process's thread as a user whose gate gives this: it owns what the
/// gate gives, and the process's own categories.
fn user_labels<H: Heap>(
    heap: H,
    caller: &Caller,
    given: Given,
) -> Result<(Label, Label), AllocError>
    ensures ok { IfOk result (λ own. (own.0 ≡ user_label caller.now given.entry.owners.now)
        × (own.1 ≡ user_clearance caller.now given.entry.owners.now)) }
    ensures memory { OnErr result H.Refused }
{
    let Given {
        label,
        clearance,
        ..
    } = given;
    let label = with_own(heap, label, Level::Star, caller)?;
    let clearance = with_own(heap, clearance, Level::L3, caller)?;
    Ok((label, clearance))
}

/// Sets one level at both categories of a process. They were made after those of users, so this is quick.
fn with_own<H: Heap>(
    heap: H,
    label: Label,
    level: Level,
    caller: &Caller,
) -> Result<Label, AllocError>
    ensures ok { IfOk result (λ made. made ≡
        with_level (with_level label caller.now.read level) caller.now.write level) }
    ensures memory { OnErr result H.Refused }
{
    let mut label = label;
    label.set(heap, caller.read, level)?;
    label.set(heap, caller.write, level)?;
    Ok(label)
}

/// Returns the segment with a user's password.
fn password_segment(number: u8) -> ObjId
    ensures { result ≡ password_of number }
{
    ObjId::new(1 + 2 * u64::from(number))
}

/// Makes the label and the clearance that a thread wants behind the gate of a user: it wants all that it owns
/// and all that the gate gives.
fn entry_labels<H: Heap>(
    heap: H,
    given: &Given,
    own: &(Label, Label),
) -> Result<(Label, Label), AllocError>
    ensures ok { IfOk result (AreEntryLabels given.now.owners.now own.now) }
    ensures memory { OnErr result H.Refused }
{
    let wanted = own.0.floor(heap, &given.label)?;
    let clearance = own.1.join(heap, &given.clearance)?;
    Ok((wanted, clearance))
}

/// Enters the gate of a user with all that the thread owns and all that the gate gives. EACCES where
/// the gate doesn't let it in.
fn enter_gate<H: Heap, S: LabelStore + Drop>(
    heap: H,
    kernel: &mut Kernel<S>,
    thread: ObjId,
    number: u8,
    given: &Given,
    own: &(Label, Label),
) -> Result<Entry, CallError>
    ensures { RunsPart H.Refused (ask (entering given.now.owners.now number own.now.0 own.now.1))
        kernel.old kernel.new thread result }
{
    let (wanted, clearance) = entry_labels(heap, given, own)?;
    let gate = ObjId::new(2 + 2 * u64::from(number));
    let labels = HandedLabels {
        wanted: &wanted,
        clearance: &clearance,
        verify: &own.0,
    };
    let entry = kernel.enter(heap, thread, ObjId::new(ROOT), gate, labels)?;
    Ok(entry)
}

/// Checks whether this is the password of a user, which is read in place.
fn ask_password<H: Heap, S: LabelStore + Drop>(
    heap: H,
    kernel: &mut Kernel<S>,
    thread: ObjId,
    number: u8,
    password: Password,
) -> Result<bool, CallError>
    ensures { RunsPart H.Refused (ask_password number password) kernel.old kernel.new thread
        result }
{
    let kept = kernel.read(heap, thread, ObjId::new(ROOT), password_segment(number))?;
    Ok(is_password(kept, password))
}

/// Returns the label and the clearance that a thread takes after entering the gate: the user's where the
/// password is right, and else its own again.
fn due_labels<H: Heap>(
    heap: H,
    right: bool,
    caller: &Caller,
    given: Given,
    own: (Label, Label),
) -> Result<(Label, Label), AllocError>
    ensures ok { IfOk result (λ due.
        (due.0 ≡ label_if right caller.now given.entry.owners.now own.0)
        × (due.1 ≡ clearance_if right caller.now given.entry.owners.now own.1)) }
    ensures memory { OnErr result H.Refused }
{
    if right {
        return user_labels(heap, caller, given);
    }
    Ok(own)
}

/// Gives the thread the label and the clearance that are expected: the user's, or its own again.
fn take_due<H: Heap, S: LabelStore + Drop>(
    heap: H,
    kernel: &mut Kernel<S>,
    right: bool,
    caller: &Caller,
    given: Given,
    own: (Label, Label),
) -> Result<(), CallError>
    ensures { RunsPart H.Refused (take_due right caller.now given.entry.owners.now own)
        kernel.old kernel.new caller.now.thread result }
{
    let (label, clearance) = due_labels(heap, right, caller, given, own)?;
    kernel.set_label(heap, caller.thread, label)?;
    kernel.set_clearance(heap, caller.thread, clearance)?;
    Ok(())
}

/// Returns the reply after the gate was entered.
fn reply_if(right: bool) -> Reply
    ensures { result ≡ reply_if right }
{
    if right {
        return Reply::Done;
    }
    Reply::Refused(Errno::EAUTH)
}

/// Checks whether these bytes are the password.
fn is_password(kept: &[u8], password: Password) -> bool
    ensures { result ≡ bytes_eq kept.now password }
{
    kept == password.as_bytes()
}

/// Gives the thread of a process the label and the clearance of a user, by the user's password: ENOENT
/// where no user has the name, EACCES where the user's gate doesn't let the thread in, EAUTH where the
/// password is another; the thread then has its own label and clearance again. After a login the thread
/// owns the categories of the user and of its groups, those of no other user, and is in no job.
pub fn login<H: Heap, S: LabelStore + Drop>(
    heap: H,
    kernel: &mut Kernel<S>,
    unix: &Unix,
    name: Name,
    password: Password,
) -> Result<Reply, CallError>
    ensures { Runs H.Refused (login_program unix.now.users.now unix.now.caller.now name password)
        kernel.old kernel.new unix.now.caller.now.thread (settled result) }
{
    let Some(number) = unix.users.number_of(name) else {
        return Ok(Reply::Refused(Errno::ENOENT));
    };
    let owners = owners_of(heap, unix.users, number, name)?;
    let given = given_by(heap, owners.as_slice())?;
    login_as(heap, kernel, unix.caller, number, given, password)
}

/// Logs in as the user of this number, whose gate gives this.
fn login_as<H: Heap, S: LabelStore + Drop>(
    heap: H,
    kernel: &mut Kernel<S>,
    caller: &Caller,
    number: u8,
    given: Given,
    password: Password,
) -> Result<Reply, CallError>
    ensures { Runs H.Refused (login_as_program caller.now number given.entry.owners.now password)
        kernel.old kernel.new caller.now.thread (settled result) }
{
    let thread = caller.thread;
    let own = kernel.own_label(heap, thread)?;
    enter_gate(heap, kernel, thread, number, &given, &own)?;
    let right = ask_password(heap, kernel, thread, number, password)?;
    take_due(heap, kernel, right, caller, given, own)?;
    Ok(reply_if(right))
}
