//! The objects of a child.
ghost use Rattle.std.specs.Prelude.{◌≡◌, [], ◌∷◌, ◌++◌, ◌<◌, Some, IfOk, OnErr};
ghost use Rattle.histar_rules.specs.declared.raw.RawCall.TheVariants as calls;
ghost use Rattle.histar_layout.specs.Status.{started, status_bytes};
ghost use Rattle.histar_layout.specs.StatusParts.{HasRoomForChild};
ghost use Rattle.histar_level.specs.declared.level.Level.TheVariants.{L3};
ghost use Rattle.histar_layout.specs.Labelling.{guarded_by, owner_label, cleared_at, each_at, labelled};
ghost use Rattle.histar_programs.specs.Parts.{ask};
ghost use Rattle.histar_programs.specs.Programs.{RunsPart};
ghost use Rattle.histar_process.specs.Births.{MakesObjects, RunsBirth, kin_of_newborn, make_body};
ghost use Rattle.histar_process.specs.Births.{make_categories, make_containers, make_segment, make_thread};

use crate::find::{Parent, write_segment};
use histar_heap::Heap;
use histar_label::{Category, Label, LabelStore, Level};
use histar_layout::{add_child, first_status, guarded_by, set_each};
use histar_object::ObjId;
use histar_programs::CallError;
use histar_syscall::Kernel;
use std::alloc::AllocError;

/// What a child gets from its parent.
#[derive(Clone, Copy)]
pub struct Inherited<'a> {
    /// The categories that it owns beside its own two.
    pub owned: &'a [Category],
    /// The jobs that it is in.
    pub jobs: &'a [Category],
}

/// A child that is being born, from when its categories are made.
#[derive(Clone, Copy)]
struct Newborn<'a> {
    /// The category by which it keeps its secrets.
    read: Category,
    /// The category by which it alone writes its objects.
    write: Category,
    owned: &'a [Category],
    jobs: &'a [Category],
}

/// The objects of a child that are made before its process segment.
#[derive(Clone, Copy)]
struct Body {
    container: ObjId,
    /// Its internal container, which is secret to it.
    internal: ObjId,
    thread: ObjId,
}

/// Who may read and write a new object.
#[derive(Clone, Copy)]
struct Guard<'a> {
    /// The categories of the child in which it is secret.
    own: &'a [Category],
    /// The jobs in whose categories it is secret.
    jobs: &'a [Category],
    /// The category whose owner alone may write it.
    write: Category,
}

/// Makes a child of the process whose segment was read: the child owns its two categories and those that
/// it gets, and is in the jobs that it gets. Its objects are made, and it is added to the segment of its
/// parent.
pub fn give_birth<H: Heap, S: LabelStore + Drop>(
    heap: H,
    kernel: &mut Kernel<S>,
    thread: ObjId,
    parent: &Parent,
    inherited: &Inherited,
) -> Result<(), CallError>
    requires { HasRoomForChild parent.now.bytes.now }
    ensures { RunsBirth H.Refused parent.now.home.now parent.now.bytes.now inherited.now.owned.now
        inherited.now.jobs.now kernel.old kernel.new thread result }
{
    let Inherited { owned, jobs } = *inherited;
    let (read, write) = make_categories(heap, kernel, thread)?;
    let newborn = Newborn {
        read,
        write,
        owned,
        jobs,
    };
    make_objects(heap, kernel, thread, parent, &newborn)
}

/// Makes the objects of a child, and adds it to the segment of its parent.
fn make_objects<H: Heap, S: LabelStore + Drop>(
    heap: H,
    kernel: &mut Kernel<S>,
    thread: ObjId,
    parent: &Parent,
    newborn: &Newborn,
) -> Result<(), CallError>
    requires { HasRoomForChild parent.now.bytes.now }
    ensures { MakesObjects H.Refused parent.now.home.now parent.now.bytes.now (kin_of_newborn newborn.now)
        (newborn.now.read, newborn.now.write) kernel.old kernel.new thread result }
{
    let body = make_body(heap, kernel, thread, parent.home.container, newborn)?;
    let segment = make_segment(heap, kernel, thread, newborn, &body)?;
    let grown = add_child(heap, parent.bytes, body.container, segment)?;
    write_segment(heap, kernel, thread, parent.home, grown)
}

/// Makes the two containers and the thread of a child.
fn make_body<H: Heap, S: LabelStore + Drop>(
    heap: H,
    kernel: &mut Kernel<S>,
    thread: ObjId,
    parent: ObjId,
    newborn: &Newborn,
) -> Result<Body, CallError>
    ensures { RunsPart H.Refused (make_body parent (kin_of_newborn newborn.now)
        (newborn.now.read, newborn.now.write)) kernel.old kernel.new thread result }
{
    let (container, internal) = make_containers(heap, kernel, thread, parent, newborn)?;
    let child = make_thread(heap, kernel, thread, internal, newborn)?;
    Ok(Body {
        container,
        internal,
        thread: child,
    })
}

/// Makes the two categories of a child.
fn make_categories<H: Heap, S: LabelStore + Drop>(
    heap: H,
    kernel: &mut Kernel<S>,
    thread: ObjId,
) -> Result<(Category, Category), CallError>
    ensures { RunsPart H.Refused make_categories kernel.old kernel.new thread result }
{
    let read = kernel.make_category(heap, thread)?;
    let write = kernel.make_category(heap, thread)?;
    Ok((read, write))
}

/// Makes the container of a child in that of its parent, and the child's internal container in it.
fn make_containers<H: Heap, S: LabelStore + Drop>(
    heap: H,
    kernel: &mut Kernel<S>,
    thread: ObjId,
    parent: ObjId,
    newborn: &Newborn,
) -> Result<(ObjId, ObjId), CallError>
    ensures { RunsPart H.Refused (make_containers parent newborn.now.jobs.now newborn.now.read
        newborn.now.write) kernel.old kernel.new thread result }
{
    let Newborn {
        read,
        write,
        jobs,
        ..
    } = *newborn;
    let outer = Guard {
        own: &[],
        jobs,
        write,
    };
    let container = make_guarded(heap, kernel, thread, parent, &outer)?;
    let inner = Guard {
        own: &[read],
        jobs,
        write,
    };
    let internal = make_guarded(heap, kernel, thread, container, &inner)?;
    Ok((container, internal))
}

/// Makes a container that this guards.
fn make_guarded<H: Heap, S: LabelStore + Drop>(
    heap: H,
    kernel: &mut Kernel<S>,
    thread: ObjId,
    container: ObjId,
    guard: &Guard,
) -> Result<ObjId, CallError>
    ensures { RunsPart H.Refused (ask (calls.MakeContainer container
        (guarded_by (guard.now.own.now ++ guard.now.jobs.now) (guard.now.write ∷ []))))
        kernel.old kernel.new thread result }
{
    let label = guarding_label(heap, guard)?;
    let made = kernel.make_container(heap, thread, container, label)?;
    Ok(made)
}

/// Makes the label of an object that this guards.
fn guarding_label<H: Heap>(heap: H, guard: &Guard) -> Result<Label, AllocError>
    ensures ok { IfOk result (λ label. label ≡
        guarded_by (guard.now.own.now ++ guard.now.jobs.now) (guard.now.write ∷ [])) }
    ensures memory { OnErr result H.Refused }
{
    let Guard { own, jobs, write } = *guard;
    let room = own.len().saturating_add(jobs.len()).saturating_add(1);
    let mut label = Label::with_room(heap, Level::L1, room)?;
    set_each(heap, &mut label, Level::L3, own)?;
    set_each(heap, &mut label, Level::L3, jobs)?;
    label.set(heap, write, Level::L0)?;
    Ok(label)
}

/// Makes the thread of a child in its internal container.
fn make_thread<H: Heap, S: LabelStore + Drop>(
    heap: H,
    kernel: &mut Kernel<S>,
    thread: ObjId,
    internal: ObjId,
    newborn: &Newborn,
) -> Result<ObjId, CallError>
    ensures { let child = newborn.now in
        RunsPart H.Refused (make_thread internal child.owned.now child.jobs.now child.read child.write)
        kernel.old kernel.new thread result }
{
    let (label, clearance) = thread_labels(heap, newborn)?;
    let made = kernel.make_thread(heap, thread, internal, label, clearance)?;
    Ok(made)
}

/// Makes the label and the clearance of the thread of a child.
fn thread_labels<H: Heap>(heap: H, newborn: &Newborn) -> Result<(Label, Label), AllocError>
    ensures label { let child = newborn.now in
        IfOk result (λ made. made.0 ≡ owner_label (child.read ∷ child.write ∷ child.owned.now) child.jobs.now) }
    ensures clearance { let child = newborn.now in
        IfOk result (λ made. made.1 ≡ cleared_at ((child.read ∷ child.write ∷ child.owned.now)
        ++ child.jobs.now)) }
    ensures memory { OnErr result H.Refused }
{
    let label = label_at(heap, Level::L1, Level::Star, newborn)?;
    let clearance = label_at(heap, Level::L2, Level::L3, newborn)?;
    Ok((label, clearance))
}

/// Makes the label with one level at the categories that a child owns, 3 at those of its jobs, and another level at
/// all others. The categories of its user were made before its own, so its exceptions are set in rising order.
fn label_at<H: Heap>(
    heap: H,
    default: Level,
    level: Level,
    newborn: &Newborn,
) -> Result<Label, AllocError>
    ensures ok { let child = newborn.now in IfOk result (λ label. label ≡ labelled
        (each_at level (child.read ∷ child.write ∷ child.owned.now) ++ each_at L3 child.jobs.now) default) }
    ensures memory { OnErr result H.Refused }
{
    let Newborn {
        read,
        write,
        owned,
        jobs,
    } = *newborn;
    let room = owned.len().saturating_add(jobs.len()).saturating_add(2);
    let mut label = Label::with_room(heap, default, room)?;
    set_each(heap, &mut label, level, owned)?;
    label.set(heap, read, level)?;
    label.set(heap, write, level)?;
    set_each(heap, &mut label, Level::L3, jobs)?;
    Ok(label)
}

/// Makes the process segment of a child in its container.
fn make_segment<H: Heap, S: LabelStore + Drop>(
    heap: H,
    kernel: &mut Kernel<S>,
    thread: ObjId,
    newborn: &Newborn,
    body: &Body,
) -> Result<ObjId, CallError>
    ensures { RunsPart H.Refused
        (make_segment body.now.container newborn.now.jobs.now newborn.now.write body.now.internal body.now.thread)
        kernel.old kernel.new thread result }
{
    let label = guarded_by(heap, newborn.jobs, &[newborn.write])?;
    let bytes = first_status(heap, body.internal, body.thread)?;
    let made = kernel.make_segment(heap, thread, body.container, label, bytes)?;
    Ok(made)
}
