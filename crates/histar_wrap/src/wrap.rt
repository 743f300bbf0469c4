//! Wrapping: a new job, with a scratch directory and a first process.
ghost use Rattle.std.specs.Prelude.{◌<◌, ◌≡◌, IfOk, OnErr};
ghost use Rattle.std.specs.FinMap as map;
ghost use Rattle.histar_flat.specs.FlatCalls.{most_entries};
ghost use Rattle.histar_programs.specs.Programs.{Runs};
ghost use Rattle.histar_programs.specs.Refusals.{settled};
ghost use Rattle.histar_layout.specs.StatusParts.{HasRoomForChild};
ghost use Rattle.histar_wrap.specs.Filling.{FillsJob, MakesJob, StartsJob, plan_for, planned};
ghost use Rattle.histar_wrap.specs.Scratch.{jobs_with};
ghost use Rattle.histar_wrap.specs.WrapCall.{wrap_program};

use crate::scratch::{Wrapper, hold_job, make_scratch};
use histar_flat::{Name, Reply};
use histar_heap::Heap;
use histar_label::{Category, Label, LabelStore};
use histar_layout::{UserTable, jobs_in, scratch_label, user_of};
use histar_process::{Inherited, Parent, Segment, give_birth, room_for_child};
use histar_programs::{CallError, Room, Unix, find_room, owned_by};
use histar_syscall::Kernel;
use std::alloc::AllocError;

/// What a job is made of, once its category is made.
#[derive(Drop)]
struct Plan {
    wrapper: Wrapper,
    job: Category,
    /// The label of the scratch directory.
    label: Label,
    /// The categories that the first process owns beside its own two.
    owned: Vec<Category>,
    /// The jobs that the first process is in.
    jobs: Vec<Category>,
}

/// Makes a job: an empty scratch directory at this path, and the job's first process, a child of the
/// caller. This is HiStar's `wrap` (OSDI 2006), by which a user runs a program that may read its files and
/// leak nothing, such as a virus scanner: the process reads by its user's categories but writes by none of
/// them, and what it makes is secret to the job. The caller holds the job, and so reads what the process
/// leaves in the scratch directory.
///
/// EAGAIN where the name has no room for one number more or 64 children were born already. Then it is
/// refused as `mkdir` is: EEXIST for `/`, ENOENT, ENOTDIR and EACCES on the way, EEXIST where something
/// is there, ENOSPC at 64 entries, and EACCES where the directory may not be written. EPERM for
/// nobody, whose categories no thread owns. Where the directory is denied, the thread first gives up the
/// job's category; the call ends without a reply where memory runs out while it does.
pub fn wrap<H: Heap, S: LabelStore + Drop>(
    heap: H,
    kernel: &mut Kernel<S>,
    unix: &Unix,
    path: &[Name],
) -> Result<Reply, CallError>
    ensures { let caller = unix.now.caller.now in Runs H.Refused
        (wrap_program unix.now.users.now unix.now.roots.now unix.now.process.now caller.home path.now)
        kernel.old kernel.new caller.thread (settled result) }
{
    let (name, home, thread) = (unix.process, &unix.caller.home, unix.caller.thread);
    let Segment { head, bytes } = room_for_child(heap, kernel, thread, name, home)?;
    make_job(heap, kernel, unix, path, bytes.as_slice())?;
    Ok(Reply::Child(name.child(head.born + 1)))
}

/// Makes a job of a caller whose segment has these bytes, with its scratch directory at a path. It is refused as
/// `mkdir` is where the path has no room for an entry.
fn make_job<H: Heap, S: LabelStore + Drop>(
    heap: H,
    kernel: &mut Kernel<S>,
    unix: &Unix,
    path: &[Name],
    bytes: &[u8],
) -> Result<(), CallError>
    requires { HasRoomForChild bytes.now }
    ensures { MakesJob H.Refused unix.now path.now bytes.now kernel.old kernel.new result }
{
    let room = find_room(heap, kernel, unix.roots, unix.caller.thread, path)?;
    start_job(heap, kernel, unix, bytes, room)
}

/// Makes a new job of a caller whose segment has these bytes, with its scratch directory in a directory that
/// has room for it.
fn start_job<H: Heap, S: LabelStore + Drop>(
    heap: H,
    kernel: &mut Kernel<S>,
    unix: &Unix,
    bytes: &[u8],
    room: Room,
) -> Result<(), CallError>
    requires entries { map.len room.entries < most_entries }
    requires child { HasRoomForChild bytes.now }
    ensures { StartsJob H.Refused unix.now.users.now unix.now.caller.now.home bytes.now room
        kernel.old kernel.new unix.now.caller.now.thread result }
{
    let (home, thread) = (&unix.caller.home, unix.caller.thread);
    let (own, clearance) = kernel.own_label(heap, thread)?;
    let job = kernel.make_category(heap, thread)?;
    let wrapper = Wrapper {
        thread,
        own,
        clearance,
    };
    let plan = plan_job(heap, unix.users, wrapper, job)?;
    fill_job(heap, kernel, &Parent { home, bytes }, room, plan)
}

/// Plans the job of this category.
fn plan_job<H: Heap>(
    heap: H,
    users: &UserTable,
    wrapper: Wrapper,
    job: Category,
) -> Result<Plan, AllocError>
    ensures plan { IfOk result
        (λ plan. planned plan ≡ plan_for users.now (wrapper.own, wrapper.clearance) job) }
    ensures thread { IfOk result (λ plan. plan.wrapper.thread ≡ wrapper.thread) }
    ensures memory { OnErr result H.Refused }
{
    let user = user_of(&wrapper.own, users);
    let jobs = jobs_with(heap, &wrapper.own, job)?;
    let label = scratch_label(heap, user, jobs.as_slice())?;
    let owned = owned_by(heap, users, user, false)?;
    Ok(Plan {
        wrapper,
        job,
        label,
        owned,
        jobs,
    })
}

/// Makes the scratch directory of a job and its first process, a child of the wrapper's process, and lets the
/// wrapper hold the job.
fn fill_job<H: Heap, S: LabelStore + Drop>(
    heap: H,
    kernel: &mut Kernel<S>,
    parent: &Parent,
    room: Room,
    plan: Plan,
) -> Result<(), CallError>
    requires entries { map.len room.entries < most_entries }
    requires child { HasRoomForChild parent.now.bytes.now }
    ensures { FillsJob H.Refused parent.now.home.now parent.now.bytes.now room (planned plan)
        kernel.old kernel.new plan.wrapper.thread result }
{
    let Plan {
        wrapper,
        job,
        label,
        owned,
        jobs,
    } = plan;
    make_scratch(heap, kernel, &wrapper, label, room)?;
    let inherited = Inherited {
        owned: owned.as_slice(),
        jobs: jobs.as_slice(),
    };
    give_birth(heap, kernel, wrapper.thread, parent, &inherited)?;
    hold_job(heap, kernel, &wrapper, job)
}

// Returns the jobs that a thread of this label is in, and one more.
fn jobs_with<H: Heap>(heap: H, own: &Label, job: Category) -> Result<Vec<Category>, AllocError>
    ensures ok { IfOk result (λ jobs. jobs.items ≡ jobs_with own.now job) }
    ensures memory { OnErr result H.Refused }
{
    let mut jobs = jobs_in(heap, own)?;
    heap.push(&mut jobs, job)?;
    Ok(jobs)
}
