//! Whether a line of an attack may be made: tests of labels in the kernel's own table, with no raw
//! call.
ghost use Rattle.std.specs.Prelude.{◌≡◌, ◌&&◌, not};
ghost use Rattle.histar_level.specs.Levels.{level_of};
ghost use Rattle.histar_layout.specs.Jobs.{is_three};
ghost use Rattle.histar_outside.specs.Search.{IsClear, IsClearHome, IsClearWay, IsOutsideCaller};
ghost use Rattle.histar_programs.specs.Caller.{read_category_in};
ghost use Rattle.histar_rules.specs.Visible.{IsTaintedCaller};
ghost use Rattle.histar_syscall.specs.KernelModel.{state};
ghost use Rattle.histar_attack.specs.Confinement.{Decides, IsClearInside, IsFreeThread, is_free};
ghost use Rattle.histar_attack.specs.Confinement.{job_category};

use histar_flat::ProcName;
use histar_label::{Category, Label, LabelStore, Level};
use histar_layout::{is_three, read_status};
use histar_object::ObjId;
use histar_programs::{Home, caller_in, find_caller, home_at};
use histar_syscall::Kernel;

/// Checks whether the thread of a raw call is tainted in a category, if it is a thread.
pub fn is_tainted_caller<S: LabelStore + Drop>(
    kernel: &Kernel<S>,
    category: Category,
    thread: ObjId,
) -> bool
    ensures { Decides result (IsTaintedCaller (state kernel.now) category thread) }
{
    if !kernel.is_thread(thread) {
        return true;
    }
    match kernel.label(thread) {
        Some(own) => is_three(own.get(category)),
        None => true,
    }
}

/// Checks whether what is at a number, if something is, is not tainted.
fn is_clear<S: LabelStore + Drop>(kernel: &Kernel<S>, category: Category, object: ObjId) -> bool
    ensures { Decides result (IsClear (state kernel.now) category object) }
{
    match kernel.label(object) {
        Some(label) => !is_three(label.get(category)),
        None => true,
    }
}

/// Checks whether neither the container nor the segment of a process is tainted.
fn is_clear_home<S: LabelStore + Drop>(kernel: &Kernel<S>, category: Category, home: &Home) -> bool
    ensures { Decides result (IsClearHome (state kernel.now) category home.now) }
{
    is_clear(kernel, category, home.container) && is_clear(kernel, category, home.segment)
}

/// Checks whether no process on the way to a name has a tainted container or a tainted segment.
fn is_clear_way<S: LabelStore + Drop>(
    kernel: &Kernel<S>,
    category: Category,
    first: &Home,
    numbers: &[u8],
) -> bool
    ensures { Decides result (IsClearWay (state kernel.now) category first.now numbers.now) }
{
    let [_, above @ ..] = numbers else {
        return is_clear_home(kernel, category, first);
    };
    if !is_clear_way(kernel, category, first, above) {
        return false;
    }
    match home_at(kernel, *first, numbers) {
        Some(home) => is_clear_home(kernel, category, &home),
        None => true,
    }
}

/// Checks whether the internal container of the process at a place, if it runs, is not tainted.
fn is_clear_inside<S: LabelStore + Drop>(
    kernel: &Kernel<S>,
    category: Category,
    home: &Home,
) -> bool
    ensures { Decides result (IsClearInside (state kernel.now) category home.now) }
{
    let Some(head) = read_status(kernel.bytes(home.segment)) else {
        return true;
    };
    if head.exited.is_some() {
        return true;
    }
    is_clear(kernel, category, head.internal)
}

/// Checks whether a label neither is tainted in a category nor owns it.
fn is_free(own: &Label, category: Category) -> bool
    ensures { result ≡ is_free own.now category }
{
    let level = own.get(category);
    !is_three(level) && !level.is_star()
}

/// Checks whether the thread of the process at a place, if it runs, neither is tainted nor owns the
/// category.
fn is_free_thread<S: LabelStore + Drop>(kernel: &Kernel<S>, category: Category, home: &Home) -> bool
    ensures { Decides result (IsFreeThread (state kernel.now) category home.now) }
{
    let Some(caller) = caller_in(kernel, *home) else {
        return true;
    };
    match kernel.label(caller.thread) {
        Some(own) => is_free(own, category),
        None => true,
    }
}

/// Checks whether the process of a line is outside a category: nothing that the search for it looks
/// at is tainted, and its thread neither is tainted nor owns the category.
pub fn is_outside_caller<S: LabelStore + Drop>(
    kernel: &Kernel<S>,
    category: Category,
    first: &Home,
    process: &ProcName,
) -> bool
    ensures { Decides result (IsOutsideCaller (state kernel.now) category first.now process.now) }
{
    if !is_clear_way(kernel, category, first, process.numbers()) {
        return false;
    }
    match home_at(kernel, *first, process.numbers()) {
        Some(home) => {
            is_clear_inside(kernel, category, &home) && is_free_thread(kernel, category, &home)
        }
        None => true,
    }
}

/// Checks whether a category has level 3, and hasn't in another label.
fn is_own_secret(outer: &Label, category: Category, level: Level) -> bool
    ensures { result ≡ (is_three level && not (is_three (level_of outer.now category))) }
{
    is_three(level) && !is_three(outer.get(category))
}

/// Returns the first category that a label has at 3 and another one doesn't.
fn own_category(outer: &Label, inner: &Label) -> Option<Category>
    ensures { result ≡ read_category_in outer.now inner.now }
{
    let exceptions = inner.exceptions();
    for &(category, level) in exceptions {
        if is_own_secret(outer, category, level) {
            return Some(category);
        }
    }
    None
}

/// Returns the category of a job whose first process has this name, if that runs: its container is
/// tainted in it, and that of the process above isn't.
pub fn job_category<S: LabelStore + Drop>(
    kernel: &Kernel<S>,
    first: &Home,
    job: &ProcName,
) -> Option<Category>
    ensures { result ≡ job_category (state kernel.now) first.now job.now }
{
    let [_, above @ ..] = job.numbers() else {
        return None;
    };
    let caller = find_caller(kernel, *first, job)?;
    let parent = home_at(kernel, *first, above)?;
    let outer = kernel.label(parent.container)?;
    let inner = kernel.label(caller.home.container)?;
    own_category(outer, inner)
}
