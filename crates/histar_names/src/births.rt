//! What each category was made for, noted as the calls of a script are made.
ghost use Rattle.std.specs.Prelude.{◌≡◌, ◌≤◌, ◌-◌, ◌++◌, length, option_map, Some, None, OnOk, if◌then◌else◌};
ghost use Rattle.std.specs.Option.{option_copied};
ghost use Rattle.histar_flat.specs.Words.{most_numbers};
ghost use Rattle.histar_syscall.specs.KernelModel.{state};
ghost use Rattle.histar_names.specs.Births.{births_after, births_from, born_with, child_of, last_child, noted};

use crate::purposes::{Purpose, purpose_by};
use histar_flat::{MOST_NUMBERS, ProcName};
use histar_label::{Category, LabelStore};
use histar_layout::read_status;
use histar_programs::{Roots, home_at};
use histar_syscall::Kernel;
use std::alloc::AllocError;

/// Returns the child of a process that has this number, if a name has room for one number more.
fn child_of(process: &ProcName, number: u8) -> Option<ProcName>
    ensures { result ≡ child_of process.now number }
{
    if process.numbers().len() < MOST_NUMBERS {
        Some(process.child(number))
    } else {
        None
    }
}

/// Returns the last child that was born to a process.
fn last_child<S: LabelStore + Drop>(
    kernel: &Kernel<S>,
    roots: &Roots,
    process: &ProcName,
) -> Option<ProcName>
    ensures { result ≡ last_child (state kernel.now) roots.now.home process.now }
{
    let home = home_at(kernel, roots.home, process.numbers())?;
    let head = read_status(kernel.bytes(home.segment))?;
    child_of(process, head.born)
}

/// Returns what a category is for, if it is one of this process's.
fn born_with<S: LabelStore + Drop>(
    kernel: &Kernel<S>,
    roots: &Roots,
    child: &Option<ProcName>,
    category: Category,
) -> Option<Purpose>
    ensures { result ≡ born_with (state kernel.now) roots.now.home child.now category }
{
    let child = (*child)?;
    purpose_by(kernel, roots, category, child.numbers())
}

/// Notes what each category below a number that has no note yet is for, if it is one of this process's.
fn add_births<S: LabelStore + Drop>(
    kernel: &Kernel<S>,
    roots: &Roots,
    births: &mut Vec<Option<Purpose>>,
    next: usize,
    child: &Option<ProcName>,
) -> Result<(), AllocError>
    ensures { OnOk result (births.new.items ≡ births.old.items
        ++ births_from (born_with (state kernel.now) roots.now.home child.now)
        (length births.old.items) (next - length births.old.items)) }
{
    'births: for number in births.len()..next {
        let category = Category::new(number as u64);
        births.push(born_with(kernel, roots, child, category))?;
    }
    Ok(())
}

/// Notes for each category that is new after a call of a process what it is for, if it is one of the last
/// child that was born to that process.
pub fn note_births<S: LabelStore + Drop>(
    kernel: &Kernel<S>,
    roots: &Roots,
    process: &ProcName,
    births: &mut Vec<Option<Purpose>>,
) -> Result<(), AllocError>
    ensures { OnOk result (births.new.items
        ≡ births_after (state kernel.now) roots.now process.now births.old.items) }
{
    let next = kernel.next_category() as usize;
    if next <= births.len() {
        return Ok(());
    }
    let child = last_child(kernel, roots, process);
    add_births(kernel, roots, births, next, &child)
}

/// Returns what was noted of a category.
pub(crate) fn noted(births: &[Option<Purpose>], category: Category) -> Option<Purpose>
    ensures { result ≡ noted births.now category }
{
    *births.get(category.number() as usize)?
}
