//! What a category is for.
ghost use Rattle.std.specs.Prelude.{◌≡◌, ◌+◌, ◌≤◌, length};
ghost use Rattle.std.specs.Option.{option_copied};
ghost use Rattle.histar_flat.specs.Words.{most_numbers};
ghost use Rattle.histar_flat.specs.Accounts.{most_groups, most_users};
ghost use Rattle.histar_programs.specs.Start.{declared};
ghost use Rattle.histar_syscall.specs.KernelModel.{state};
ghost use Rattle.histar_names.specs.Births.{purpose_of};
ghost use Rattle.histar_names.specs.Purposes.{boot_purpose, first_purpose, has_three, has_zero, inner_label, job_by};
ghost use Rattle.histar_names.specs.Purposes.{outer_label, pair_purpose, purpose_by};

use crate::births::noted;
use crate::homes::name_of;
use crate::names::Names;
use histar_flat::ProcName;
use histar_label::{Category, Label, LabelStore, Level};
use histar_layout::{UserTable, is_three, read_status};
use histar_programs::{Roots, home_at};
use histar_syscall::Kernel;

/// What a category is for.
#[derive(Clone, Copy)]
pub enum Purpose {
    /// It was made before boot, and nobody owns it.
    Boot,
    /// To read what is a user's or a group's: 0 is nobody, then come the users, and then the groups.
    Reads(usize),
    /// To write what is a user's or a group's.
    Writes(usize),
    /// To keep the secrets of a process.
    ReadsProcess(ProcName),
    /// To write the objects of a process.
    WritesProcess(ProcName),
    /// To keep the secrets of the job that begins with this process.
    Job(ProcName),
}

/// Returns what boot made a category for, with this many users and groups together.
fn boot_purpose(owners: usize, category: Category) -> Option<Purpose>
    requires { owners ≤ most_users + most_groups }
    ensures { result ≡ boot_purpose owners category }
{
    let number = category.number() as usize;
    if number == 1 {
        return Some(Purpose::Boot);
    }
    if number >= 2 && number - 2 < 2 + 2 * owners {
        return Some(pair_purpose(number));
    }
    first_purpose(owners, number)
}

/// Returns what boot made a category for after those of nobody, of users and of groups.
fn first_purpose(owners: usize, number: usize) -> Option<Purpose>
    requires { owners ≤ most_users + most_groups }
    ensures { result ≡ first_purpose owners number }
{
    if number == 4 + 2 * owners {
        Some(Purpose::ReadsProcess(ProcName::zero()))
    } else if number == 5 + 2 * owners {
        Some(Purpose::WritesProcess(ProcName::zero()))
    } else {
        None
    }
}

/// Returns what the first or the second category of a pair is for.
fn pair_purpose(number: usize) -> Purpose
    requires { 2 ≤ number }
    ensures { result ≡ pair_purpose number }
{
    let owner = (number - 2) / 2;
    if number % 2 == 0 {
        Purpose::Reads(owner)
    } else {
        Purpose::Writes(owner)
    }
}

/// Returns the label of the container of a process.
fn outer_label<'k, S: LabelStore + Drop>(
    kernel: &'k Kernel<S>,
    roots: &Roots,
    numbers: &[u8],
) -> Option<&'k Label>
    ensures { option_copied result ≡ outer_label (state kernel.now) roots.now.home numbers.now }
{
    let home = home_at(kernel, roots.home, numbers)?;
    kernel.label(home.container)
}

/// Returns the label of the internal container of a process that runs.
fn inner_label<'k, S: LabelStore + Drop>(
    kernel: &'k Kernel<S>,
    roots: &Roots,
    numbers: &[u8],
) -> Option<&'k Label>
    ensures { option_copied result ≡ inner_label (state kernel.now) roots.now.home numbers.now }
{
    let home = home_at(kernel, roots.home, numbers)?;
    let head = read_status(kernel.bytes(home.segment))?;
    if head.exited.is_some() {
        return None;
    }
    kernel.label(head.internal)
}

/// Checks whether a label that is there has a category at 0.
fn has_zero(label: Option<&Label>, category: Category) -> bool
    ensures { result ≡ has_zero (option_copied label.entry) category }
{
    match label {
        None => false,
        Some(label) => matches!(label.get(category), Level::L0),
    }
}

/// Checks whether a label that is there has a category at 3.
fn has_three(label: Option<&Label>, category: Category) -> bool
    ensures { result ≡ has_three (option_copied label.entry) category }
{
    match label {
        None => false,
        Some(label) => is_three(label.get(category)),
    }
}

/// Returns the job of a process whose container has its category at 3, if it begins with the process: the
/// container of its parent doesn't have it at 3.
fn job_by<S: LabelStore + Drop>(
    kernel: &Kernel<S>,
    roots: &Roots,
    category: Category,
    numbers: &[u8],
) -> Option<Purpose>
    requires { length numbers.now ≤ most_numbers }
    ensures { result ≡ job_by (state kernel.now) roots.now.home category numbers.now }
{
    let [_, above @ ..] = numbers else {
        return None;
    };
    if has_three(outer_label(kernel, roots, above), category) {
        return None;
    }
    Some(Purpose::Job(name_of(numbers)))
}

/// Returns what a category is for, if it is a category of this process.
pub(crate) fn purpose_by<S: LabelStore + Drop>(
    kernel: &Kernel<S>,
    roots: &Roots,
    category: Category,
    numbers: &[u8],
) -> Option<Purpose>
    requires { length numbers.now ≤ most_numbers }
    ensures { result ≡ purpose_by (state kernel.now) roots.now.home category numbers.now }
{
    let outer = outer_label(kernel, roots, numbers);
    if has_zero(outer, category) {
        Some(Purpose::WritesProcess(name_of(numbers)))
    } else if has_three(outer, category) {
        job_by(kernel, roots, category, numbers)
    } else if has_three(inner_label(kernel, roots, numbers), category) {
        Some(Purpose::ReadsProcess(name_of(numbers)))
    } else {
        None
    }
}

/// Returns how many users and groups there are together.
fn owners(users: &UserTable) -> usize
    ensures count { result ≡ declared users.now }
    ensures few { result ≤ most_users + most_groups }
{
    users.len() + users.groups().len()
}

/// Returns what a category is for.
pub(crate) fn purpose_of<S: LabelStore + Drop>(
    names: &Names<S>,
    category: Category,
) -> Option<Purpose>
    ensures { result ≡ purpose_of names.now.users.now names.now.births.now category }
{
    match boot_purpose(owners(names.users), category) {
        Some(purpose) => Some(purpose),
        None => noted(names.births, category),
    }
}
