//! The classes of files and directories, each with its label.
ghost use Rattle.std.specs.Prelude.{◌≡◌, ◌+◌, ◌*◌, ◌↔◌, ◌&&◌, nat_le, Some, IfOk, IsTrue, OnErr};
ghost use Rattle.histar_layout.specs.Jobs.{is_three};
ghost use Rattle.histar_layout.specs.ShownClass.{stat_of};
ghost use Rattle.histar_layout.specs.ClassLabels.{ClassesAreShown, FindsClass, LabelsHaveOneClass};
ghost use Rattle.histar_layout.specs.ClassLabels.{class_label, first_after_groups, jobs_of, likely_class, without_jobs};

use crate::categories::write_category;
use crate::jobs::is_three;
use crate::labels::{label_of, scratch_label, secret_of};
use crate::owners::group_owner;
use crate::shown::{ShownClass, shown_class};
use crate::user_table::UserTable;
use histar_flat::{Name, Stat};
use histar_heap::Heap;
use histar_label::{Category, Label, Level};
use std::alloc::AllocError;
use std::marker::Model;

/// The categories of jobs, by rising numbers. Contracts see them as their list.
#[derive(Drop)]
pub struct Chain {
    jobs: Vec<Category>,
}

impl Model for Chain {
    ghost use Rattle.std.specs.Prelude.{List, ℕ};

    ghost Value = { List ℕ };

    ghost view = { λ c. c.jobs.items };
}

impl Chain {
    /// Returns the list of these categories.
    pub fn new(jobs: Vec<Category>) -> Self
        ensures { result ≡ jobs.items }
    {
        Chain { jobs }
    }

    /// Returns the categories.
    pub fn as_slice(&self) -> &[Category]
        ensures { result.now ≡ self.now }
    {
        self.jobs.as_slice()
    }
}

/// The owner of a file or a directory, and who else may read or write it.
#[derive(Drop)]
pub enum Class {
    /// For its owner alone.
    Private(Name),
    /// For everyone to read, and for its owner to write.
    Readable(Name),
    /// For everyone.
    Open,
    /// For its owner in jobs with these categories.
    Scratch(Name, Chain),
    /// For the members of a group.
    Group(Name),
}

impl Class {
    /// Returns this class without its jobs.
    pub fn without_jobs(&self) -> ShownClass
        ensures { result ≡ without_jobs self.now }
    {
        match self {
            Class::Private(owner) => ShownClass::Private(*owner),
            Class::Readable(owner) => ShownClass::Readable(*owner),
            Class::Open => ShownClass::Open,
            Class::Scratch(owner, _) => ShownClass::Scratch(*owner),
            Class::Group(group) => ShownClass::Group(*group),
        }
    }

    /// Returns what `stat` answers of a file or a directory of this class.
    pub fn stat(&self, is_directory: bool) -> Stat
        ensures { result ≡ stat_of (without_jobs self.now) is_directory }
    {
        self.without_jobs().stat(is_directory)
    }
}

/// Returns the class of a label, if it has one: the class whose label it is. A label is private to a user if
/// it is `{r:3, w:0, 1}` with the user's two categories, readable for everyone and writable for a user if it
/// is `{w:0, 1}`, open if it is `{1}`, a user's in jobs if it is `{r:3, 1}` with level 3 at each job's
/// category, and a group's if it is `{r:3, w:0, 1}` with the group's two categories.
pub fn class_of<H: Heap>(
    heap: H,
    label: &Label,
    users: &UserTable,
) -> Result<Option<Class>, AllocError>
    ensures ok { IfOk result (FindsClass users.now label.now) }
    ensures memory { OnErr result H.Refused }
{
    let Some(class) = likely_class(heap, label, users)? else {
        return Ok(None);
    };
    if has_label(heap, &class, label, users)? {
        Ok(Some(class))
    } else {
        Ok(None)
    }
}

/// Returns the only class that a label can have: the one that it shows, with the jobs that it has.
fn likely_class<H: Heap>(
    heap: H,
    label: &Label,
    users: &UserTable,
) -> Result<Option<Class>, AllocError>
    ensures ok { IfOk result (λ class. class ≡ likely_class users.now label.now) }
    ensures memory { OnErr result H.Refused }
{
    let Some(shown) = shown_class(label, users) else {
        return Ok(None);
    };
    let class = match shown {
        ShownClass::Private(owner) => Class::Private(owner),
        ShownClass::Readable(owner) => Class::Readable(owner),
        ShownClass::Open => Class::Open,
        ShownClass::Scratch(owner) => Class::Scratch(owner, jobs_of(heap, label, users)?),
        ShownClass::Group(group) => Class::Group(group),
    };
    Ok(Some(class))
}

/// Returns the categories of jobs that are at 3 in a label.
fn jobs_of<H: Heap>(heap: H, label: &Label, users: &UserTable) -> Result<Chain, AllocError>
    ensures ok { IfOk result (λ chain. chain ≡ jobs_of users.now label.now) }
    ensures memory { OnErr result H.Refused }
{
    let first = first_after_groups(users);
    let mut jobs = Vec::new(heap.alloc());
    let exceptions = label.exceptions();
    for &(category, level) in exceptions {
        if is_of_job(first, category, level) {
            heap.push(&mut jobs, category)?;
        }
    }
    Ok(Chain { jobs })
}

/// Checks whether a category at this level is that of a job, where the categories of jobs begin with this number.
fn is_of_job(first: u64, category: Category, level: Level) -> bool
    ensures { result ≡ (is_three level && nat_le first category) }
{
    is_three(level) && first <= category.number()
}

/// Returns the number of the first category after those of boot, nobody, the users and the groups.
fn first_after_groups(users: &UserTable) -> u64
    ensures { result ≡ first_after_groups users.now }
{
    4 + 2 * (users.len() as u64 + users.groups().len() as u64)
}

/// Checks whether a label is that of a class.
fn has_label<H: Heap>(
    heap: H,
    class: &Class,
    label: &Label,
    users: &UserTable,
) -> Result<bool, AllocError>
    ensures ok { IfOk result (λ has. IsTrue has ↔ (class_label users.now class.now ≡ Some label.now)) }
    ensures memory { OnErr result H.Refused }
{
    match class_label(heap, class, users)? {
        None => Ok(false),
        Some(due) => Ok(due == *label),
    }
}

/// Returns the label of a class. None where its owner or its group is not declared.
pub fn class_label<H: Heap>(
    heap: H,
    class: &Class,
    users: &UserTable,
) -> Result<Option<Label>, AllocError>
    ensures ok { IfOk result (λ label. label ≡ class_label users.now class.now) }
    ensures memory { OnErr result H.Refused }
{
    let label = match class {
        Class::Open => Label::new(heap.alloc(), Level::L1),
        Class::Group(group) => {
            let Some(number) = users.group_number(*group) else {
                return Ok(None);
            };
            secret_of(heap, group_owner(users.len(), number))?
        }
        Class::Private(owner) => {
            let Some(user) = users.number_of(*owner) else {
                return Ok(None);
            };
            secret_of(heap, user)?
        }
        Class::Readable(owner) => {
            let Some(user) = users.number_of(*owner) else {
                return Ok(None);
            };
            label_of(heap, Level::L1, &[(write_category(user), Level::L0)])?
        }
        Class::Scratch(owner, jobs) => {
            let Some(user) = users.number_of(*owner) else {
                return Ok(None);
            };
            scratch_label(heap, user, jobs.as_slice())?
        }
    };
    Ok(Some(label))
}

/// Proves that a label is of one class at most.
pub fn labels_have_one_class()
    ensures { LabelsHaveOneClass }
{}

/// Proves that a label of a class shows this class, except for its jobs.
pub fn classes_are_shown()
    ensures { ClassesAreShown }
{}
