//! The names of objects and categories in the explanation of a denied call of a script.
ghost use Rattle.std.specs.Prelude.{◌≡◌, ◌≤◌, ◌++◌, slice_get, OnOk};
ghost use Rattle.histar_flat.specs.Accounts.{most_users};
ghost use Rattle.histar_flat.specs.Texts.{process_text};
ghost use Rattle.histar_programs.specs.Kin.{user_name};
ghost use Rattle.histar_syscall.specs.KernelModel.{state};
ghost use Rattle.histar_names.specs.Purposes.{name_of_group, owner_name, purpose_text};
ghost use Rattle.histar_names.specs.Location.{location_text};
ghost use Rattle.histar_names.specs.NamedWords.{category_text, words_at};
ghost use Rattle.histar_names.specs.Runners.{runner_text};

use crate::location::{Location, location_of};
use crate::names::Names;
use crate::purposes::{Purpose, purpose_of};
use crate::runners::user_at;
use histar_flat::{Name, ProcName};
use histar_label::{Category, LabelStore};
use histar_layout::UserTable;
use histar_object::ObjId;
use histar_programs::user_name;
use histar_raw_explain::{ByNumber, Wording};
use histar_texts::{push_path, push_process};
use std::alloc::AllocError;

/// Adds the name of nobody or of a user.
fn push_user(text: &mut Vec<u8>, users: &UserTable, number: usize) -> Result<(), AllocError>
    requires { number ≤ most_users }
    ensures { OnOk result (text.new.items ≡ text.old.items ++ user_name users.now.users number) }
{
    text.extend_from_slice(user_name(users, number as u8).as_bytes())
}

/// Adds the name of nobody, of a user or of a group.
fn push_owner(text: &mut Vec<u8>, users: &UserTable, owner: usize) -> Result<(), AllocError>
    ensures { OnOk result (text.new.items ≡ text.old.items ++ owner_name users.now owner) }
{
    if owner <= users.len() {
        return push_user(text, users, owner);
    }
    match users.groups().get(owner - users.len() - 1) {
        None => Ok(()),
        Some(group) => text.extend_from_slice(group.name().as_bytes()),
    }
}

/// Adds a word and the name of nobody, of a user or of a group.
fn push_owned(
    text: &mut Vec<u8>,
    word: &[u8],
    users: &UserTable,
    owner: usize,
) -> Result<(), AllocError>
    ensures { OnOk result (text.new.items ≡ text.old.items ++ (word.now ++ owner_name users.now owner)) }
{
    text.extend_from_slice(word)?;
    push_owner(text, users, owner)
}

/// Adds a word and the name of a process.
fn push_of(text: &mut Vec<u8>, word: &[u8], process: &ProcName) -> Result<(), AllocError>
    ensures { OnOk result (text.new.items ≡ text.old.items ++ (word.now ++ process_text process.now)) }
{
    text.extend_from_slice(word)?;
    push_process(*text.allocator(), text, process)
}

/// Adds what a category is for.
fn push_purpose(text: &mut Vec<u8>, users: &UserTable, purpose: &Purpose) -> Result<(), AllocError>
    ensures { OnOk result (text.new.items ≡ text.old.items ++ purpose_text users.now purpose.now) }
{
    match purpose {
        Purpose::Boot => text.extend_from_slice(b"the kernel's own category"),
        Purpose::Reads(owner) => push_owned(text, b"read:", users, *owner),
        Purpose::Writes(owner) => push_owned(text, b"write:", users, *owner),
        Purpose::ReadsProcess(process) => push_of(text, b"own-read:", process),
        Purpose::WritesProcess(process) => push_of(text, b"own-write:", process),
        Purpose::Job(process) => push_of(text, b"job:", process),
    }
}

/// Adds the user of a process in brackets, if the process runs.
fn push_runner(text: &mut Vec<u8>, user: Option<Name>) -> Result<(), AllocError>
    ensures { OnOk result (text.new.items ≡ text.old.items ++ runner_text user) }
{
    let Some(user) = user else {
        return Ok(());
    };
    text.extend_from_slice(b" (")?;
    text.extend_from_slice(user.as_bytes())?;
    text.extend_from_slice(b")")
}

/// Adds what an object is.
fn push_location(
    text: &mut Vec<u8>,
    users: &UserTable,
    location: &Location,
) -> Result<(), AllocError>
    ensures { OnOk result (text.new.items ≡ text.old.items ++ location_text users.now location.now) }
{
    match location {
        Location::Root => text.extend_from_slice(b"the root container"),
        Location::Password(user) => push_owned(text, b"the password of ", users, *user),
        Location::Gate(user) => push_owned(text, b"the gate of ", users, *user),
        Location::Users => text.extend_from_slice(b"the user table"),
        Location::At(path) => push_path(*text.allocator(), text, path),
        Location::Part(process) => push_of(text, b"process ", process),
    }
}

impl<'k, S: LabelStore + Drop> Names<'k, S> {
    /// Adds a category by what it is for.
    fn push_category_name(&self, text: &mut Vec<u8>, category: Category) -> Result<(), AllocError>
        ensures { OnOk result (text.new.items ≡ text.old.items
            ++ (words_at self.now.users.now self.now.roots.now
            (state self.now.kernel.now) self.now.clue.now self.now.births.now).category category) }
    {
        match purpose_of(self, category) {
            None => ByNumber.push_category(text, category),
            Some(purpose) => push_purpose(text, self.users, &purpose),
        }
    }
}

impl<'k, S: LabelStore + Drop> Wording for Names<'k, S> {
    ghost words = { λ n. words_at n.users.now n.roots.now (state n.kernel.now) n.clue.now n.births.now };

    fn push_thread(&self, text: &mut Vec<u8>, _thread: ObjId) -> Result<(), AllocError> {
        push_process(*text.allocator(), text, &self.clue.caller)?;
        push_runner(text, user_at(self, &self.clue.caller))
    }

    fn push_object(&self, text: &mut Vec<u8>, object: ObjId) -> Result<(), AllocError> {
        match location_of(self, object) {
            None => ByNumber.push_object(text, object),
            Some(location) => push_location(text, self.users, &location),
        }
    }

    fn push_category(&self, text: &mut Vec<u8>, category: Category) -> Result<(), AllocError> {
        self.push_category_name(text, category)
    }

    fn push_listed(&self, text: &mut Vec<u8>, category: Category) -> Result<(), AllocError> {
        self.push_category_name(text, category)
    }

    fn push_made(&self, text: &mut Vec<u8>, kind: &str) -> Result<(), AllocError> {
        if self.clue.path.names().is_empty() {
            return ByNumber.push_made(text, kind);
        }
        push_path(*text.allocator(), text, &self.clue.path)
    }
}
