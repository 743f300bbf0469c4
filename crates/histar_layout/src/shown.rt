//! The owner of a file or a directory, and its readers and writers, as a few levels of its label show them.
ghost use Rattle.std.specs.Prelude.{◌≡◌, ◌+◌, ◌&&◌, length};
ghost use Rattle.histar_layout.specs.ShownClass.{class_at, class_shown, group_class_at, group_class_from, is_all_plain, is_plain_level, stat_of};

use crate::categories::{read_category, write_category};
use crate::owners::group_owner;
use crate::user_table::UserTable;
use histar_flat::{FileMode, Name, Stat};
use histar_label::{Label, Level};

/// The owner of a file or a directory, and who else may read or write it, without the jobs that it is for.
#[derive(Clone, Copy)]
pub enum ShownClass {
    /// For its owner alone.
    Private(Name),
    /// For everyone to read, and for its owner to write.
    Readable(Name),
    /// For everyone.
    Open,
    /// For its owner in jobs.
    Scratch(Name),
    /// For the members of a group.
    Group(Name),
}

impl ShownClass {
    /// Returns what `stat` answers of a file or a directory of this class.
    pub fn stat(self, is_directory: bool) -> Stat
        ensures { result ≡ stat_of self is_directory }
    {
        let (owner, mode) = match self {
            ShownClass::Private(owner) => (Some(owner), FileMode::Private),
            ShownClass::Readable(owner) => (Some(owner), FileMode::Readable),
            ShownClass::Open => (None, FileMode::Open),
            ShownClass::Scratch(owner) => (Some(owner), FileMode::Scratch),
            ShownClass::Group(group) => (None, FileMode::Group(group)),
        };
        Stat {
            is_directory,
            owner,
            mode,
        }
    }
}

/// Returns the class that the levels at its owner's two categories show.
fn class_at(owner: Name, read: Level, write: Level) -> Option<ShownClass>
    ensures { result ≡ class_at owner read write }
{
    match (read, write) {
        (Level::L3, Level::L0) => Some(ShownClass::Private(owner)),
        (Level::L1, Level::L0) => Some(ShownClass::Readable(owner)),
        (Level::L3, Level::L1) => Some(ShownClass::Scratch(owner)),
        _ => None,
    }
}

/// Returns the class that the levels at a group's two categories show.
fn group_class_at(group: Name, read: Level, write: Level) -> Option<ShownClass>
    ensures { result ≡ group_class_at group read write }
{
    match (read, write) {
        (Level::L3, Level::L0) => Some(ShownClass::Group(group)),
        _ => None,
    }
}

/// Checks whether it is the level that labels of files have at the categories that they don't name.
fn is_plain(level: Level) -> bool
    ensures { result ≡ is_plain_level level }
{
    matches!(level, Level::L1)
}

/// Checks whether these are the levels at the two categories of a user or a group that a label doesn't name.
fn are_plain(read: Level, write: Level) -> bool
    ensures { result ≡ (is_plain_level read && is_plain_level write) }
{
    is_plain(read) && is_plain(write)
}

/// Checks whether a label is `{1}`: it names no category, and has the level of such labels at all of them.
fn is_all_plain(label: &Label) -> bool
    ensures { result ≡ is_all_plain label.now }
{
    label.exceptions().is_empty() && is_plain(label.default_level())
}

/// Returns the class that a label shows by the levels at the categories of users and groups: that of the
/// first user or group whose categories it names. Where it names none of them the class is open if the label
/// names no category at all, and otherwise there is none. If the label has a class, which
/// [`class_of`](crate::class_of) finds from the whole label, this is the class without its jobs.
pub fn shown_class(label: &Label, users: &UserTable) -> Option<ShownClass>
    ensures { result ≡ class_shown users.now label.now }
{
    for place in 0..users.len() {
        let number = place as u8 + 1;
        let read = label.get(read_category(number));
        let write = label.get(write_category(number));
        if !are_plain(read, write) {
            return class_at(users.name_at(place), read, write);
        }
    }
    shown_group(label, users)
}

/// Returns the class that a label without a user's category shows.
fn shown_group(label: &Label, users: &UserTable) -> Option<ShownClass>
    ensures { result ≡ group_class_from label.now (length users.now.users + 1) users.now.groups }
{
    let groups = users.groups();
    for (place, group) in groups.iter().enumerate() {
        let number = group_owner(users.len(), place as u8 + 1);
        let read = label.get(read_category(number));
        let write = label.get(write_category(number));
        if !are_plain(read, write) {
            return group_class_at(group.name(), read, write);
        }
    }
    if is_all_plain(label) {
        Some(ShownClass::Open)
    } else {
        None
    }
}
