//! The paragraphs of those who change what is at a path: the changers, and the logins of others.
ghost use Rattle.std.specs.Prelude.{◌≡◌, ◌&&◌, ◌++◌, codes, filter, IfOk, map, not, OnOk};
ghost use Rattle.std.specs.List.{flat_map};
ghost use Rattle.histar_secrecy.specs.Logins.{logged_in};
ghost use Rattle.histar_secrecy.specs.ShownRoles.{is_shown_changer};
ghost use Rattle.histar_leak.specs.Findings.{changer_login_text, changing_text, first_change};
ghost use Rattle.histar_leak.specs.Findings.{is_changing_login, is_jobless, login_change_text};
ghost use Rattle.histar_leak.specs.Findings.{of_first, shown_changer, shown_changer_login};
ghost use Rattle.histar_leak.specs.Findings.{shown_changers, shown_others};

use crate::changes::{Change, first_change};
use crate::lines::{push_change, push_login, push_some, push_who};
use crate::readers::is_jobless;
use histar_flat::{Group, Name, ProcName, User};
use histar_secrecy::{FileClass, Member, writes_one};
use std::alloc::{AllocError, Global};

/// What is at a path and who may change it: the groups and the running processes of the machine,
/// the classes of what is there and of each directory above it, and the call that changes something
/// by each of these.
#[derive(Drop)]
pub struct Place<'a> {
    pub groups: &'a [Group],
    pub members: &'a [Member],
    pub classes: &'a [FileClass],
    pub changes: &'a [Option<Change>],
}

/// Adds a paragraph for each changer of what is at a path, and for each user as whom another
/// process could log in to change it.
pub fn push_changers(
    alloc: Global,
    text: &mut Vec<u8>,
    place: &Place,
    users: &[User],
) -> Result<(), AllocError>
    ensures { OnOk result (text.new.items ≡ text.old.items
        ++ shown_changers place.now.groups.now place.now.classes.now place.now.changes.now users.now
        place.now.members.now) }
{
    push_each_changer(text, place)?;
    let whom = others(alloc, place)?;
    push_changer_logins(alloc, text, place, whom.as_slice(), users)
}

/// Adds a paragraph for each changer.
fn push_each_changer(text: &mut Vec<u8>, place: &Place) -> Result<(), AllocError>
    ensures { OnOk result (text.new.items ≡ text.old.items
        ++ flat_map (shown_changer place.now.groups.now place.now.classes.now
        place.now.changes.now) place.now.members.now) }
{
    for member in place.members {
        push_changer(text, place, member)?;
    }
    Ok(())
}

/// Adds the paragraph of a process, if it is a changer.
fn push_changer(text: &mut Vec<u8>, place: &Place, member: &Member) -> Result<(), AllocError>
    ensures { OnOk result (text.new.items ≡ text.old.items
        ++ shown_changer place.now.groups.now place.now.classes.now place.now.changes.now
        member.now) }
{
    if !is_changer(place, member) {
        return Ok(());
    }
    text.extend_from_slice(b"\n# changer ")?;
    push_who(text, &member.name, member.user)?;
    text.extend_from_slice(b"\n")?;
    let change = first_change(place.groups, member, place.classes, place.changes);
    push_change(text, &member.name, change)
}

/// Checks whether a process is a changer.
fn is_changer(place: &Place, member: &Member) -> bool
    ensures { result ≡ is_shown_changer place.now.groups.now place.now.classes.now member.now }
{
    let jobs = member.jobs.as_slice();
    writes_one(
        place.groups,
        member.user,
        jobs,
        member.held.as_slice(),
        place.classes,
    )
}

/// Returns the processes in no job that are no changers, each with its user.
fn others(alloc: Global, place: &Place) -> Result<Vec<(ProcName, Name)>, AllocError>
    ensures { IfOk result (λ v. v.items
        ≡ shown_others place.now.groups.now place.now.classes.now place.now.members.now) }
{
    place
        .members
        .iter()
        .filter(|member| !is_changer(place, member) && is_jobless(member))
        .map(|member| (member.name, member.user))
        .collect(alloc)
}

/// Adds a paragraph for each user as whom the first of these processes could log in to change what
/// is at a path.
fn push_changer_logins(
    alloc: Global,
    text: &mut Vec<u8>,
    place: &Place,
    whom: &[(ProcName, Name)],
    users: &[User],
) -> Result<(), AllocError>
    ensures { OnOk result (text.new.items ≡ text.old.items
        ++ flat_map (shown_changer_login place.now.groups.now place.now.classes.now
        place.now.changes.now whom.now) users.now) }
{
    for user in users {
        push_changer_login(alloc, text, place, whom, user)?;
    }
    Ok(())
}

/// Adds the paragraph of a user as whom these processes could log in, if it could then change what
/// is at a path.
fn push_changer_login(
    alloc: Global,
    text: &mut Vec<u8>,
    place: &Place,
    whom: &[(ProcName, Name)],
    user: &User,
) -> Result<(), AllocError>
    ensures { OnOk result (text.new.items ≡ text.old.items
        ++ shown_changer_login place.now.groups.now place.now.classes.now place.now.changes.now
        whom.now user.now) }
{
    if !is_changing_login(place, whom, user.name) {
        return Ok(());
    }
    push_changer_login_of(alloc, text, place, whom, user)
}

/// Adds the paragraph of these processes, the first of which logs in as a user.
fn push_changer_login_of(
    alloc: Global,
    text: &mut Vec<u8>,
    place: &Place,
    whom: &[(ProcName, Name)],
    user: &User,
) -> Result<(), AllocError>
    ensures { OnOk result (text.new.items ≡ text.old.items
        ++ changer_login_text place.now.groups.now place.now.classes.now place.now.changes.now
        whom.now user.now) }
{
    text.extend_from_slice(b"\n# changer-login ")?;
    text.extend_from_slice(user.name.as_bytes())?;
    text.extend_from_slice(b" by ")?;
    push_some(text, whom)?;
    text.extend_from_slice(b"\n")?;
    push_login_change(alloc, text, place, whom, user)
}

/// Adds the lines of the first of these processes, which logs in as a user and changes something.
#[tactic(auto, unfolding(crate::specs::Findings::login_change_text))]
fn push_login_change(
    alloc: Global,
    text: &mut Vec<u8>,
    place: &Place,
    whom: &[(ProcName, Name)],
    user: &User,
) -> Result<(), AllocError>
    ensures { OnOk result (text.new.items ≡ text.old.items
        ++ login_change_text place.now.groups.now place.now.classes.now place.now.changes.now
        whom.now user.now) }
{
    let change = login_change(alloc, place, user.name);
    push_changing_first(text, user, change, whom)
}

/// Checks whether there are such processes, and one that logs in as a user could change what is at
/// a path.
fn is_changing_login(place: &Place, whom: &[(ProcName, Name)], user: Name) -> bool
    ensures { result ≡ is_changing_login place.now.groups.now place.now.classes.now whom.now user }
{
    !whom.is_empty() && writes_one(place.groups, user, &[], &[], place.classes)
}

/// Returns the call by which a process that has logged in as a user changes something.
fn login_change(alloc: Global, place: &Place, user: Name) -> Option<Change>
    ensures { result ≡ first_change place.now.groups.now (logged_in user) place.now.classes.now
        place.now.changes.now }
{
    let member = Member {
        name: ProcName::zero(),
        user,
        jobs: Vec::new(alloc),
        held: Vec::new(alloc),
    };
    first_change(place.groups, &member, place.classes, place.changes)
}

/// Adds the lines of the first of these, which logs in as a user and changes something.
fn push_changing_first(
    text: &mut Vec<u8>,
    user: &User,
    change: Option<Change>,
    whom: &[(ProcName, Name)],
) -> Result<(), AllocError>
    ensures { OnOk result (text.new.items
        ≡ text.old.items ++ of_first whom.now (changing_text user.now change)) }
{
    match whom {
        [] => Ok(()),
        [first, ..] => push_changing(text, user, change, &first.0),
    }
}

/// Adds the lines of a process that logs in as a user and changes something.
fn push_changing(
    text: &mut Vec<u8>,
    user: &User,
    change: Option<Change>,
    me: &ProcName,
) -> Result<(), AllocError>
    ensures { OnOk result (text.new.items
        ≡ text.old.items ++ changing_text user.now change me.now) }
{
    push_login(text, me, user)?;
    push_change(text, me, change)
}
