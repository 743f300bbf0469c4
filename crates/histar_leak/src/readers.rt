//! The paragraphs of those who reveal what is in a file: the trusted processes, and the logins.
ghost use Rattle.std.specs.Prelude.{◌≡◌, ◌&&◌, ◌++◌, codes, filter, IfOk, map, OnOk};
ghost use Rattle.std.specs.List.{flat_map};
ghost use Rattle.histar_secrecy.specs.declared.role.Role.TheVariants.{Trusted};
ghost use Rattle.histar_secrecy.specs.ShownRoles.{flat_class, has_shown_role, is_login_reader};
ghost use Rattle.histar_secrecy.specs.ShownRoles.{with_user};
ghost use Rattle.histar_leak.specs.Findings.{asking_text, is_jobless, is_shown_outsider};
ghost use Rattle.histar_leak.specs.Findings.{knows_jobs_of, of_first, reading_text, reads_way};
ghost use Rattle.histar_leak.specs.Findings.{shown_free_outsiders, shown_listeners, shown_login};
ghost use Rattle.histar_leak.specs.Findings.{shown_readers};
ghost use Rattle.histar_leak.specs.Findings.{shown_outsiders, shown_trusted, trusted_paragraph};

use crate::lines::{push_asking, push_reading, push_some, push_who};
use histar_flat::{Group, Name, Path, ProcName, User};
use histar_secrecy::{FileClass, Member, Role, has_role, knows_all, reads_all};
use histar_trust::is_open_way;
use std::alloc::{AllocError, Global};

/// A file and who may reach it: the groups and the running processes of the machine, the classes on
/// the way to the file, its path, and its bytes.
#[derive(Drop)]
pub struct Secret<'a> {
    pub groups: &'a [Group],
    pub members: &'a [Member],
    pub classes: &'a [FileClass],
    pub path: &'a Path,
    pub bytes: &'a [u8],
}

/// Adds a paragraph for each process that is trusted with a file, and for each user as whom a
/// process could log in to read it, or a single line if every process reaches it.
pub fn push_readers(
    alloc: Global,
    text: &mut Vec<u8>,
    secret: &Secret,
    users: &[User],
) -> Result<(), AllocError>
    ensures { OnOk result (text.new.items ≡ text.old.items
        ++ shown_readers secret.now.groups.now secret.now.classes.now secret.now.path.now
        secret.now.bytes.now users.now secret.now.members.now) }
{
    if is_open_way(secret.classes) {
        return text.extend_from_slice(b"\n# everyone\n");
    }
    push_each_trusted(alloc, text, secret)?;
    let whom = free_outsiders(alloc, secret)?;
    push_logins(text, secret, whom.as_slice(), users)
}

/// Adds a paragraph for each process that is trusted with a file.
///
/// Those that observe a process in no job are all outsiders, and are listed once.
fn push_each_trusted(alloc: Global, text: &mut Vec<u8>, secret: &Secret) -> Result<(), AllocError>
    ensures { OnOk result (text.new.items ≡ text.old.items
        ++ flat_map (shown_trusted secret.now.groups.now secret.now.classes.now secret.now.path.now
        secret.now.bytes.now secret.now.members.now) secret.now.members.now) }
{
    let outsiders = outsiders(alloc, secret)?;
    for member in secret.members {
        push_trusted(alloc, text, secret, outsiders.as_slice(), member)?;
    }
    Ok(())
}

/// Adds the paragraph of a process, if it is trusted with a file, of which these are the outsiders.
fn push_trusted(
    alloc: Global,
    text: &mut Vec<u8>,
    secret: &Secret,
    outsiders: &[(ProcName, Name)],
    member: &Member,
) -> Result<(), AllocError>
    requires { outsiders.now ≡ shown_outsiders secret.now.groups.now secret.now.classes.now
        secret.now.members.now }
    ensures { OnOk result (text.new.items ≡ text.old.items
        ++ shown_trusted secret.now.groups.now secret.now.classes.now secret.now.path.now
        secret.now.bytes.now secret.now.members.now member.now) }
{
    if !has_role(secret.groups, secret.classes, Role::Trusted, member) {
        return Ok(());
    }
    push_listening(alloc, text, secret, outsiders, member)
}

/// Adds the paragraph of a trusted process, where these are the outsiders: each can observe a
/// process in no job.
fn push_listening(
    alloc: Global,
    text: &mut Vec<u8>,
    secret: &Secret,
    outsiders: &[(ProcName, Name)],
    member: &Member,
) -> Result<(), AllocError>
    requires { outsiders.now ≡ shown_outsiders secret.now.groups.now secret.now.classes.now
        secret.now.members.now }
    ensures { OnOk result (text.new.items ≡ text.old.items
        ++ trusted_paragraph secret.now.path.now secret.now.bytes.now member.now
        (shown_listeners secret.now.groups.now secret.now.classes.now secret.now.members.now
        member.now)) }
{
    if is_jobless(member) {
        return push_trusted_paragraph(text, secret, member, outsiders);
    }
    let listeners = listeners(alloc, secret, member)?;
    push_trusted_paragraph(text, secret, member, listeners.as_slice())
}

/// Adds the paragraph of a trusted process, which these can observe.
fn push_trusted_paragraph(
    text: &mut Vec<u8>,
    secret: &Secret,
    member: &Member,
    whom: &[(ProcName, Name)],
) -> Result<(), AllocError>
    ensures { OnOk result (text.new.items ≡ text.old.items
        ++ trusted_paragraph secret.now.path.now secret.now.bytes.now member.now whom.now) }
{
    text.extend_from_slice(b"\n# trusted ")?;
    push_who(text, &member.name, member.user)?;
    text.extend_from_slice(b" tells ")?;
    push_some(text, whom)?;
    text.extend_from_slice(b"\n")?;
    push_asking_first(text, secret, &member.name, whom)
}

/// Adds the lines of a trusted process and the first of these.
fn push_asking_first(
    text: &mut Vec<u8>,
    secret: &Secret,
    me: &ProcName,
    whom: &[(ProcName, Name)],
) -> Result<(), AllocError>
    ensures { OnOk result (text.new.items ≡ text.old.items
        ++ of_first whom.now (asking_text me.now secret.now.path.now secret.now.bytes.now)) }
{
    match whom {
        [] => Ok(()),
        [first, ..] => push_asking(text, me, secret.path, secret.bytes, &first.0),
    }
}

/// Returns the outsiders that know each job of a process, each with its user.
fn listeners(
    alloc: Global,
    secret: &Secret,
    me: &Member,
) -> Result<Vec<(ProcName, Name)>, AllocError>
    ensures { IfOk result (λ v. v.items
        ≡ shown_listeners secret.now.groups.now secret.now.classes.now
        secret.now.members.now me.now) }
{
    secret
        .members
        .iter()
        .filter(|member| is_outsider(secret, member) && knows_jobs_of(member, me))
        .map(|member| (member.name, member.user))
        .collect(alloc)
}

/// Returns the outsiders in no job, each with its user.
fn free_outsiders(alloc: Global, secret: &Secret) -> Result<Vec<(ProcName, Name)>, AllocError>
    ensures { IfOk result (λ v. v.items
        ≡ shown_free_outsiders secret.now.groups.now secret.now.classes.now
        secret.now.members.now) }
{
    secret
        .members
        .iter()
        .filter(|member| is_outsider(secret, member) && is_jobless(member))
        .map(|member| (member.name, member.user))
        .collect(alloc)
}

/// Returns the outsiders, each with its user.
fn outsiders(alloc: Global, secret: &Secret) -> Result<Vec<(ProcName, Name)>, AllocError>
    ensures { IfOk result (λ v. v.items
        ≡ shown_outsiders secret.now.groups.now secret.now.classes.now secret.now.members.now) }
{
    secret
        .members
        .iter()
        .filter(|member| is_outsider(secret, member))
        .map(|member| (member.name, member.user))
        .collect(alloc)
}

/// Checks whether a process is an outsider of a file.
fn is_outsider(secret: &Secret, member: &Member) -> bool
    ensures { result ≡ is_shown_outsider secret.now.groups.now secret.now.classes.now member.now }
{
    has_role(secret.groups, secret.classes, Role::Outside, member)
}

/// Checks whether a process knows each job of another one.
fn knows_jobs_of(member: &Member, me: &Member) -> bool
    ensures { result ≡ knows_jobs_of member.now me.now }
{
    knows_all(
        member.jobs.as_slice(),
        member.held.as_slice(),
        me.jobs.as_slice(),
    )
}

/// Checks whether a process is in no job.
pub fn is_jobless(member: &Member) -> bool
    ensures { result ≡ is_jobless member.now }
{
    member.jobs.is_empty()
}

/// Adds a paragraph for each user as whom these processes could log in to read a file.
fn push_logins(
    text: &mut Vec<u8>,
    secret: &Secret,
    whom: &[(ProcName, Name)],
    users: &[User],
) -> Result<(), AllocError>
    ensures { OnOk result (text.new.items ≡ text.old.items
        ++ flat_map (shown_login secret.now.groups.now secret.now.classes.now secret.now.path.now
        secret.now.bytes.now whom.now) users.now) }
{
    for user in users {
        push_login_of(text, secret, whom, user)?;
    }
    Ok(())
}

/// Adds the paragraph of a user as whom these processes could log in, if it could then read a file.
fn push_login_of(
    text: &mut Vec<u8>,
    secret: &Secret,
    whom: &[(ProcName, Name)],
    user: &User,
) -> Result<(), AllocError>
    ensures { OnOk result (text.new.items ≡ text.old.items
        ++ shown_login secret.now.groups.now secret.now.classes.now secret.now.path.now
        secret.now.bytes.now whom.now user.now) }
{
    if !reads_way(secret, user.name) {
        return Ok(());
    }
    text.extend_from_slice(b"\n# login ")?;
    text.extend_from_slice(user.name.as_bytes())?;
    text.extend_from_slice(b" by ")?;
    push_some(text, whom)?;
    text.extend_from_slice(b"\n")?;
    push_reading_first(text, secret, whom, user)
}

/// Checks whether a process that logs in as a user reaches a file.
#[tactic(auto, unfolding(crate::specs::Findings::reads_way))]
fn reads_way(secret: &Secret, user: Name) -> bool
    ensures { result ≡ reads_way secret.now.groups.now secret.now.classes.now user }
{
    reads_all(secret.groups, user, &[], &[], secret.classes)
}

/// Adds the lines of the first of these, which logs in and reads a file.
fn push_reading_first(
    text: &mut Vec<u8>,
    secret: &Secret,
    whom: &[(ProcName, Name)],
    user: &User,
) -> Result<(), AllocError>
    ensures { OnOk result (text.new.items ≡ text.old.items
        ++ of_first whom.now (reading_text user.now secret.now.path.now secret.now.bytes.now)) }
{
    match whom {
        [] => Ok(()),
        [first, ..] => push_reading(text, user, secret.path, secret.bytes, &first.0),
    }
}
