//! What a page shows of a secret beside its members: the processes outside, and the calls of the session that have read or written
//! at its path.
ghost use Rattle.std.specs.Prelude.{◌≡◌, ◌++◌, OnOk};
ghost use Rattle.std.specs.List.{flat_map, list_any};
ghost use Rattle.histar_page.specs.Texts.{texts};
ghost use Rattle.histar_page.specs.Items.{items_of};
ghost use Rattle.histar_page.specs.Uses.{are_followed, condition_of, has_role, is_insider, outsider_items, reply_items, use_items};
ghost use Rattle.histar_page.specs.Uses.{use_kind, used_kind};

use crate::callers::caller;
use crate::files::COLON;
use crate::head::is_refused;
use crate::jobs::process_of;
use crate::kind::Kind;
use crate::lines::{after_word, or_nothing};
use crate::markup::Markup;
use crate::piece::{Piece, add, show};
use crate::secrets::{CONFINED, TRUSTED};
use crate::story::call_on;
use histar_flat::split_at_first;
use histar_script::split_word;
use std::alloc::AllocError;

/// The most secrets that are followed through a session: each is compared with each call.
pub const MOST_FOLLOWED_SECRETS: usize = 30;

/// The most processes of a session whose secrets are followed: each is compared with each member of each secret.
pub const MOST_FOLLOWED_PROCESSES: usize = 64;

/// The call that reads a file.
const READ: &[u8] = b"read";

/// The call that writes a file.
const WRITE: &[u8] = b"write";

/// The call that writes at the end of a file.
const APPEND: &[u8] = b"append";

/// Checks whether these files are followed through a session with these processes.
pub(crate) fn are_followed(files: &[&[u8]], runners: &[&[u8]]) -> bool
    ensures { result ≡ are_followed (texts files.now) (texts runners.now) }
{
    files.len() <= MOST_FOLLOWED_SECRETS && runners.len() <= MOST_FOLLOWED_PROCESSES
}

/// Adds the processes that are outside: neither trusted nor confined by these members.
pub(crate) fn push_outsiders<'a>(
    pieces: &mut Vec<Piece<'a>>,
    members: &[&[u8]],
    runners: &[&'a [u8]],
) -> Result<(), AllocError>
    ensures { OnOk result (items_of pieces.new.items ≡ items_of pieces.old.items
        ++ flat_map (outsider_items (texts members.now)) (texts runners.now)) }
{
    let mut rest = runners;
    'runners: while let [runner, more @ ..] = rest {
        push_outsider(pieces, members, runner)?;
        rest = more;
    }
    Ok(())
}

/// Adds a process, if it is outside.
fn push_outsider<'a>(
    pieces: &mut Vec<Piece<'a>>,
    members: &[&[u8]],
    runner: &'a [u8],
) -> Result<(), AllocError>
    ensures { OnOk result (items_of pieces.new.items
        ≡ items_of pieces.old.items ++ outsider_items (texts members.now) runner.now) }
{
    let process = process_of(runner);
    if is_inside(process, members) {
        return Ok(());
    }
    show(pieces, Kind::Outsider, process)
}

/// Checks whether a process is one of these members, trusted or confined.
fn is_inside(process: &[u8], members: &[&[u8]]) -> bool
    ensures { result ≡ list_any (is_insider process.now) (texts members.now) }
{
    let mut rest = members;
    'members: while let [member, more @ ..] = rest {
        if is_insider(process, member) {
            return true;
        }
        rest = more;
    }
    false
}

/// Checks whether a member is this process, trusted or confined.
fn is_insider(process: &[u8], member: &[u8]) -> bool
    ensures { result ≡ is_insider process.now member.now }
{
    let name = or_nothing(split_at_first(member, COLON).1);
    (has_role(TRUSTED, member) || has_role(CONFINED, member)) && name == process
}

/// Checks whether a member has this role.
fn has_role(role: &[u8], member: &[u8]) -> bool
    ensures { result ≡ has_role role.now member.now }
{
    split_at_first(member, COLON).0 == role
}

/// Returns what has to happen before the processes outside learn of a file with these members.
pub(crate) fn condition_of(members: &[&[u8]]) -> Markup
    ensures { result ≡ condition_of (texts members.now) }
{
    let mut rest = members;
    'members: while let [member, more @ ..] = rest {
        if has_role(TRUSTED, member) {
            return Markup::UnlessCalled;
        }
        rest = more;
    }
    Markup::UnlessLogin
}

/// Adds each call that has read or written at this path.
pub(crate) fn push_uses<'a>(
    pieces: &mut Vec<Piece<'a>>,
    script: &[&'a [u8]],
    path: &[u8],
    replies: &[&'a [u8]],
) -> Result<(), AllocError>
    ensures { OnOk result (items_of pieces.new.items ≡ items_of pieces.old.items
        ++ flat_map (reply_items (texts script.now) path.now) (texts replies.now)) }
{
    let mut rest = replies;
    'replies: while let [reply, more @ ..] = rest {
        push_reply(pieces, script, path, reply)?;
        rest = more;
    }
    Ok(())
}

/// Adds the call that a reply answers, if it has read or written at this path.
fn push_reply<'a>(
    pieces: &mut Vec<Piece<'a>>,
    script: &[&'a [u8]],
    path: &[u8],
    reply: &'a [u8],
) -> Result<(), AllocError>
    ensures { OnOk result (items_of pieces.new.items
        ≡ items_of pieces.old.items ++ reply_items (texts script.now) path.now reply.now) }
{
    let used = used_kind(path, call_on(script, reply), reply);
    push_use(pieces, used, caller(script, reply), split_word(reply).0)
}

/// Adds the process of a call and its line with a link to it, if the call has read or written.
fn push_use<'a>(
    pieces: &mut Vec<Piece<'a>>,
    used: Option<Kind>,
    process: &'a [u8],
    number: &'a [u8],
) -> Result<(), AllocError>
    ensures { OnOk result (items_of pieces.new.items
        ≡ items_of pieces.old.items ++ use_items used process.now number.now) }
{
    let Some(kind) = used else {
        return Ok(());
    };
    add(
        pieces,
        &[
            Piece::Shown(kind, process),
            Piece::Shown(Kind::UseAddress, number),
            Piece::Shown(Kind::UseLine, number),
        ],
    )
}

/// Returns what a call with this reply has done at this path, if it has read or written there.
fn used_kind(path: &[u8], call: &[u8], reply: &[u8]) -> Option<Kind>
    ensures { result ≡ used_kind path.now call.now reply.now }
{
    let rest = after_word(call);
    if is_refused(reply) || split_word(after_word(rest)).0 != path {
        return None;
    }
    use_kind(split_word(rest).0)
}

/// Returns what a call with this word does, if it reads or writes a file.
fn use_kind(word: &[u8]) -> Option<Kind>
    ensures { result ≡ use_kind word.now }
{
    if word == READ {
        return Some(Kind::ReadBy);
    }
    if word == WRITE || word == APPEND {
        Some(Kind::WrittenBy)
    } else {
        None
    }
}
