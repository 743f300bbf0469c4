//! The calls at the beginning of a session that set it up, which a page folds.
ghost use Rattle.std.specs.Prelude.{◌≡◌, ◌++◌, ℕ, List, [], OnOk};
ghost use Rattle.std.specs.List.{list_any};
ghost use Rattle.histar_page.specs.Texts.{texts};
ghost use Rattle.histar_page.specs.Items.{items_of};
ghost use Rattle.histar_page.specs.SetUp.{folded_count, is_set_up, set_up_from, set_up_link, sets_up, shows_note};

use crate::head::is_refused;
use crate::kind::Kind;
use crate::lines::after_word;
use crate::piece::{Piece, count};
use crate::story::{LOGIN, call_on, lines_between, shows_note};
use histar_script::split_word;
use std::alloc::AllocError;

/// The fewest calls at the beginning of a session that are folded: a link in their place has to save some lines.
const FEWEST_FOLDED: u64 = 3;

/// The call that makes a process.
const SPAWN: &[u8] = b"spawn";

/// The call that makes a directory.
const MKDIR: &[u8] = b"mkdir";

/// Returns how many calls at the beginning of a session are folded.
pub(crate) fn folded_count(script: &[&[u8]], replies: &[&[u8]]) -> u64
    ensures { result ≡ folded_count (texts script.now) (texts replies.now) }
{
    let number = set_up_count(script, replies);
    if number < FEWEST_FOLDED { 0 } else { number }
}

/// Returns how many replies at the front set up a session.
fn set_up_count(script: &[&[u8]], replies: &[&[u8]]) -> u64
    ensures { result ≡ set_up_from (texts script.now) [] (texts replies.now) }
{
    let mut before: &[u8] = &[];
    let mut rest = replies;
    let mut number = 0;
    'replies: while let [reply, more @ ..] = rest {
        if !sets_up(script, before, reply) {
            return number;
        }
        number += 1;
        before = reply;
        rest = more;
    }
    number
}

/// Checks whether the call of a reply is one more that sets up a session, after the reply before it.
fn sets_up(script: &[&[u8]], before: &[u8], reply: &[u8]) -> bool
    ensures { result ≡ sets_up (texts script.now) before.now reply.now }
{
    is_set_up(call_on(script, reply))
        && !is_refused(reply)
        && (before.is_empty() || !has_note(lines_between(script, before, reply)))
}

/// Checks whether a call sets up a session.
fn is_set_up(call: &[u8]) -> bool
    ensures { result ≡ is_set_up call.now }
{
    let word = split_word(after_word(call)).0;
    word == SPAWN || word == LOGIN || word == MKDIR
}

/// Checks whether a comment is shown among these lines of a script, whatever reply they come after.
fn has_note(lines: &[&[u8]]) -> bool
    ensures { (reply : List ℕ) → result ≡ list_any (shows_note reply) (texts lines.now) }
{
    let mut rest = lines;
    'lines: while let [line, more @ ..] = rest {
        if shows_note(line) {
            return true;
        }
        rest = more;
    }
    false
}

/// Adds the link at whose address the folded calls are seen, if there are any.
pub(crate) fn push_set_up_link(pieces: &mut Vec<Piece>, number: u64) -> Result<(), AllocError>
    ensures { OnOk result (items_of pieces.new.items
        ≡ items_of pieces.old.items ++ set_up_link number) }
{
    if number > 0 {
        return count(pieces, Kind::SetUpCalls, number);
    }
    Ok(())
}
