//! The processes whose calls a session answers, and by what a reader sees the calls of one of them alone.
ghost use Rattle.std.specs.Prelude.{◌≡◌, ◌++◌, IfOk, OnOk, filter};
ghost use Rattle.std.specs.List.{list_all};
ghost use Rattle.histar_script.specs.Lines.{lines_of};
ghost use Rattle.histar_page.specs.Texts.{texts};
ghost use Rattle.histar_page.specs.Items.{items_of};
ghost use Rattle.histar_page.specs.Lines.{is_reply};
ghost use Rattle.histar_page.specs.Callers.{caller, callers, is_among, is_name, is_name_byte, is_next, link_items, rule_items, with_caller};

use crate::kind::Kind;
use crate::lines::{LineKind, among, lines_in};
use crate::piece::{Piece, add};
use crate::story::call_on;
use histar_script::split_word;
use std::alloc::{AllocError, Global};

/// The most processes whose calls can be shown alone. So each call is compared with few, and the style of a page stays small.
pub const MOST_ALONE: usize = 64;

/// Returns the processes of a session, each once, in the order of their first calls that were answered.
pub(crate) fn callers_of<'a>(
    alloc: Global,
    script: &'a [u8],
    output: &'a [u8],
) -> Result<Vec<&'a [u8]>, AllocError>
    ensures { IfOk result (λ found. texts found.items
        ≡ callers (lines_of script.entry.now) (filter is_reply (lines_of output.entry.now))) }
{
    let script = lines_in(alloc, script)?;
    let output = lines_in(alloc, output)?;
    let replies = among(alloc, LineKind::Reply, output.as_slice())?;
    callers_in(alloc, script.as_slice(), replies.as_slice())
}

/// Returns the processes whose calls these replies answer.
pub(crate) fn callers_in<'a>(
    alloc: Global,
    script: &[&'a [u8]],
    replies: &[&'a [u8]],
) -> Result<Vec<&'a [u8]>, AllocError>
    ensures { IfOk result (λ found.
        texts found.items ≡ callers (texts script.now) (texts replies.now)) }
{
    let mut found = Vec::new(alloc);
    let mut rest = replies;
    'replies: while let [reply, more @ ..] = rest {
        push_caller(&mut found, caller(script, reply))?;
        rest = more;
    }
    Ok(found)
}

/// Adds a process, if it comes after these.
fn push_caller<'a>(found: &mut Vec<&'a [u8]>, word: &'a [u8]) -> Result<(), AllocError>
    ensures { OnOk result (texts found.new.items ≡ with_caller (texts found.old.items) word.now) }
{
    if is_next(found.as_slice(), word) {
        return found.extend_from_slice(&[word]);
    }
    Ok(())
}

/// Returns the process whose call a reply answers.
pub(crate) fn caller<'a>(script: &[&'a [u8]], reply: &[u8]) -> &'a [u8]
    ensures { result.now ≡ caller (texts script.now) reply.now }
{
    split_word(call_on(script, reply)).0
}

/// Checks whether a process comes after these.
fn is_next(found: &[&[u8]], word: &[u8]) -> bool
    ensures { result ≡ is_next (texts found.now) word.now }
{
    found.len() < MOST_ALONE && is_name(word) && !is_among(found, word)
}

/// Checks whether a word can be the name of a process. No byte of such a word ends a text in a rule of style.
fn is_name(word: &[u8]) -> bool
    ensures { result ≡ is_name word.now }
{
    !word.is_empty() && are_name_bytes(word)
}

/// Checks whether each of these bytes is a digit or a dot.
fn are_name_bytes(word: &[u8]) -> bool
    ensures { result ≡ list_all is_name_byte word.now }
{
    let mut rest = word;
    'bytes: while let [byte, more @ ..] = rest {
        if !is_name_byte(*byte) {
            return false;
        }
        rest = more;
    }
    true
}

/// Checks whether a byte is a digit or a dot.
fn is_name_byte(byte: u8) -> bool
    ensures { result ≡ is_name_byte byte }
{
    byte == b'.' || (b'0' <= byte && byte <= b'9')
}

/// Checks whether a word is one of these.
fn is_among(words: &[&[u8]], word: &[u8]) -> bool
    ensures { result ≡ is_among (texts words.now) word.now }
{
    let mut rest = words;
    'words: while let [other, more @ ..] = rest {
        if *other == word {
            return true;
        }
        rest = more;
    }
    false
}

/// Adds the link at whose address the calls of a process are shown alone.
pub(crate) fn push_link<'a>(
    pieces: &mut Vec<Piece<'a>>,
    process: &'a [u8],
) -> Result<(), AllocError>
    ensures { OnOk result (items_of pieces.new.items
        ≡ items_of pieces.old.items ++ link_items process.now) }
{
    add(
        pieces,
        &[
            Piece::Shown(Kind::LinkTarget, process),
            Piece::Shown(Kind::LinkAddress, process),
            Piece::Shown(Kind::LinkName, process),
        ],
    )
}

/// Adds the rule of style that hides the calls of all others at this address.
pub(crate) fn push_rule<'a>(
    pieces: &mut Vec<Piece<'a>>,
    process: &'a [u8],
) -> Result<(), AllocError>
    ensures { OnOk result (items_of pieces.new.items
        ≡ items_of pieces.old.items ++ rule_items process.now) }
{
    add(
        pieces,
        &[
            Piece::Shown(Kind::RuleAddress, process),
            Piece::Shown(Kind::RuleCaller, process),
        ],
    )
}
