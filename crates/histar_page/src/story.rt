//! The story of a session: each call with its reply and the reason of its refusal, and the comments of the script
//! between the calls.
ghost use Rattle.std.specs.Prelude.{◌≡◌, ◌++◌, ◌∷◌, [], drop, map, ℕ, List, OnOk};
ghost use Rattle.std.specs.List.{flat_map};
ghost use Rattle.histar_page.specs.Texts.{texts};
ghost use Rattle.histar_page.specs.Items.{items_of};
ghost use Rattle.histar_page.specs.Story.{answer_items, claim_kind, is_login, line_number, lines_between, note_items};
ghost use Rattle.histar_page.specs.Story.{prose_items, reason_item, reply_kind, shown_call};
ghost use Rattle.histar_page.specs.SetUp.{shows_note};
ghost use Rattle.histar_page.specs.Lines.{call_on};

use crate::head::is_refused;
use crate::kind::Kind;
use crate::lines::{after_word, front_number, has_mark};
use crate::piece::{Piece, add, show};
use histar_script::split_word;
use std::alloc::AllocError;

/// The call whose password is hidden.
pub(crate) const LOGIN: &[u8] = b"login";

/// The first word of a comment that says the reply that is expected.
const EXPECTED: &[u8] = b"#=";

/// The first word of a comment, and of the text of a heading.
pub(crate) const COMMENT: &[u8] = b"#";

/// The first byte of a comment.
const COMMENT_MARK: u8 = b'#';

/// Adds what the lines of a script after this reply show that are no calls.
pub(crate) fn push_notes<'a>(
    pieces: &mut Vec<Piece<'a>>,
    lines: &[&'a [u8]],
    reply: &[u8],
) -> Result<(), AllocError>
    ensures { OnOk result (items_of pieces.new.items
        ≡ items_of pieces.old.items ++ flat_map (note_items reply.now) (texts lines.now)) }
{
    let mut rest = lines;
    'lines: while let [line, more @ ..] = rest {
        push_note(pieces, line, reply)?;
        rest = more;
    }
    Ok(())
}

/// Adds what a line of a script after this reply shows, if it is a comment.
fn push_note<'a>(
    pieces: &mut Vec<Piece<'a>>,
    line: &'a [u8],
    reply: &[u8],
) -> Result<(), AllocError>
    ensures { OnOk result (items_of pieces.new.items
        ≡ items_of pieces.old.items ++ note_items reply.now line.now) }
{
    let word = split_word(line).0;
    let rest = after_word(line);
    if word == EXPECTED {
        return show(pieces, claim_kind(reply, rest), rest);
    }
    if word == COMMENT {
        return push_prose(pieces, rest);
    }
    if has_mark(COMMENT_MARK, line) {
        return show(pieces, Kind::Mark, line);
    }
    Ok(())
}

/// Checks whether a line of a script is a comment that is shown, whatever reply it comes after.
pub(crate) fn shows_note(line: &[u8]) -> bool
    ensures { (reply : List ℕ) → result ≡ shows_note reply line.now }
{
    let word = split_word(line).0;
    if word == EXPECTED {
        return true;
    }
    if word == COMMENT {
        return !after_word(line).is_empty();
    }
    has_mark(COMMENT_MARK, line)
}

/// Returns the kind of an expected reply, by the reply before it.
fn claim_kind(reply: &[u8], expected: &[u8]) -> Kind
    ensures { result ≡ claim_kind reply.now expected.now }
{
    if expected == after_word(reply) {
        Kind::ClaimMet
    } else {
        Kind::ClaimMissed
    }
}

/// Adds the text of a comment: a heading, a sentence, or nothing if it is empty.
fn push_prose<'a>(pieces: &mut Vec<Piece<'a>>, text: &'a [u8]) -> Result<(), AllocError>
    ensures { OnOk result (items_of pieces.new.items
        ≡ items_of pieces.old.items ++ prose_items text.now) }
{
    if text.is_empty() {
        return Ok(());
    }
    if split_word(text).0 == COMMENT {
        show(pieces, Kind::Heading, after_word(text))
    } else {
        show(pieces, Kind::Prose, text)
    }
}

/// Adds the number of a line, its call and the reply.
pub(crate) fn push_answer<'a>(
    pieces: &mut Vec<Piece<'a>>,
    script: &[&'a [u8]],
    line: &'a [u8],
) -> Result<(), AllocError>
    ensures { OnOk result (items_of pieces.new.items
        ≡ items_of pieces.old.items ++ answer_items (texts script.now) line.now) }
{
    show(pieces, Kind::LineNumber, split_word(line).0)?;
    push_call(pieces, call_on(script, line))?;
    show(pieces, reply_kind(line), after_word(line))
}

/// Adds the text of a call, without the password of a login.
fn push_call<'a>(pieces: &mut Vec<Piece<'a>>, call: &'a [u8]) -> Result<(), AllocError>
    ensures { OnOk result (items_of pieces.new.items
        ≡ items_of pieces.old.items ++ shown_call call.now) }
{
    if !is_login(call) {
        return show(pieces, Kind::Call, call);
    }
    let user = split_word(after_word(after_word(call))).0;
    add(
        pieces,
        &[
            Piece::Shown(Kind::LoginBy, split_word(call).0),
            Piece::Shown(Kind::LoginAs, user),
        ],
    )
}

/// Checks whether a call is a login.
fn is_login(call: &[u8]) -> bool
    ensures { result ≡ is_login call.now }
{
    split_word(after_word(call)).0 == LOGIN
}

/// Returns the kind of a reply: that of a call that was made, or a refusal.
fn reply_kind(line: &[u8]) -> Kind
    ensures { result ≡ reply_kind line.now }
{
    if is_refused(line) {
        Kind::Refusal
    } else {
        Kind::Reply
    }
}

/// Returns the line of a script that a reply answers.
pub(crate) fn call_on<'a>(script: &[&'a [u8]], reply: &[u8]) -> &'a [u8]
    ensures { result.now ≡ call_on (texts script.now) reply.now }
{
    let Some(number) = front_number(reply) else {
        return &[];
    };
    match script.get((number as usize).saturating_sub(1)) {
        Some(line) => line,
        None => &[],
    }
}

/// Returns the number of the line that a reply answers, or 0.
fn line_number(reply: &[u8]) -> usize
    ensures { result ≡ line_number reply.now }
{
    match front_number(reply) {
        Some(number) => number as usize,
        None => 0,
    }
}

/// Returns the lines of a script after the call of a reply.
pub(crate) fn lines_after<'s, 'a>(script: &'s [&'a [u8]], reply: &[u8]) -> &'s [&'a [u8]]
    ensures { texts result.now ≡ drop (line_number reply.now) (texts script.entry.now) }
{
    let (_, later) = script.split_at(line_number(reply).min(script.len()));
    later
}

/// Returns the lines of a script after the call of one reply and before that of the next.
pub(crate) fn lines_between<'s, 'a>(
    script: &'s [&'a [u8]],
    before: &[u8],
    reply: &[u8],
) -> &'s [&'a [u8]]
    ensures { texts result.now ≡ lines_between (texts script.entry.now) before.now reply.now }
{
    let later = lines_after(script, before);
    let count = line_number(reply)
        .saturating_sub(1)
        .saturating_sub(line_number(before));
    let (between, _) = later.split_at(count.min(later.len()));
    between
}
