//! The session on a page: its story, and after each call its raw calls.
ghost use Rattle.std.specs.Prelude.{◌≡◌, ◌≤◌, ◌+◌, ◌++◌, ◌∷◌, [], drop, length, IfOk, OnOk};
ghost use Rattle.histar_script.specs.Lines.{lines_of, split_word};
ghost use Rattle.histar_page.specs.Texts.{texts};
ghost use Rattle.histar_page.specs.Items.{items_of};
ghost use Rattle.histar_page.specs.Items.Item.{Shown};
ghost use Rattle.histar_page.specs.declared.kind.Kind.TheVariants.{LineId};
ghost use Rattle.histar_page.specs.Callers.{callers};
ghost use Rattle.histar_page.specs.Laws.{SessionsAreShown};
ghost use Rattle.histar_page.specs.Order.{past_own, taken_own};
ghost use Rattle.histar_page.specs.MarkedLines.{marked_in, marked_of};
ghost use Rattle.histar_page.specs.Session.{bare_kind, begin_items, boot_items, call_kind, calls_items, kernel_items};
ghost use Rattle.histar_page.specs.Session.{session_items, turn_items, turns_from};
ghost use Rattle.histar_page.specs.Story.{call_items};

use crate::callers::{caller, callers_in};
use crate::kind::Kind;
use crate::lines::{LineKind, among, lines_in, own_count};
use crate::markup::Markup;
use crate::piece::{Piece, add, fix};
use crate::set_up::{folded_count, push_set_up_link};
use crate::story::{lines_after, lines_between, push_answer, push_notes};
use crate::views::{BOOT, View, push_each};
use histar_script::split_word;
use std::alloc::{AllocError, Global};

/// The lines of an output, by their kinds.
#[derive(Clone, Copy)]
struct Lines<'s, 'a> {
    replies: &'s [&'a [u8]],
    reasons: &'s [&'a [u8]],
    raw_calls: &'s [&'a [u8]],
    explanations: &'s [&'a [u8]],
}

/// The lines of an output that belong to one reply, and whether its call is folded.
#[derive(Clone, Copy)]
struct Own<'s, 'a> {
    is_folded: bool,
    reasons: &'s [&'a [u8]],
    raw_calls: &'s [&'a [u8]],
    explanations: &'s [&'a [u8]],
}

/// Returns the pieces of the part of a page that shows a session.
pub(crate) fn session_pieces<'a>(
    alloc: Global,
    script: &'a [u8],
    output: &'a [u8],
    reasons: &'a [u8],
) -> Result<Vec<Piece<'a>>, AllocError>
    ensures { IfOk result (λ pieces. items_of pieces.items ≡ session_items
        (lines_of script.entry.now) (lines_of output.entry.now) (lines_of reasons.entry.now)) }
{
    let script = lines_in(alloc, script)?;
    let output = lines_in(alloc, output)?;
    let reasons = lines_in(alloc, reasons)?;
    line_pieces(
        alloc,
        script.as_slice(),
        output.as_slice(),
        reasons.as_slice(),
    )
}

/// Returns the pieces of the session of these lines of a script, of its output and of its reasons.
fn line_pieces<'a>(
    alloc: Global,
    script: &[&'a [u8]],
    output: &[&'a [u8]],
    reasons: &[&'a [u8]],
) -> Result<Vec<Piece<'a>>, AllocError>
    ensures { IfOk result (λ pieces. items_of pieces.items
        ≡ session_items (texts script.now) (texts output.now) (texts reasons.now)) }
{
    let replies = among(alloc, LineKind::Reply, output)?;
    let reasons = among(alloc, LineKind::Reason, reasons)?;
    let raw_calls = among(alloc, LineKind::RawCall, output)?;
    let explanations = among(alloc, LineKind::Explanation, output)?;
    let lines = Lines {
        replies: replies.as_slice(),
        reasons: reasons.as_slice(),
        raw_calls: raw_calls.as_slice(),
        explanations: explanations.as_slice(),
    };
    let mut pieces = begin_session(alloc, script, lines.replies)?;
    push_session(&mut pieces, script, lines)?;
    Ok(pieces)
}

/// Returns the heading of a session, and a link for each process whose calls these replies answer.
fn begin_session<'a>(
    alloc: Global,
    script: &[&'a [u8]],
    replies: &[&'a [u8]],
) -> Result<Vec<Piece<'a>>, AllocError>
    ensures { IfOk result (λ pieces. items_of pieces.items
        ≡ begin_items (callers (texts script.now) (texts replies.now))) }
{
    let processes = callers_in(alloc, script, replies)?;
    let mut pieces = Vec::new(alloc);
    fix(&mut pieces, Markup::BeginSession)?;
    push_each(&mut pieces, View::Links, processes.as_slice())?;
    Ok(pieces)
}

/// Adds the story of a session, and after each call its raw calls and explanations.
fn push_session<'a>(
    pieces: &mut Vec<Piece<'a>>,
    script: &[&'a [u8]],
    lines: Lines<'_, 'a>,
) -> Result<(), AllocError>
    ensures { OnOk result (items_of pieces.new.items ≡ items_of pieces.old.items
        ++ calls_items (texts script.now) (texts lines.entry.replies.now) (marked_in lines.entry)) }
{
    let boot = own_lines(lines.raw_calls, 0, BOOT);
    let (_, raw_calls) = lines.raw_calls.split_at(boot.len());
    let later = Lines {
        replies: lines.replies,
        reasons: lines.reasons,
        raw_calls,
        explanations: lines.explanations,
    };
    let folded = folded_count(script, lines.replies);
    push_boot(pieces, boot)?;
    push_set_up_link(pieces, folded)?;
    push_calls(pieces, script, later, folded)?;
    fix(pieces, Markup::EndSession)
}

/// Adds the story of the calls, so many of which are folded, each with its own raw calls and explanations, and then those
/// that are left.
fn push_calls<'a>(
    pieces: &mut Vec<Piece<'a>>,
    script: &[&'a [u8]],
    lines: Lines<'_, 'a>,
    folded: u64,
) -> Result<(), AllocError>
    ensures { OnOk result (items_of pieces.new.items ≡ items_of pieces.old.items
        ++ turns_from folded (texts script.now) [] (texts lines.entry.replies.now) (marked_in lines.entry)) }
{
    let mut reason_at = 0;
    let mut raw_at = 0;
    let mut why_at = 0;
    let mut to_fold = folded;
    let mut before: &[u8] = &[];
    'replies: for reply in lines.replies {
        let word = split_word(reply).0;
        let own = Own {
            is_folded: to_fold > 0,
            reasons: own_lines(lines.reasons, reason_at, word),
            raw_calls: own_lines(lines.raw_calls, raw_at, word),
            explanations: own_lines(lines.explanations, why_at, word),
        };
        push_turn(pieces, script, before, reply, own)?;
        reason_at += own.reasons.len();
        raw_at += own.raw_calls.len();
        why_at += own.explanations.len();
        to_fold = to_fold.saturating_sub(1);
        before = reply;
    }
    push_notes(pieces, lines_after(script, before), before)?;
    let (_, other_calls) = lines.raw_calls.split_at(raw_at);
    let (_, other_explanations) = lines.explanations.split_at(why_at);
    push_each(pieces, View::OtherCalls, other_calls)?;
    push_each(pieces, View::OtherExplanations, other_explanations)
}

/// Returns the lines from a place on, up to the first with another word after its mark.
fn own_lines<'b, 'a>(lines: &'b [&'a [u8]], from: usize, word: &[u8]) -> &'b [&'a [u8]]
    requires { from ≤ length lines.now }
    ensures fits { from + length result.now ≤ length lines.entry.now }
    ensures front { texts result.now ≡ taken_own word.now (drop from (texts lines.entry.now)) }
    ensures rest { drop (from + length result.now) (texts lines.entry.now)
        ≡ past_own word.now (drop from (texts lines.entry.now)) }
{
    let (_, later) = lines.split_at(from);
    let (own, _) = later.split_at(own_count(later, word));
    own
}

/// Adds the raw calls of boot.
fn push_boot<'a>(pieces: &mut Vec<Piece<'a>>, boot: &[&'a [u8]]) -> Result<(), AllocError>
    ensures { OnOk result (items_of pieces.new.items
        ≡ items_of pieces.old.items ++ boot_items (texts boot.now)) }
{
    add(
        pieces,
        &[
            Piece::Fixed(Markup::BeginBoot),
            Piece::Shown(Kind::OtherLine, BOOT),
            Piece::Fixed(Markup::BeginBehind),
        ],
    )?;
    push_each(pieces, View::RawCalls, boot)?;
    fix(pieces, Markup::EndCall)
}

/// Adds the comments after the reply before, and then a call with its reply and the lines that belong to it.
fn push_turn<'a>(
    pieces: &mut Vec<Piece<'a>>,
    script: &[&'a [u8]],
    before: &[u8],
    reply: &'a [u8],
    own: Own<'_, 'a>,
) -> Result<(), AllocError>
    ensures { OnOk result (items_of pieces.new.items ≡ items_of pieces.old.items
        ++ turn_items own.entry.is_folded (texts script.now) before.now reply.now (marked_of own.entry)) }
{
    push_notes(pieces, lines_between(script, before, reply), before)?;
    let by = caller(script, reply);
    if own.raw_calls.is_empty() && own.explanations.is_empty() {
        frame(pieces, bare_kind(own.is_folded), by, reply)?;
        push_call(pieces, script, reply, own.reasons)?;
        return fix(pieces, Markup::EndBare);
    }
    frame(pieces, call_kind(own.is_folded), by, reply)?;
    fix(pieces, Markup::BeginSummary)?;
    push_call(pieces, script, reply, own.reasons)?;
    push_kernel(pieces, own.raw_calls, own.explanations)
}

/// Returns the kind of the process of a call that can be opened.
fn call_kind(is_folded: bool) -> Kind
    ensures { result ≡ call_kind is_folded }
{
    if is_folded {
        Kind::SetUpBy
    } else {
        Kind::CallBy
    }
}

/// Returns the kind of the process of a call with nothing behind it.
fn bare_kind(is_folded: bool) -> Kind
    ensures { result ≡ bare_kind is_folded }
{
    if is_folded {
        Kind::BareSetUpBy
    } else {
        Kind::BareBy
    }
}

/// Adds the beginning of the frame of a call: its process, and the number of its line.
fn frame<'a>(
    pieces: &mut Vec<Piece<'a>>,
    kind: Kind,
    by: &'a [u8],
    reply: &'a [u8],
) -> Result<(), AllocError>
    ensures { OnOk result (items_of pieces.new.items ≡ items_of pieces.old.items
        ++ Shown kind by.now ∷ Shown LineId (split_word reply.now).0 ∷ []) }
{
    add(
        pieces,
        &[
            Piece::Shown(kind, by),
            Piece::Shown(Kind::LineId, split_word(reply).0),
        ],
    )
}

/// Adds a call with its reply, and these reasons.
fn push_call<'a>(
    pieces: &mut Vec<Piece<'a>>,
    script: &[&'a [u8]],
    reply: &'a [u8],
    reasons: &[&'a [u8]],
) -> Result<(), AllocError>
    ensures { OnOk result (items_of pieces.new.items ≡ items_of pieces.old.items
        ++ call_items (texts script.now) reply.now (texts reasons.now)) }
{
    push_answer(pieces, script, reply)?;
    push_each(pieces, View::Reasons, reasons)
}

/// Adds the raw calls and explanations of a call, which a reader has to open.
fn push_kernel<'a>(
    pieces: &mut Vec<Piece<'a>>,
    raw_calls: &[&'a [u8]],
    explanations: &[&'a [u8]],
) -> Result<(), AllocError>
    ensures { OnOk result (items_of pieces.new.items ≡ items_of pieces.old.items
        ++ kernel_items (texts raw_calls.now) (texts explanations.now)) }
{
    fix(pieces, Markup::BeginBehind)?;
    push_each(pieces, View::RawCalls, raw_calls)?;
    push_each(pieces, View::Explanations, explanations)?;
    fix(pieces, Markup::EndCall)
}

/// Shows that the session on a page has the story of its script, of its output and of its reasons, and each raw call and
/// each explanation once, in order, and behind the number of its line. The law is the contract of a function that does
/// nothing.
pub fn sessions_are_shown()
    ensures { SessionsAreShown }
{}
