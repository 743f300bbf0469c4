//! The head of a page.
ghost use Rattle.std.specs.Prelude.{◌≡◌, ◌≤◌, length, filter, IfOk, count_by};
ghost use Rattle.histar_script.specs.Lines.{lines_of};
ghost use Rattle.histar_page.specs.Texts.{texts};
ghost use Rattle.histar_page.specs.Items.{items_of};
ghost use Rattle.histar_page.specs.Callers.{callers};
ghost use Rattle.histar_page.specs.Lines.{is_denied, is_refused, is_reply};
ghost use Rattle.histar_page.specs.Head.{head_items, is_heading, style_items, title_of};

use crate::callers::callers_of;
use crate::kind::Kind;
use crate::lines::{LineKind, after_word, among, is_denied, lines_in};
use crate::markup::Markup;
use crate::piece::Piece;
use crate::story::COMMENT;
use crate::views::{View, push_each};
use histar_script::split_word;
use std::alloc::{AllocError, Global};

/// Returns the pieces of a page up to its style, with a rule for each process that calls.
pub(crate) fn style_pieces<'a>(
    alloc: Global,
    title: &'a [u8],
    script: &'a [u8],
    output: &'a [u8],
) -> Result<Vec<Piece<'a>>, AllocError>
    ensures { IfOk result (λ pieces. items_of pieces.items ≡ style_items title.entry.now
        (callers (lines_of script.entry.now) (filter is_reply (lines_of output.entry.now)))) }
{
    let processes = callers_of(alloc, script, output)?;
    let mut pieces = Vec::from_slice(
        alloc,
        &[
            Piece::Fixed(Markup::Begin),
            Piece::Shown(Kind::Title, title),
            Piece::Fixed(Markup::Style),
        ],
    )?;
    push_each(&mut pieces, View::Rules, processes.as_slice())?;
    Ok(pieces)
}

/// Returns the pieces of the head of a page after its style: the title, the name of the script's file, the numbers of calls, of
/// refusals and of denials in the output, and the version.
pub(crate) fn head_pieces<'a>(
    alloc: Global,
    title: &'a [u8],
    name: &'a [u8],
    version: &'a [u8],
    output: &'a [u8],
) -> Result<Vec<Piece<'a>>, AllocError>
    ensures { IfOk result (λ pieces. items_of pieces.items
        ≡ head_items title.entry.now name.entry.now version.entry.now (lines_of output.entry.now)) }
{
    let lines = lines_in(alloc, output)?;
    let replies = among(alloc, LineKind::Reply, lines.as_slice())?;
    let raw_calls = among(alloc, LineKind::RawCall, lines.as_slice())?;
    Vec::from_slice(
        alloc,
        &[
            Piece::Fixed(Markup::EndStyle),
            Piece::Shown(Kind::MainTitle, title),
            Piece::Shown(Kind::FileName, name),
            Piece::Counted(Kind::Calls, replies.len() as u64),
            Piece::Counted(Kind::Refusals, refusals(replies.as_slice())),
            Piece::Counted(Kind::Denials, denials(raw_calls.as_slice())),
            Piece::Shown(Kind::Version, version),
            Piece::Fixed(Markup::EndHead),
        ],
    )
}

/// Returns the title of a session: the first heading of its script, or the name of its file.
pub(crate) fn title_of<'a>(
    alloc: Global,
    name: &'a [u8],
    script: &'a [u8],
) -> Result<&'a [u8], AllocError>
    ensures { IfOk result (λ title.
        title.now ≡ title_of name.entry.now (lines_of script.entry.now)) }
{
    let lines = lines_in(alloc, script)?;
    Ok(title_among(name, lines.as_slice()))
}

/// Returns the first heading of these lines, or the name.
fn title_among<'a>(name: &'a [u8], lines: &[&'a [u8]]) -> &'a [u8]
    ensures { result.now ≡ title_of name.entry.now (texts lines.now) }
{
    let mut rest = lines;
    'lines: while let [line, more @ ..] = rest {
        if is_heading(line) {
            return after_word(after_word(line));
        }
        rest = more;
    }
    name
}

/// Checks whether a line of a script is a comment that is a heading.
fn is_heading(line: &[u8]) -> bool
    ensures { result ≡ is_heading line.now }
{
    split_word(line).0 == COMMENT && split_word(after_word(line)).0 == COMMENT
}

/// Checks whether a reply is a refusal: it is neither `ok`, with or without more, nor bytes that were read.
pub(crate) fn is_refused(line: &[u8]) -> bool
    ensures { result ≡ is_refused line.now }
{
    match after_word(line) {
        [b'o' | b'=', ..] => false,
        _ => true,
    }
}

/// Returns how many replies are refusals.
fn refusals(replies: &[&[u8]]) -> u64
    ensures { result ≡ length (filter is_refused (texts replies.now)) }
{
    let mut rest = replies;
    let mut number = 0;
    'replies: while let [reply, more @ ..] = rest {
        if is_refused(reply) {
            number += 1;
        }
        rest = more;
    }
    number
}

/// Returns how many raw calls were denied.
fn denials(raw_calls: &[&[u8]]) -> u64
    ensures { result ≡ length (filter is_denied (texts raw_calls.now)) }
{
    let mut rest = raw_calls;
    let mut number = 0;
    'calls: while let [call, more @ ..] = rest {
        if is_denied(call) {
            number += 1;
        }
        rest = more;
    }
    number
}
