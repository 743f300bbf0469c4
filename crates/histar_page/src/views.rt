//! Words and lines that are shown one by one.
ghost use Rattle.std.specs.Prelude.{◌≡◌, ◌++◌, ◌∷◌, [], OnOk};
ghost use Rattle.histar_page.specs.Texts.{texts};
ghost use Rattle.histar_page.specs.Items.{items_of};
ghost use Rattle.histar_page.specs.Items.Item.{Fixed, Shown};
ghost use Rattle.histar_page.specs.declared.markup.Markup.TheVariants.{BeginBehind, BeginOther};
ghost use Rattle.histar_page.specs.Lines.{mark_number};
ghost use Rattle.histar_page.specs.Secrets.{member_item};
ghost use Rattle.histar_page.specs.Session.{hides_bytes, other_call_items, other_why_items, raw_item, raw_kind};
ghost use Rattle.histar_page.specs.Views.{view_items, views};
ghost use Rattle.histar_page.specs.declared.kind.Kind.TheVariants.{OtherLine};

use crate::callers::{push_link, push_rule};
use crate::files::COLON;
use crate::kind::Kind;
use crate::lines::{after_word, is_denied, mark_number, or_nothing};
use crate::markup::Markup;
use crate::piece::{Piece, add, fix, show};
use crate::secrets::member_kind;
use histar_flat::split_at_first;
use std::alloc::AllocError;

/// The first byte of the bytes in a raw call.
const BYTES_MARK: u8 = b'x';

/// The number of the line on which boot makes its raw calls.
pub(crate) const BOOT: &[u8] = b"0";

/// How words or lines are shown.
#[derive(Clone, Copy)]
pub(crate) enum View {
    RawCalls,
    Explanations,
    /// Reasons of refusals.
    Reasons,
    /// Raw calls that belong to no reply, each after its own number.
    OtherCalls,
    /// Explanations that belong to no reply, each after its own number.
    OtherExplanations,
    /// The user of each word, after its colon.
    Users,
    /// The members of a group.
    GroupMembers,
    /// Words about a path.
    Stats,
    /// Processes and users, each by the word before it.
    Members,
    /// Links to the calls of each process.
    Links,
    /// Rules of style, by which the calls of each process are shown alone.
    Rules,
}

/// Adds words or lines between two fixed texts.
pub(crate) fn push_framed<'a>(
    pieces: &mut Vec<Piece<'a>>,
    before: Markup,
    view: View,
    lines: &[&'a [u8]],
    after: Markup,
) -> Result<(), AllocError>
    ensures { OnOk result (items_of pieces.new.items
        ≡ items_of pieces.old.items ++ Fixed before ∷ views view (texts lines.now) ++ Fixed after ∷ []) }
{
    fix(pieces, before)?;
    push_each(pieces, view, lines)?;
    fix(pieces, after)
}

/// Adds words or lines.
pub(crate) fn push_each<'a>(
    pieces: &mut Vec<Piece<'a>>,
    view: View,
    lines: &[&'a [u8]],
) -> Result<(), AllocError>
    ensures { OnOk result (items_of pieces.new.items
        ≡ items_of pieces.old.items ++ views view (texts lines.now)) }
{
    let mut rest = lines;
    'lines: while let [line, more @ ..] = rest {
        push_one(pieces, view, line)?;
        rest = more;
    }
    Ok(())
}

/// Adds a word or a line.
fn push_one<'a>(pieces: &mut Vec<Piece<'a>>, view: View, text: &'a [u8]) -> Result<(), AllocError>
    ensures { OnOk result (items_of pieces.new.items
        ≡ items_of pieces.old.items ++ view_items view text.now) }
{
    match view {
        View::RawCalls => push_raw(pieces, text),
        View::Explanations => show(pieces, Kind::Explanation, text),
        View::Reasons => show(pieces, Kind::Reason, after_word(text)),
        View::OtherCalls => push_other_call(pieces, text),
        View::OtherExplanations => push_other_explanation(pieces, text),
        View::Users => show(
            pieces,
            Kind::ColumnUser,
            or_nothing(split_at_first(text, COLON).1),
        ),
        View::GroupMembers => show(pieces, Kind::MemberName, text),
        View::Stats => show(pieces, Kind::Stat, text),
        View::Members => push_member(pieces, text),
        View::Links => push_link(pieces, text),
        View::Rules => push_rule(pieces, text),
    }
}

/// Adds a raw call; of one of boot that has bytes what is before these.
fn push_raw<'a>(pieces: &mut Vec<Piece<'a>>, line: &'a [u8]) -> Result<(), AllocError>
    ensures { OnOk result (items_of pieces.new.items
        ≡ items_of pieces.old.items ++ raw_item line.now ∷ []) }
{
    if hides_bytes(line) {
        show(
            pieces,
            Kind::HiddenBytes,
            split_at_first(line, BYTES_MARK).0,
        )
    } else {
        show(pieces, raw_kind(line), line)
    }
}

/// Checks whether a raw call is one of boot that has bytes: they may be a password.
fn hides_bytes(line: &[u8]) -> bool
    ensures { result ≡ hides_bytes line.now }
{
    let (before, bytes) = split_at_first(line, BYTES_MARK);
    mark_number(line) == BOOT && mark_number(before) == BOOT && !is_denied(line) && bytes.is_some()
}

/// Returns whether a raw call was made or denied.
fn raw_kind(line: &[u8]) -> Kind
    ensures { result ≡ raw_kind line.now }
{
    if is_denied(line) {
        Kind::DeniedCall
    } else {
        Kind::RawCall
    }
}

/// Adds a raw call after its own number.
fn push_other_call<'a>(pieces: &mut Vec<Piece<'a>>, line: &'a [u8]) -> Result<(), AllocError>
    ensures { OnOk result (items_of pieces.new.items
        ≡ items_of pieces.old.items ++ other_call_items line.now) }
{
    begin_other(pieces, line)?;
    push_raw(pieces, line)?;
    fix(pieces, Markup::EndCall)
}

/// Adds an explanation after its own number.
fn push_other_explanation<'a>(pieces: &mut Vec<Piece<'a>>, line: &'a [u8]) -> Result<(), AllocError>
    ensures { OnOk result (items_of pieces.new.items
        ≡ items_of pieces.old.items ++ other_why_items line.now) }
{
    begin_other(pieces, line)?;
    show(pieces, Kind::Explanation, line)?;
    fix(pieces, Markup::EndCall)
}

/// Adds the number of a line that belongs to no reply.
fn begin_other<'a>(pieces: &mut Vec<Piece<'a>>, line: &'a [u8]) -> Result<(), AllocError>
    ensures { OnOk result (items_of pieces.new.items
        ≡ items_of pieces.old.items
        ++ Fixed BeginOther ∷ Shown OtherLine (mark_number line.now) ∷ Fixed BeginBehind ∷ []) }
{
    add(
        pieces,
        &[
            Piece::Fixed(Markup::BeginOther),
            Piece::Shown(Kind::OtherLine, mark_number(line)),
            Piece::Fixed(Markup::BeginBehind),
        ],
    )
}

/// Adds a process or a user, by the word before it.
fn push_member<'a>(pieces: &mut Vec<Piece<'a>>, member: &'a [u8]) -> Result<(), AllocError>
    ensures { OnOk result (items_of pieces.new.items
        ≡ items_of pieces.old.items ++ member_item member.now ∷ []) }
{
    let (word, name) = split_at_first(member, COLON);
    show(pieces, member_kind(word), or_nothing(name))
}
