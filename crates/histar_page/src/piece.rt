//! The pieces of a page.
ghost use Rattle.std.specs.Prelude.{◌≡◌, ◌++◌, ◌∷◌, [], decimal, IfOk, OnOk};
ghost use Rattle.histar_page.specs.Items.{item_of, items_of};
ghost use Rattle.histar_page.specs.Items.Item.{Fixed, Shown};
ghost use Rattle.histar_page.specs.Rendering.{item_text, rendered, shown_text};

use crate::escape::push_escaped;
use crate::kind::Kind;
use crate::markup::Markup;
use itoa::Buffer;
use std::alloc::{AllocError, Global};

/// A piece of a page: markup, which doesn't depend on the session, or a text.
#[derive(Clone, Copy)]
pub enum Piece<'a> {
    Fixed(Markup),
    Shown(Kind, &'a [u8]),
    Counted(Kind, u64),
    Letter(Kind, u8),
}

/// Returns pieces that begin with these two fixed texts.
pub(crate) fn begun<'a>(
    alloc: Global,
    first: Markup,
    second: Markup,
) -> Result<Vec<Piece<'a>>, AllocError>
    ensures { IfOk result (λ pieces.
        items_of pieces.items ≡ Fixed first ∷ Fixed second ∷ []) }
{
    Vec::from_slice(alloc, &[Piece::Fixed(first), Piece::Fixed(second)])
}

/// Adds these pieces.
pub(crate) fn add<'a>(pieces: &mut Vec<Piece<'a>>, more: &[Piece<'a>]) -> Result<(), AllocError>
    ensures { OnOk result (items_of pieces.new.items
        ≡ items_of pieces.old.items ++ items_of more.now) }
{
    pieces.extend_from_slice(more)
}

/// Adds a fixed text.
pub(crate) fn fix(pieces: &mut Vec<Piece>, markup: Markup) -> Result<(), AllocError>
    ensures { OnOk result (items_of pieces.new.items
        ≡ items_of pieces.old.items ++ Fixed markup ∷ []) }
{
    pieces.extend_from_slice(&[Piece::Fixed(markup)])
}

/// Adds a text of this kind.
pub(crate) fn show<'a>(
    pieces: &mut Vec<Piece<'a>>,
    kind: Kind,
    text: &'a [u8],
) -> Result<(), AllocError>
    ensures { OnOk result (items_of pieces.new.items
        ≡ items_of pieces.old.items ++ Shown kind text.now ∷ []) }
{
    pieces.extend_from_slice(&[Piece::Shown(kind, text)])
}

/// Adds a number of this kind.
pub(crate) fn count(pieces: &mut Vec<Piece>, kind: Kind, number: u64) -> Result<(), AllocError>
    ensures { OnOk result (items_of pieces.new.items
        ≡ items_of pieces.old.items ++ Shown kind (decimal number) ∷ []) }
{
    pieces.extend_from_slice(&[Piece::Counted(kind, number)])
}

/// Adds a letter of this kind.
pub(crate) fn spell(pieces: &mut Vec<Piece>, kind: Kind, letter: u8) -> Result<(), AllocError>
    ensures { OnOk result (items_of pieces.new.items
        ≡ items_of pieces.old.items ++ Shown kind (letter ∷ []) ∷ []) }
{
    pieces.extend_from_slice(&[Piece::Letter(kind, letter)])
}

/// Adds the HTML of these pieces to a page.
pub(crate) fn render(page: &mut Vec<u8>, pieces: &[Piece]) -> Result<(), AllocError>
    ensures { OnOk result (page.new.items ≡ page.old.items ++ rendered (items_of pieces.now)) }
{
    let mut rest = pieces;
    'pieces: while let [piece, more @ ..] = rest {
        render_piece(page, piece)?;
        rest = more;
    }
    Ok(())
}

/// Adds the HTML of a piece.
fn render_piece(page: &mut Vec<u8>, piece: &Piece) -> Result<(), AllocError>
    ensures { OnOk result (page.new.items ≡ page.old.items ++ item_text (item_of piece.now)) }
{
    match piece {
        Piece::Fixed(markup) => page.extend_from_slice(markup.text()),
        Piece::Shown(kind, text) => render_text(page, *kind, text),
        Piece::Counted(kind, number) => {
            render_text(page, *kind, Buffer::new().format(*number).as_bytes())
        }
        Piece::Letter(kind, letter) => render_text(page, *kind, &[*letter]),
    }
}

/// Adds a text of this kind between its tags.
fn render_text(page: &mut Vec<u8>, kind: Kind, text: &[u8]) -> Result<(), AllocError>
    ensures { OnOk result (page.new.items ≡ page.old.items ++ shown_text kind text.now) }
{
    page.extend_from_slice(kind.opening())?;
    push_escaped(page, text)?;
    page.extend_from_slice(kind.closing())
}
