//! The titles on a page: how each secret is revealed or changed.
ghost use Rattle.std.specs.Prelude.{◌≡◌, ◌++◌, OnOk};
ghost use Rattle.histar_page.specs.Texts.{texts};
ghost use Rattle.histar_page.specs.Items.{items_of};
ghost use Rattle.histar_page.specs.Titles.{title_kind, titles_items};

use crate::kind::Kind;
use crate::lines::has_mark;
use crate::markup::Markup;
use crate::piece::{Piece, fix, show};
use std::alloc::AllocError;

/// The first byte of a line with a title, and of none with a path.
const TITLE_MARK: u8 = b' ';

/// Adds the lines of titles, and the end of the secrets.
pub(crate) fn push_titles<'a>(
    pieces: &mut Vec<Piece<'a>>,
    lines: &[&'a [u8]],
) -> Result<(), AllocError>
    ensures { OnOk result (items_of pieces.new.items
        ≡ items_of pieces.old.items ++ titles_items (texts lines.now)) }
{
    let mut rest = lines;
    'lines: while let [line, more @ ..] = rest {
        show(pieces, title_kind(line), line)?;
        rest = more;
    }
    fix(pieces, Markup::EndSecrets)
}

/// Returns whether a line is the path of a file or a title.
fn title_kind(line: &[u8]) -> Kind
    ensures { result ≡ title_kind line.now }
{
    if has_mark(TITLE_MARK, line) {
        Kind::LeakTitle
    } else {
        Kind::LeakPath
    }
}
