//! The users and groups of a script.
ghost use Rattle.std.specs.Prelude.{◌≡◌, ◌++◌, ◌∷◌, [], IfOk, OnOk};
ghost use Rattle.histar_script.specs.Lines.{lines_of};
ghost use Rattle.histar_page.specs.Texts.{texts};
ghost use Rattle.histar_page.specs.Items.{items_of};
ghost use Rattle.histar_page.specs.Items.Item.{Fixed};
ghost use Rattle.histar_page.specs.declared.markup.Markup.TheVariants.{EndWho};
ghost use Rattle.histar_page.specs.Lines.{words_of};
ghost use Rattle.histar_page.specs.Who.{declared_in, declared_items, who_items};

use crate::kind::Kind;
use crate::lines::{lines_in, words_in};
use crate::markup::Markup;
use crate::piece::{Piece, fix, show};
use crate::views::{View, push_each};
use std::alloc::{AllocError, Global};

/// The first word of a line that declares a user.
const USER: &[u8] = b"user";

/// The first word of a line that declares a group.
const GROUP: &[u8] = b"group";

/// Returns the pieces of the part of a page that shows the users and groups of a script, without passwords.
pub(crate) fn who_pieces<'a>(alloc: Global, script: &'a [u8]) -> Result<Vec<Piece<'a>>, AllocError>
    ensures { IfOk result (λ pieces. items_of pieces.items ≡ who_items (lines_of script.entry.now)) }
{
    let lines = lines_in(alloc, script)?;
    let mut pieces = Vec::new(alloc);
    fix(&mut pieces, Markup::BeginWho)?;
    push_declared(alloc, &mut pieces, lines.as_slice())?;
    Ok(pieces)
}

/// Adds the users and groups that lines declare, and their end.
fn push_declared<'a>(
    alloc: Global,
    pieces: &mut Vec<Piece<'a>>,
    lines: &[&'a [u8]],
) -> Result<(), AllocError>
    ensures { OnOk result (items_of pieces.new.items
        ≡ items_of pieces.old.items ++ declared_in (texts lines.now) ++ Fixed EndWho ∷ []) }
{
    let mut rest = lines;
    'lines: while let [line, more @ ..] = rest {
        push_line(alloc, pieces, line)?;
        rest = more;
    }
    fix(pieces, Markup::EndWho)
}

/// Adds the user or the group that a line declares.
fn push_line<'a>(
    alloc: Global,
    pieces: &mut Vec<Piece<'a>>,
    line: &'a [u8],
) -> Result<(), AllocError>
    ensures { OnOk result (items_of pieces.new.items ≡ items_of pieces.old.items
        ++ declared_items (words_of line.now)) }
{
    let words = words_in(alloc, line)?;
    push_words(pieces, words.as_slice())
}

/// Adds the user or the group that these words declare.
fn push_words<'a>(pieces: &mut Vec<Piece<'a>>, words: &[&'a [u8]]) -> Result<(), AllocError>
    ensures { OnOk result (items_of pieces.new.items
        ≡ items_of pieces.old.items ++ declared_items (texts words.now)) }
{
    let [word, name, members @ ..] = words else {
        return Ok(());
    };
    if *word == USER {
        return show(pieces, Kind::UserName, name);
    }
    if *word != GROUP {
        return Ok(());
    }
    show(pieces, Kind::GroupName, name)?;
    push_each(pieces, View::GroupMembers, members)
}
