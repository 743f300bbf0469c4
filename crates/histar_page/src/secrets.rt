//! The secrets on a page: each file that not everyone may read, which processes it depends on, what was done with it, and
//! how it is revealed or changed.
ghost use Rattle.std.specs.Prelude.{◌≡◌, ◌++◌, ◌∷◌, IfOk, OnOk, filter, map};
ghost use Rattle.std.specs.List.{flat_map};
ghost use Rattle.histar_script.specs.Lines.{lines_of};
ghost use Rattle.histar_page.specs.Texts.{texts};
ghost use Rattle.histar_page.specs.Items.{items_of};
ghost use Rattle.histar_page.specs.Items.Item.{Fixed, Shown};
ghost use Rattle.histar_page.specs.declared.kind.Kind.TheVariants.{Secret};
ghost use Rattle.histar_page.specs.declared.markup.Markup.TheVariants.{BeginSecret};
ghost use Rattle.histar_page.specs.Files.{runners_of};
ghost use Rattle.histar_page.specs.Lines.{is_reply, without_first, words_of};
ghost use Rattle.histar_page.specs.Secrets.{followed_items, lines_items, member_item, member_kind, note_on};
ghost use Rattle.histar_page.specs.Secrets.{note_on_titles, secret_items, secrets_items};

use crate::drawing::first_words;
use crate::kind::Kind;
use crate::lines::{LineKind, among, lines_in, without_first, words_in};
use crate::markup::Markup;
use crate::piece::{Piece, add, begun, fix};
use crate::titles::push_titles;
use crate::uses::{are_followed, condition_of, push_outsiders, push_uses};
use crate::views::{View, push_each};
use std::alloc::{AllocError, Global};

/// The word before a process that is trusted.
pub(crate) const TRUSTED: &[u8] = b"trusted";

/// The word before a process that is confined.
pub(crate) const CONFINED: &[u8] = b"confined";

/// The lines of a session, beside those of its secrets.
#[derive(Clone, Copy)]
struct Past<'s, 'a> {
    script: &'s [&'a [u8]],
    replies: &'s [&'a [u8]],
    /// The processes that run at its end, each with its user behind a colon.
    runners: &'s [&'a [u8]],
}

/// Returns the pieces of the part of a page that shows secrets: each line of them after the first, and then each
/// line of titles.
pub(crate) fn secrets_pieces<'a>(
    alloc: Global,
    script: &'a [u8],
    output: &'a [u8],
    secrets: &'a [u8],
    titles: &'a [u8],
) -> Result<Vec<Piece<'a>>, AllocError>
    ensures { IfOk result (λ pieces. items_of pieces.items
        ≡ secrets_items (lines_of script.entry.now) (filter is_reply (lines_of output.entry.now))
        (lines_of secrets.entry.now) (lines_of titles.entry.now)) }
{
    let lines = lines_in(alloc, secrets)?;
    let files = without_first(lines.as_slice());
    let titles = lines_in(alloc, titles)?;
    let mut pieces = begun(alloc, Markup::BeginSecrets, note_on(files))?;
    push_lines(alloc, &mut pieces, script, output, lines.as_slice())?;
    note_titles(&mut pieces, files, titles.as_slice())?;
    push_titles(&mut pieces, titles.as_slice())?;
    Ok(pieces)
}

/// Returns the sentence before these lines.
fn note_on(lines: &[&[u8]]) -> Markup
    ensures { result ≡ note_on (texts lines.now) }
{
    if lines.is_empty() {
        Markup::NoSecrets
    } else {
        Markup::OnSecrets
    }
}

/// Adds the sentence before these titles, if there are secrets.
fn note_titles(pieces: &mut Vec<Piece>, files: &[&[u8]], titles: &[&[u8]]) -> Result<(), AllocError>
    ensures { OnOk result (items_of pieces.new.items
        ≡ items_of pieces.old.items ++ note_on_titles (texts files.now) (texts titles.now)) }
{
    if files.is_empty() {
        return Ok(());
    }
    if titles.is_empty() {
        fix(pieces, Markup::NoTitles)
    } else {
        fix(pieces, Markup::OnTitles)
    }
}

/// Adds the lines of the files, which are those after the first.
fn push_lines<'a>(
    alloc: Global,
    pieces: &mut Vec<Piece<'a>>,
    script: &'a [u8],
    output: &'a [u8],
    lines: &[&'a [u8]],
) -> Result<(), AllocError>
    ensures { OnOk result (items_of pieces.new.items ≡ items_of pieces.old.items
        ++ lines_items (lines_of script.entry.now) (filter is_reply (lines_of output.entry.now))
        (runners_of (texts lines.now)) (without_first (texts lines.now))) }
{
    let script = lines_in(alloc, script)?;
    let output = lines_in(alloc, output)?;
    let replies = among(alloc, LineKind::Reply, output.as_slice())?;
    let words = first_words(alloc, lines)?;
    let past = Past {
        script: script.as_slice(),
        replies: replies.as_slice(),
        runners: without_first(words.as_slice()),
    };
    push_files(alloc, pieces, past, without_first(lines))
}

/// Adds the lines of these files, followed through the session or not.
fn push_files<'a>(
    alloc: Global,
    pieces: &mut Vec<Piece<'a>>,
    past: Past<'_, 'a>,
    files: &[&'a [u8]],
) -> Result<(), AllocError>
    ensures { OnOk result (items_of pieces.new.items ≡ items_of pieces.old.items
        ++ lines_items (texts past.entry.script.now) (texts past.entry.replies.now)
        (texts past.entry.runners.now) (texts files.now)) }
{
    if are_followed(files, past.runners) {
        push_all_followed(alloc, pieces, past, files)
    } else {
        push_secrets(alloc, pieces, files)
    }
}

/// Adds the lines of files that are followed through the session.
fn push_all_followed<'a>(
    alloc: Global,
    pieces: &mut Vec<Piece<'a>>,
    past: Past<'_, 'a>,
    files: &[&'a [u8]],
) -> Result<(), AllocError>
    ensures { OnOk result (items_of pieces.new.items ≡ items_of pieces.old.items
        ++ flat_map (λ line. followed_items (texts past.entry.script.now) (texts past.entry.replies.now)
        (texts past.entry.runners.now) (words_of line)) (texts files.now)) }
{
    let mut rest = files;
    'files: while let [line, more @ ..] = rest {
        let words = words_in(alloc, line)?;
        push_followed(pieces, past, words.as_slice())?;
        rest = more;
    }
    Ok(())
}

/// Adds a line with these words: a path, and then processes and users; and what was done with the file.
fn push_followed<'a>(
    pieces: &mut Vec<Piece<'a>>,
    past: Past<'_, 'a>,
    words: &[&'a [u8]],
) -> Result<(), AllocError>
    ensures { OnOk result (items_of pieces.new.items ≡ items_of pieces.old.items
        ++ followed_items (texts past.entry.script.now) (texts past.entry.replies.now)
        (texts past.entry.runners.now) (texts words.now)) }
{
    let [path, members @ ..] = words else {
        return push_words(pieces, words);
    };
    begin_secret(pieces, path, members)?;
    push_outsiders(pieces, members, past.runners)?;
    add(
        pieces,
        &[
            Piece::Fixed(Markup::BeginLaw),
            Piece::Shown(Kind::Secret, path),
            Piece::Fixed(condition_of(members)),
        ],
    )?;
    push_uses(pieces, past.script, path, past.replies)?;
    fix(pieces, Markup::EndSecret)
}

/// Adds the lines of the secrets.
fn push_secrets<'a>(
    alloc: Global,
    pieces: &mut Vec<Piece<'a>>,
    lines: &[&'a [u8]],
) -> Result<(), AllocError>
    ensures { OnOk result (items_of pieces.new.items
        ≡ items_of pieces.old.items ++ flat_map (λ line. secret_items (words_of line)) (texts lines.now)) }
{
    let mut rest = lines;
    'lines: while let [line, more @ ..] = rest {
        push_secret(alloc, pieces, line)?;
        rest = more;
    }
    Ok(())
}

/// Adds a line of the secrets.
fn push_secret<'a>(
    alloc: Global,
    pieces: &mut Vec<Piece<'a>>,
    line: &'a [u8],
) -> Result<(), AllocError>
    ensures { OnOk result (items_of pieces.new.items
        ≡ items_of pieces.old.items ++ secret_items (words_of line.now)) }
{
    let words = words_in(alloc, line)?;
    push_words(pieces, words.as_slice())
}

/// Adds a line with these words: a path, and then processes and users.
fn push_words<'a>(pieces: &mut Vec<Piece<'a>>, words: &[&'a [u8]]) -> Result<(), AllocError>
    ensures { OnOk result (items_of pieces.new.items
        ≡ items_of pieces.old.items ++ secret_items (texts words.now)) }
{
    let [path, members @ ..] = words else {
        return add(
            pieces,
            &[
                Piece::Fixed(Markup::BeginSecret),
                Piece::Fixed(Markup::EndSecret),
            ],
        );
    };
    begin_secret(pieces, path, members)?;
    fix(pieces, Markup::EndSecret)
}

/// Adds the path of a file and its members.
fn begin_secret<'a>(
    pieces: &mut Vec<Piece<'a>>,
    path: &'a [u8],
    members: &[&'a [u8]],
) -> Result<(), AllocError>
    ensures { OnOk result (items_of pieces.new.items ≡ items_of pieces.old.items
        ++ Fixed BeginSecret ∷ Shown Secret path.now ∷ map member_item (texts members.now)) }
{
    add(
        pieces,
        &[
            Piece::Fixed(Markup::BeginSecret),
            Piece::Shown(Kind::Secret, path),
        ],
    )?;
    push_each(pieces, View::Members, members)
}

/// Returns the role of a process or a user towards a file, by the word before it.
pub(crate) fn member_kind(word: &[u8]) -> Kind
    ensures { result ≡ member_kind word.now }
{
    if word == TRUSTED {
        Kind::Trusted
    } else if word == CONFINED {
        Kind::Confined
    } else {
        Kind::LoginReader
    }
}
