//! The whole page.
ghost use Rattle.std.specs.Prelude.{◌≡◌, ◌++◌, [], ◌∷◌, true, IfOk, is_ok, OnOk};
ghost use Rattle.histar_page.specs.Items.{items_of};
ghost use Rattle.histar_page.specs.Items.Item.{Fixed};
ghost use Rattle.histar_page.specs.Rendering.{rendered};
ghost use Rattle.histar_page.specs.Laws.{PagesNest};
ghost use Rattle.histar_page.specs.Page.{drawing_shown, files_shown, head_shown, is_long, page_of, rights_shown};
ghost use Rattle.histar_page.specs.Page.{secrets_shown, sources_of};

use crate::drawing::{drawing_pieces, undrawn_pieces};
use crate::files::files_pieces;
use crate::flows::flows_pieces;
use crate::head::{head_pieces, style_pieces, title_of};
use crate::jobs::jobs_of;
use crate::markup::Markup;
use crate::piece::{Piece, fix, render};
use crate::secrets::secrets_pieces;
use crate::session::session_pieces;
use crate::who::who_pieces;
use std::alloc::{AllocError, Global};

/// The most bytes of a text on rights that is shown. They grow as the paths times the processes, and the session as its
/// lines.
const MOST_SHOWN_BYTES: usize = 1_000_000;

/// The texts that a page is made of.
#[derive(Clone, Copy)]
pub struct Texts<'a> {
    /// The name of the script's file.
    pub name: &'a [u8],
    /// The version of the program.
    pub version: &'a [u8],
    pub script: &'a [u8],
    /// What a run of the script writes, with its trace and its explanations.
    pub output: &'a [u8],
    /// What a run of the script writes with the reasons of refused calls.
    pub reasons: &'a [u8],
    /// What `access` writes of the script.
    pub table: &'a [u8],
    /// The lines on secrets: one of the processes with their users, and then one for each file that not
    /// everyone may read.
    pub secrets: &'a [u8],
    /// The lines on how each of these files is revealed or changed: its path, and then the titles of what `leak`
    /// writes of it.
    pub titles: &'a [u8],
    /// What `flows` writes of the script.
    pub flows: &'a [u8],
}

/// Returns the page of a session.
///
/// A part is freed as soon as it is written. The files and the drawing are left out where the table has more than 1,000,000
/// bytes, and the secrets where their lines do: so a page grows as its session, and not as its square.
pub fn page_text(alloc: Global, texts: &Texts) -> Result<Vec<u8>, AllocError>
    ensures { IfOk result (λ page. page.items ≡ page_of (sources_of texts.now)) }
{
    let mut page = Vec::new(alloc);
    render_head(alloc, &mut page, texts)?;
    render_part(
        &mut page,
        session_pieces(alloc, texts.script, texts.output, texts.reasons),
    )?;
    render_rights(alloc, &mut page, texts)?;
    Ok(page)
}

/// Adds the head, and the users and groups.
fn render_head(alloc: Global, page: &mut Vec<u8>, texts: &Texts) -> Result<(), AllocError>
    ensures { OnOk result (page.new.items
        ≡ page.old.items ++ rendered (head_shown (sources_of texts.now))) }
{
    let title = title_of(alloc, texts.name, texts.script)?;
    render_part(page, style_pieces(alloc, title, texts.script, texts.output))?;
    render_part(
        page,
        head_pieces(alloc, title, texts.name, texts.version, texts.output),
    )?;
    render_part(page, who_pieces(alloc, texts.script))
}

/// Adds the parts that show rights: the files, the secrets with their titles, the flows and the drawing.
fn render_rights(alloc: Global, page: &mut Vec<u8>, texts: &Texts) -> Result<(), AllocError>
    ensures { OnOk result (page.new.items
        ≡ page.old.items ++ rendered (rights_shown (sources_of texts.now))) }
{
    render_part(page, files_of(alloc, texts))?;
    render_part(page, secrets_of(alloc, texts))?;
    render_part(page, flows_pieces(alloc, texts.flows))?;
    render_part(page, drawing_of(alloc, texts))
}

/// Adds the HTML of a part, if there was memory for its pieces.
fn render_part(page: &mut Vec<u8>, part: Result<Vec<Piece>, AllocError>) -> Result<(), AllocError>
    ensures { OnOk result ((is_ok part.entry ≡ true) × IfOk part.entry (λ pieces.
        page.new.items ≡ page.old.items ++ rendered (items_of pieces.items))) }
{
    let pieces = part?;
    render(page, pieces.as_slice())
}

/// Returns the pieces of the part that shows files.
fn files_of<'a>(alloc: Global, texts: &Texts<'a>) -> Result<Vec<Piece<'a>>, AllocError>
    ensures { IfOk result (λ pieces. items_of pieces.items ≡ files_shown (sources_of texts.now)) }
{
    if is_long(texts.table) {
        return left_out(alloc, Markup::FilesLeftOut);
    }
    let jobs = jobs_of(alloc, texts.script, texts.output)?;
    files_pieces(alloc, jobs.as_slice(), texts.secrets, texts.table)
}

/// Returns the pieces of the part that shows secrets.
fn secrets_of<'a>(alloc: Global, texts: &Texts<'a>) -> Result<Vec<Piece<'a>>, AllocError>
    ensures { IfOk result (λ pieces. items_of pieces.items ≡ secrets_shown (sources_of texts.now)) }
{
    if is_long(texts.secrets) {
        return left_out(alloc, Markup::SecretsLeftOut);
    }
    secrets_pieces(
        alloc,
        texts.script,
        texts.output,
        texts.secrets,
        texts.titles,
    )
}

/// Returns the pieces of the part that shows the drawing.
fn drawing_of<'a>(alloc: Global, texts: &Texts<'a>) -> Result<Vec<Piece<'a>>, AllocError>
    ensures { IfOk result (λ pieces. items_of pieces.items ≡ drawing_shown (sources_of texts.now)) }
{
    if is_long(texts.table) {
        return undrawn_pieces(alloc);
    }
    drawing_pieces(alloc, texts.script, texts.output, texts.table)
}

/// Returns the piece of a part that is left out, which says so.
fn left_out<'a>(alloc: Global, said: Markup) -> Result<Vec<Piece<'a>>, AllocError>
    ensures { IfOk result (λ pieces. items_of pieces.items ≡ Fixed said ∷ []) }
{
    let mut pieces = Vec::new(alloc);
    fix(&mut pieces, said)?;
    Ok(pieces)
}

/// Checks whether a text on rights is too long to be shown.
pub fn is_long(text: &[u8]) -> bool
    ensures { result ≡ is_long text.now }
{
    text.len() > MOST_SHOWN_BYTES
}

/// Shows that the tags of a page nest: a reader of any page is in no element before it and after it, and each element is
/// ended in its turn. The law is the contract of a function that does nothing.
pub fn pages_nest()
    ensures { PagesNest }
{}
