//! The files on a page, with the rights of processes.
ghost use Rattle.std.specs.Prelude.{◌≡◌, ◌++◌, ◌∷◌, [], IfOk, OnOk, map};
ghost use Rattle.std.specs.List.{flat_map};
ghost use Rattle.histar_script.specs.Lines.{lines_of};
ghost use Rattle.histar_page.specs.Texts.{texts};
ghost use Rattle.histar_page.specs.Items.{items_of};
ghost use Rattle.histar_page.specs.Items.Item.{Fixed};
ghost use Rattle.histar_page.specs.declared.markup.Markup.TheVariants.{BeginFiles, EndCell, EndFiles, EndUsers};
ghost use Rattle.histar_page.specs.Files.{cell_items, cells_items, column_items, column_kind, files_items, first_flag};
ghost use Rattle.histar_page.specs.Files.{is_job_cell, job_columns, later_flags, line_items, process_kind, right_item, right_kind};
ghost use Rattle.histar_page.specs.Files.{row_items, runners_of, table_items, user_item};
ghost use Rattle.histar_page.specs.Lines.{words_of};

use crate::drawing::{first_words, row_cells};
use crate::jobs::{is_in_a_job, process_of};
use crate::kind::Kind;
use crate::lines::{lines_in, or_nothing, without_first, words_in};
use crate::markup::Markup;
use crate::piece::{Piece, add, fix, show, spell};
use crate::views::{View, push_framed};
use histar_flat::split_at_first;
use std::alloc::{AllocError, Global};

/// The byte between a process and its rights.
pub(crate) const COLON: u8 = b':';

/// The letter of a right that is withheld.
const WITHHELD: u8 = b'-';

/// Returns the pieces of the part of a page that shows files. The columns of processes in these jobs are set
/// off.
///
/// Each job is compared at most once with each column, and not with each cell.
pub(crate) fn files_pieces<'a>(
    alloc: Global,
    jobs: &[&'a [u8]],
    secrets: &'a [u8],
    table: &'a [u8],
) -> Result<Vec<Piece<'a>>, AllocError>
    ensures { IfOk result (λ pieces. items_of pieces.items ≡ files_items (texts jobs.now)
        (runners_of (lines_of secrets.entry.now)) (lines_of table.entry.now)) }
{
    let lines = lines_in(alloc, table)?;
    let mut pieces = user_pieces(alloc, secrets)?;
    push_table(alloc, &mut pieces, jobs, lines.as_slice())?;
    Ok(pieces)
}

/// Returns the pieces of the users above the columns, as the first line of the secrets has them.
fn user_pieces<'a>(alloc: Global, secrets: &'a [u8]) -> Result<Vec<Piece<'a>>, AllocError>
    ensures { IfOk result (λ pieces. items_of pieces.items ≡ Fixed BeginFiles
        ∷ map user_item (runners_of (lines_of secrets.entry.now)) ++ Fixed EndUsers ∷ []) }
{
    let lines = lines_in(alloc, secrets)?;
    let words = first_words(alloc, lines.as_slice())?;
    let mut pieces = Vec::new(alloc);
    push_framed(
        &mut pieces,
        Markup::BeginFiles,
        View::Users,
        without_first(words.as_slice()),
        Markup::EndUsers,
    )?;
    Ok(pieces)
}

/// Adds the process of each column and the rows of the table.
fn push_table<'a>(
    alloc: Global,
    pieces: &mut Vec<Piece<'a>>,
    jobs: &[&'a [u8]],
    lines: &[&'a [u8]],
) -> Result<(), AllocError>
    ensures { OnOk result (items_of pieces.new.items ≡ items_of pieces.old.items
        ++ table_items (job_columns (texts jobs.now) (texts lines.now)) (texts lines.now)) }
{
    let words = first_words(alloc, lines)?;
    let cells = row_cells(words.as_slice());
    let flags = job_flags(alloc, jobs, cells)?;
    push_columns(pieces, flags.as_slice(), cells)?;
    push_rows(alloc, pieces, flags.as_slice(), lines)
}

/// Returns for each cell whether its process is in one of these jobs.
fn job_flags(alloc: Global, jobs: &[&[u8]], cells: &[&[u8]]) -> Result<Vec<bool>, AllocError>
    ensures { IfOk result (λ flags.
        flags.items ≡ map (is_job_cell (texts jobs.now)) (texts cells.now)) }
{
    let mut flags = Vec::new(alloc);
    let mut rest = cells;
    'cells: while let [cell, more @ ..] = rest {
        flags.push(is_in_a_job(jobs, process_of(cell)))?;
        rest = more;
    }
    Ok(flags)
}

/// Adds the process of each column, and the end of their row.
fn push_columns<'a>(
    pieces: &mut Vec<Piece<'a>>,
    flags: &[bool],
    cells: &[&'a [u8]],
) -> Result<(), AllocError>
    ensures { OnOk result (items_of pieces.new.items
        ≡ items_of pieces.old.items ++ column_items flags.now (texts cells.now)) }
{
    let mut rest = cells;
    let mut later = flags;
    'cells: while let [cell, more @ ..] = rest {
        show(pieces, column_kind(first_flag(later)), process_of(cell))?;
        rest = more;
        later = later_flags(later);
    }
    fix(pieces, Markup::EndColumns)
}

/// Returns whether the first column is that of a process in a job.
fn first_flag(flags: &[bool]) -> bool
    ensures { result ≡ first_flag flags.now }
{
    match flags {
        [] => false,
        [flag, ..] => *flag,
    }
}

/// Returns the flags of the columns after the first.
fn later_flags(flags: &[bool]) -> &[bool]
    ensures { result.now ≡ later_flags flags.entry.now }
{
    match flags {
        [] => flags,
        [_, later @ ..] => later,
    }
}

/// Returns the kind of the process at the head of a column.
fn column_kind(in_job: bool) -> Kind
    ensures { result ≡ column_kind in_job }
{
    if in_job {
        Kind::JobColumn
    } else {
        Kind::Column
    }
}

/// Adds the rows of the table, and its end.
fn push_rows<'a>(
    alloc: Global,
    pieces: &mut Vec<Piece<'a>>,
    flags: &[bool],
    lines: &[&'a [u8]],
) -> Result<(), AllocError>
    ensures { OnOk result (items_of pieces.new.items ≡ items_of pieces.old.items
        ++ flat_map (line_items flags.now) (texts lines.now) ++ Fixed EndFiles ∷ []) }
{
    let mut rest = lines;
    'lines: while let [line, more @ ..] = rest {
        push_row(alloc, pieces, flags, line)?;
        rest = more;
    }
    fix(pieces, Markup::EndFiles)
}

/// Adds a row of the table.
fn push_row<'a>(
    alloc: Global,
    pieces: &mut Vec<Piece<'a>>,
    flags: &[bool],
    line: &'a [u8],
) -> Result<(), AllocError>
    ensures { OnOk result (items_of pieces.new.items
        ≡ items_of pieces.old.items ++ row_items flags.now (words_of line.now)) }
{
    let words = words_in(alloc, line)?;
    push_words(pieces, flags, words.as_slice())
}

/// Adds a row of the table with these words.
fn push_words<'a>(
    pieces: &mut Vec<Piece<'a>>,
    flags: &[bool],
    words: &[&'a [u8]],
) -> Result<(), AllocError>
    ensures { OnOk result (items_of pieces.new.items
        ≡ items_of pieces.old.items ++ row_items flags.now (texts words.now)) }
{
    let [path, kind, owner, mode, cells @ ..] = words else {
        return push_framed(pieces, Markup::BeginRow, View::Stats, words, Markup::EndRow);
    };
    add(
        pieces,
        &[
            Piece::Fixed(Markup::BeginRow),
            Piece::Shown(Kind::Path, path),
            Piece::Shown(Kind::Stat, kind),
            Piece::Shown(Kind::Stat, owner),
            Piece::Shown(Kind::Stat, mode),
        ],
    )?;
    push_cells(pieces, flags, cells)
}

/// Adds processes with their rights, and the end of their row.
fn push_cells<'a>(
    pieces: &mut Vec<Piece<'a>>,
    flags: &[bool],
    cells: &[&'a [u8]],
) -> Result<(), AllocError>
    ensures { OnOk result (items_of pieces.new.items
        ≡ items_of pieces.old.items ++ cells_items flags.now (texts cells.now)) }
{
    let mut rest = cells;
    let mut later = flags;
    'cells: while let [cell, more @ ..] = rest {
        push_cell(pieces, first_flag(later), cell)?;
        rest = more;
        later = later_flags(later);
    }
    fix(pieces, Markup::EndRow)
}

/// Adds a process and its rights.
fn push_cell<'a>(
    pieces: &mut Vec<Piece<'a>>,
    in_job: bool,
    cell: &'a [u8],
) -> Result<(), AllocError>
    ensures { OnOk result (items_of pieces.new.items
        ≡ items_of pieces.old.items ++ cell_items in_job cell.now) }
{
    let (process, rights) = split_at_first(cell, COLON);
    show(pieces, process_kind(in_job), process)?;
    push_rights(pieces, or_nothing(rights))
}

/// Returns the kind of the process of a cell.
fn process_kind(in_job: bool) -> Kind
    ensures { result ≡ process_kind in_job }
{
    if in_job {
        Kind::JobProcess
    } else {
        Kind::Process
    }
}

/// Adds the letters of rights, and the end of their cell.
fn push_rights(pieces: &mut Vec<Piece>, rights: &[u8]) -> Result<(), AllocError>
    ensures { OnOk result (items_of pieces.new.items
        ≡ items_of pieces.old.items ++ map right_item rights.now ++ Fixed EndCell ∷ []) }
{
    let mut rest = rights;
    'rights: while let [letter, more @ ..] = rest {
        spell(pieces, right_kind(*letter), *letter)?;
        rest = more;
    }
    fix(pieces, Markup::EndCell)
}

/// Returns whether the letter of a right is given or withheld.
fn right_kind(letter: u8) -> Kind
    ensures { result ≡ right_kind letter }
{
    if letter == WITHHELD {
        Kind::Withheld
    } else {
        Kind::Granted
    }
}
