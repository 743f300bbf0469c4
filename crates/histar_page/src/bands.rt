//! The bands of a drawing: around the processes of a job, and around the files that they may write.
ghost use Rattle.std.specs.Prelude.{◌≡◌, ◌≤◌, ◌++◌, length, IfOk, OnOk};
ghost use Rattle.std.specs.List.{flat_map, list_any};
ghost use Rattle.histar_page.specs.Texts.{texts};
ghost use Rattle.histar_page.specs.Items.{items_of};
ghost use Rattle.histar_page.specs.Drawing.{bands_of, changes_by, file_bands, line_cells, process_bands};

use crate::drawing::row_cells;
use crate::jobs::{has_letter, is_within, process_of};
use crate::kind::Kind;
use crate::lines::words_in;
use crate::piece::{Piece, count};
use crate::places::{MOST_DRAWN_FILES, MOST_DRAWN_PROCESSES, file_top, process_top};
use std::alloc::{AllocError, Global};

/// Adds the bands of each job, around these processes and the files of these lines.
pub(crate) fn push_jobs<'a>(
    alloc: Global,
    pieces: &mut Vec<Piece<'a>>,
    jobs: &[&'a [u8]],
    cells: &[&'a [u8]],
    lines: &[&'a [u8]],
) -> Result<(), AllocError>
    requires processes { length cells.now ≤ MOST_DRAWN_PROCESSES }
    requires files { length lines.now ≤ MOST_DRAWN_FILES }
    ensures { OnOk result (items_of pieces.new.items ≡ items_of pieces.old.items
        ++ flat_map (bands_of (texts cells.now) (texts lines.now)) (texts jobs.now)) }
{
    let mut rest = jobs;
    'jobs: while let [job, more @ ..] = rest {
        push_process_bands(pieces, job, cells)?;
        push_file_bands(alloc, pieces, job, lines)?;
        rest = more;
    }
    Ok(())
}

/// Adds a band around each process of a job.
fn push_process_bands(
    pieces: &mut Vec<Piece>,
    job: &[u8],
    cells: &[&[u8]],
) -> Result<(), AllocError>
    requires { length cells.now ≤ MOST_DRAWN_PROCESSES }
    ensures { OnOk result (items_of pieces.new.items
        ≡ items_of pieces.old.items ++ process_bands job.now 0 (texts cells.now)) }
{
    let mut rest = cells;
    let mut index = 0;
    'cells: while let [cell, more @ ..] = rest {
        if is_within(job, process_of(cell)) {
            count(pieces, Kind::ProcessBand, process_top(index))?;
        }
        index += 1;
        rest = more;
    }
    Ok(())
}

/// Adds a band around each file that a process of a job may write.
fn push_file_bands(
    alloc: Global,
    pieces: &mut Vec<Piece>,
    job: &[u8],
    lines: &[&[u8]],
) -> Result<(), AllocError>
    requires { length lines.now ≤ MOST_DRAWN_FILES }
    ensures { OnOk result (items_of pieces.new.items
        ≡ items_of pieces.old.items ++ file_bands job.now 0 (texts lines.now)) }
{
    let mut rest = lines;
    let mut index = 0;
    'lines: while let [line, more @ ..] = rest {
        if is_changed(alloc, job, line)? {
            count(pieces, Kind::FileBand, file_top(index))?;
        }
        index += 1;
        rest = more;
    }
    Ok(())
}

/// Checks whether a process of a job may write the file of a line.
fn is_changed(alloc: Global, job: &[u8], line: &[u8]) -> Result<bool, AllocError>
    ensures { IfOk result (λ changed.
        changed ≡ list_any (changes_by job.now) (line_cells line.now)) }
{
    let words = words_in(alloc, line)?;
    Ok(one_changes(job, row_cells(words.as_slice())))
}

/// Checks whether one of these cells is of a process of a job that may write.
fn one_changes(job: &[u8], cells: &[&[u8]]) -> bool
    ensures { result ≡ list_any (changes_by job.now) (texts cells.now) }
{
    let mut rest = cells;
    'cells: while let [cell, more @ ..] = rest {
        if changes(job, cell) {
            return true;
        }
        rest = more;
    }
    false
}

/// Checks whether a cell is of a process of a job that may write.
fn changes(job: &[u8], cell: &[u8]) -> bool
    ensures { result ≡ changes_by job.now cell.now }
{
    is_within(job, process_of(cell)) && has_letter(b'w', cell)
}
