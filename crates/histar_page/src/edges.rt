//! The edges of a drawing: from files to the processes that may read them, and from processes to the files
//! that they may write.
ghost use Rattle.std.specs.Prelude.{◌≡◌, ◌≤◌, ◌++◌, true, length, OnOk};
ghost use Rattle.std.specs.List.{list_all};
ghost use Rattle.histar_page.specs.Texts.{texts};
ghost use Rattle.histar_page.specs.Items.{items_of};
ghost use Rattle.histar_page.specs.Drawing.{cell_edge, edge_kind, is_narrow, row_edges, table_edges};

use crate::drawing::row_cells;
use crate::jobs::{has_letter, process_of};
use crate::kind::Kind;
use crate::lines::words_in;
use crate::piece::{Piece, add};
use crate::places::{HALF_HEIGHT, MOST_DRAWN_FILES, MOST_DRAWN_PROCESSES, file_top, process_top};
use histar_script::split_word;
use std::alloc::{AllocError, Global};

/// Adds the edges of the rows of the table.
pub(crate) fn push_edges<'a>(
    alloc: Global,
    pieces: &mut Vec<Piece<'a>>,
    lines: &[&'a [u8]],
) -> Result<(), AllocError>
    requires few { length lines.now ≤ MOST_DRAWN_FILES }
    requires narrow { list_all is_narrow (texts lines.now) ≡ true }
    ensures { OnOk result (items_of pieces.new.items
        ≡ items_of pieces.old.items ++ table_edges 0 (texts lines.now)) }
{
    let mut rest = lines;
    let mut index = 0;
    'lines: while let [line, more @ ..] = rest {
        let words = words_in(alloc, line)?;
        let cells = row_cells(words.as_slice());
        push_row(pieces, split_word(line).0, index, cells)?;
        index += 1;
        rest = more;
    }
    Ok(())
}

/// Adds the edges between the file with this index and the processes of its cells.
fn push_row<'a>(
    pieces: &mut Vec<Piece<'a>>,
    path: &'a [u8],
    file: usize,
    cells: &[&'a [u8]],
) -> Result<(), AllocError>
    requires file { file ≤ MOST_DRAWN_FILES }
    requires few { length cells.now ≤ MOST_DRAWN_PROCESSES }
    ensures { OnOk result (items_of pieces.new.items
        ≡ items_of pieces.old.items ++ row_edges path.now file 0 (texts cells.now)) }
{
    let mut rest = cells;
    let mut index = 0;
    'cells: while let [cell, more @ ..] = rest {
        push_edge(pieces, path, file, index, cell)?;
        index += 1;
        rest = more;
    }
    Ok(())
}

/// Adds the edge of a cell, if its process may read or write.
fn push_edge<'a>(
    pieces: &mut Vec<Piece<'a>>,
    path: &'a [u8],
    file: usize,
    process: usize,
    cell: &'a [u8],
) -> Result<(), AllocError>
    requires file { file ≤ MOST_DRAWN_FILES }
    requires process { process ≤ MOST_DRAWN_PROCESSES }
    ensures { OnOk result (items_of pieces.new.items
        ≡ items_of pieces.old.items ++ cell_edge path.now file process cell.now) }
{
    let Some(kind) = edge_kind(has_letter(b'r', cell), has_letter(b'w', cell)) else {
        return Ok(());
    };
    add(
        pieces,
        &[
            Piece::Counted(kind, process_top(process) + HALF_HEIGHT),
            Piece::Counted(Kind::EdgeEnd, file_top(file) + HALF_HEIGHT),
            Piece::Shown(Kind::EdgeProcess, process_of(cell)),
            Piece::Shown(Kind::EdgeFile, path),
        ],
    )
}

/// Returns the kind of the edge between a file and a process that may read it or not, and write it or not.
fn edge_kind(reads: bool, writes: bool) -> Option<Kind>
    ensures { result ≡ edge_kind reads writes }
{
    match (reads, writes) {
        (true, true) => Some(Kind::BothEdge),
        (true, false) => Some(Kind::ReadEdge),
        (false, true) => Some(Kind::WriteEdge),
        (false, false) => None,
    }
}
