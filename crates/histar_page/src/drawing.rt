//! The drawing on a page: which process may read and write which file, and the jobs.
ghost use Rattle.std.specs.Prelude.{◌≡◌, ◌≤◌, ◌+◌, ◌-◌, ◌++◌, ◌∷◌, [], decimal, true, length, IfOk, OnOk};
ghost use Rattle.std.specs.List.{list_all};
ghost use Rattle.histar_script.specs.Lines.{lines_of};
ghost use Rattle.histar_page.specs.Texts.{texts};
ghost use Rattle.histar_page.specs.Items.{items_of};
ghost use Rattle.histar_page.specs.Items.Item.{Fixed, Shown};
ghost use Rattle.histar_page.specs.declared.markup.Markup.TheVariants.{Arrows, BeginDrawing, BeginLabels};
ghost use Rattle.histar_page.specs.Drawing.{drawing_items, drawn_items, file_nodes, first_cells, is_drawn, is_narrow};
ghost use Rattle.histar_page.specs.Drawing.{graph_items, process_nodes, row_cells, undrawn_items};
ghost use Rattle.histar_page.specs.Files.{runners_of};
ghost use Rattle.histar_page.specs.Lines.{without_first};
ghost use Rattle.histar_page.specs.declared.kind.Kind.TheVariants.{DrawnHeight, NodeName};

use crate::bands::push_jobs;
use crate::edges::push_edges;
use crate::jobs::{jobs_of, process_of};
use crate::kind::Kind;
use crate::lines::{lines_in, words_in};
use crate::markup::Markup;
use crate::piece::{Piece, add, begun, fix};
use crate::places::{MOST_DRAWN_FILES, MOST_DRAWN_PROCESSES, drawn_height, file_top, process_top};
use histar_script::split_word;
use std::alloc::{AllocError, Global};

/// The words of a line of the table before its cells.
const WORDS_BEFORE_CELLS: usize = 4;

/// Returns the pieces of the part of a page that shows a drawing.
pub(crate) fn drawing_pieces<'a>(
    alloc: Global,
    script: &'a [u8],
    output: &'a [u8],
    table: &'a [u8],
) -> Result<Vec<Piece<'a>>, AllocError>
    ensures { IfOk result (λ pieces. items_of pieces.items ≡ drawing_items
        (lines_of script.entry.now) (lines_of output.entry.now) (lines_of table.entry.now)) }
{
    let lines = lines_in(alloc, table)?;
    if !is_drawn(alloc, lines.as_slice())? {
        return undrawn_pieces(alloc);
    }
    let jobs = jobs_of(alloc, script, output)?;
    drawn_pieces(alloc, jobs.as_slice(), lines.as_slice())
}

/// Returns the pieces of a session that is too large to be drawn.
pub(crate) fn undrawn_pieces<'a>(alloc: Global) -> Result<Vec<Piece<'a>>, AllocError>
    ensures { IfOk result (λ pieces. items_of pieces.items ≡ undrawn_items) }
{
    let mut pieces = begun(alloc, Markup::BeginLabels, Markup::NotDrawn)?;
    fix(&mut pieces, Markup::End)?;
    Ok(pieces)
}

/// Checks whether a session with this table is drawn.
fn is_drawn(alloc: Global, lines: &[&[u8]]) -> Result<bool, AllocError>
    ensures { IfOk result (λ drawn. drawn ≡ is_drawn (texts lines.now)) }
{
    if lines.len() <= MOST_DRAWN_FILES {
        are_narrow(alloc, lines)
    } else {
        Ok(false)
    }
}

/// Checks whether no line has more cells than processes are drawn.
fn are_narrow(alloc: Global, lines: &[&[u8]]) -> Result<bool, AllocError>
    ensures { IfOk result (λ narrow. narrow ≡ list_all is_narrow (texts lines.now)) }
{
    let mut rest = lines;
    'lines: while let [line, more @ ..] = rest {
        if !is_narrow(alloc, line)? {
            return Ok(false);
        }
        rest = more;
    }
    Ok(true)
}

/// Checks whether a line has no more cells than processes are drawn.
fn is_narrow(alloc: Global, line: &[u8]) -> Result<bool, AllocError>
    ensures { IfOk result (λ narrow. narrow ≡ is_narrow line.now) }
{
    let words = words_in(alloc, line)?;
    Ok(words.len() <= WORDS_BEFORE_CELLS + MOST_DRAWN_PROCESSES)
}

/// Returns the pieces of a session that is small enough to be drawn.
fn drawn_pieces<'a>(
    alloc: Global,
    jobs: &[&'a [u8]],
    lines: &[&'a [u8]],
) -> Result<Vec<Piece<'a>>, AllocError>
    requires { is_drawn (texts lines.now) ≡ true }
    ensures { IfOk result (λ pieces.
        items_of pieces.items ≡ drawn_items (texts jobs.now) (texts lines.now)) }
{
    let words = first_words(alloc, lines)?;
    let cells = row_cells(words.as_slice());
    let mut pieces = begun_drawing(alloc, drawn_height(cells.len(), lines.len()))?;
    push_jobs(alloc, &mut pieces, jobs, cells, lines)?;
    push_graph(alloc, &mut pieces, cells, lines)?;
    Ok(pieces)
}

/// Returns the pieces before what a drawing of this height shows.
fn begun_drawing<'a>(alloc: Global, height: u64) -> Result<Vec<Piece<'a>>, AllocError>
    ensures { IfOk result (λ pieces. items_of pieces.items ≡ Fixed BeginLabels
        ∷ Fixed BeginDrawing ∷ Shown DrawnHeight (decimal height) ∷ Fixed Arrows ∷ []) }
{
    Vec::from_slice(
        alloc,
        &[
            Piece::Fixed(Markup::BeginLabels),
            Piece::Fixed(Markup::BeginDrawing),
            Piece::Counted(Kind::DrawnHeight, height),
            Piece::Fixed(Markup::Arrows),
        ],
    )
}

/// Adds the edges and the nodes of a drawing, and its end.
fn push_graph<'a>(
    alloc: Global,
    pieces: &mut Vec<Piece<'a>>,
    cells: &[&'a [u8]],
    lines: &[&'a [u8]],
) -> Result<(), AllocError>
    requires processes { length cells.now ≤ MOST_DRAWN_PROCESSES }
    requires files { length lines.now ≤ MOST_DRAWN_FILES }
    requires narrow { list_all is_narrow (texts lines.now) ≡ true }
    ensures { OnOk result (items_of pieces.new.items
        ≡ items_of pieces.old.items ++ graph_items (texts cells.now) (texts lines.now)) }
{
    push_edges(alloc, pieces, lines)?;
    push_processes(pieces, cells)?;
    push_files(pieces, lines)?;
    add(
        pieces,
        &[Piece::Fixed(Markup::EndDrawing), Piece::Fixed(Markup::End)],
    )
}

/// Returns the words of the first line, or none if there is no line.
pub(crate) fn first_words<'a>(
    alloc: Global,
    lines: &[&'a [u8]],
) -> Result<Vec<&'a [u8]>, AllocError>
    ensures cells { IfOk result (λ words.
        row_cells (texts words.items) ≡ first_cells (texts lines.now)) }
    ensures runners { IfOk result (λ words.
        without_first (texts words.items) ≡ runners_of (texts lines.now)) }
    ensures few { IfOk result (λ words. list_all is_narrow (texts lines.now) ≡ true
        → length words.items ≤ WORDS_BEFORE_CELLS + MOST_DRAWN_PROCESSES) }
{
    match lines {
        [] => Ok(Vec::new(alloc)),
        [first, ..] => words_in(alloc, first),
    }
}

/// Returns the cells among the words of a line.
pub(crate) fn row_cells<'s, 'a>(words: &'s [&'a [u8]]) -> &'s [&'a [u8]]
    ensures cells { texts result.now ≡ row_cells (texts words.entry.now) }
    ensures few { length result.now ≤ length words.entry.now - WORDS_BEFORE_CELLS }
{
    match words {
        [_, _, _, _, cells @ ..] => cells,
        _ => &[],
    }
}

/// Adds a node for each process.
fn push_processes<'a>(pieces: &mut Vec<Piece<'a>>, cells: &[&'a [u8]]) -> Result<(), AllocError>
    requires { length cells.now ≤ MOST_DRAWN_PROCESSES }
    ensures { OnOk result (items_of pieces.new.items
        ≡ items_of pieces.old.items ++ process_nodes 0 (texts cells.now)) }
{
    let mut rest = cells;
    let mut index = 0;
    'cells: while let [cell, more @ ..] = rest {
        push_node(
            pieces,
            Kind::ProcessNode,
            process_top(index),
            process_of(cell),
        )?;
        index += 1;
        rest = more;
    }
    Ok(())
}

/// Adds the node of a process or of a file: how far down it is, and its name.
fn push_node<'a>(
    pieces: &mut Vec<Piece<'a>>,
    kind: Kind,
    top: u64,
    name: &'a [u8],
) -> Result<(), AllocError>
    ensures { OnOk result (items_of pieces.new.items
        ≡ items_of pieces.old.items ++ Shown kind (decimal top) ∷ Shown NodeName name.now ∷ []) }
{
    add(
        pieces,
        &[
            Piece::Counted(kind, top),
            Piece::Shown(Kind::NodeName, name),
        ],
    )
}

/// Adds a node for each file and directory.
fn push_files<'a>(pieces: &mut Vec<Piece<'a>>, lines: &[&'a [u8]]) -> Result<(), AllocError>
    requires { length lines.now ≤ MOST_DRAWN_FILES }
    ensures { OnOk result (items_of pieces.new.items
        ≡ items_of pieces.old.items ++ file_nodes 0 (texts lines.now)) }
{
    let mut rest = lines;
    let mut index = 0;
    'lines: while let [line, more @ ..] = rest {
        push_node(pieces, Kind::FileNode, file_top(index), split_word(line).0)?;
        index += 1;
        rest = more;
    }
    Ok(())
}
