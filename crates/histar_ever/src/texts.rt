//! The text of what was gathered.
ghost use Rattle.std.specs.Prelude.{◌≡◌, ◌++◌, IfOk, OnOk};
ghost use Rattle.std.specs.List.{flat_map};
ghost use Rattle.histar_ever.specs.Gathering.{IsGatheredText, gathered_cell, gathered_line};

use crate::ever::Ever;
use histar_flat::{Path, ProcName};
use histar_texts::{push_path, push_process};
use std::alloc::{AllocError, Global};

/// Returns a line for each path, with the letters that each process had there.
pub(crate) fn ever_text(alloc: Global, ever: &Ever) -> Result<Vec<u8>, AllocError>
    ensures { IfOk result (λ text. IsGatheredText ever.now text.items) }
{
    let paths = ever.paths(alloc)?;
    let processes = ever.processes(alloc)?;
    lines_text(alloc, ever, paths.as_slice(), processes.as_slice())
}

/// Returns the lines of these paths, for these processes.
fn lines_text(
    alloc: Global,
    ever: &Ever,
    paths: &[Path],
    processes: &[ProcName],
) -> Result<Vec<u8>, AllocError>
    ensures { IfOk result (λ text.
        text.items ≡ flat_map (gathered_line ever.now.letters processes.now) paths.now) }
{
    let mut text = Vec::new(alloc);
    for path in paths {
        push_line(&mut text, ever, path, processes)?;
    }
    Ok(text)
}

/// Adds the line of a path: the path, the cell of each process, and a line end.
fn push_line(
    text: &mut Vec<u8>,
    ever: &Ever,
    path: &Path,
    processes: &[ProcName],
) -> Result<(), AllocError>
    ensures { OnOk result (text.new.items
        ≡ text.old.items ++ gathered_line ever.now.letters processes.now path.now) }
{
    push_path(*text.allocator(), text, path)?;
    push_cells(text, ever, path, processes)?;
    text.extend_from_slice(b"\n")
}

/// Adds the cells of these processes at a path.
fn push_cells(
    text: &mut Vec<u8>,
    ever: &Ever,
    path: &Path,
    processes: &[ProcName],
) -> Result<(), AllocError>
    ensures { OnOk result (text.new.items
        ≡ text.old.items ++ flat_map (gathered_cell ever.now.letters path.now) processes.now) }
{
    for process in processes {
        push_cell(text, ever, path, process)?;
    }
    Ok(())
}

/// Adds a space, the process, a colon and its letters at a path.
fn push_cell(
    text: &mut Vec<u8>,
    ever: &Ever,
    path: &Path,
    process: &ProcName,
) -> Result<(), AllocError>
    ensures { OnOk result (text.new.items
        ≡ text.old.items ++ gathered_cell ever.now.letters path.now process.now) }
{
    text.extend_from_slice(b" ")?;
    push_process(*text.allocator(), text, process)?;
    text.extend_from_slice(b":")?;
    ever.letters(path, process).push_letters(text)
}
