//! Parts of what subcommands write: the lines of a table that are of one path, and the last of some
//! replies.
ghost use Rattle.std.specs.Prelude.{◌≡◌, ◌++◌, codes, drop, None, IfOk, OnOk, option_map};
ghost use Rattle.std.specs.List.{flat_map};
ghost use Rattle.histar_dialogue.specs.Parts.{expecting, line_at, no_entry_text, or_no_entry, without_number};
ghost use Rattle.histar_flat.specs.Texts.{path_text};
ghost use Rattle.histar_script.specs.Lines.{lines_of};

use histar_flat::Path;
use histar_script::{split_line, split_word};
use histar_texts::push_path;
use std::alloc::{AllocError, Global};

/// Returns the lines of a table that are of a path, or that there is no entry.
pub(crate) fn lines_at(alloc: Global, table: &[u8], path: &Path) -> Result<Vec<u8>, AllocError>
    ensures { IfOk result (λ text. text.items
        ≡ or_no_entry (flat_map (line_at path.now) (lines_of table.now))) }
{
    let mut name = Vec::new(alloc);
    push_path(alloc, &mut name, path)?;
    let mut text = Vec::new(alloc);
    push_lines_of(&mut text, table, path, name.as_slice())?;
    if text.is_empty() {
        return no_entry_text(alloc);
    }
    Ok(text)
}

/// Returns the answer where nothing is at a path.
pub(crate) fn no_entry_text(alloc: Global) -> Result<Vec<u8>, AllocError>
    ensures { IfOk result (λ text. text.items ≡ no_entry_text) }
{
    Vec::from_slice(alloc, b"no entry\n".as_slice())
}

/// Adds the lines of a table that are of a path of this name.
fn push_lines_of(
    text: &mut Vec<u8>,
    table: &[u8],
    path: &Path,
    name: &[u8],
) -> Result<(), AllocError>
    requires { name.now ≡ path_text path.now }
    ensures { OnOk result (text.new.items
        ≡ text.old.items ++ flat_map (line_at path.now) (lines_of table.now)) }
{
    let mut rest = table;
    'lines: while !rest.is_empty() {
        let (line, after) = split_line(rest);
        push_line_of(text, line, path, name)?;
        rest = after;
    }
    Ok(())
}

/// Adds a line of a table, if it is of a path of this name.
fn push_line_of(
    text: &mut Vec<u8>,
    line: &[u8],
    _path: &Path,
    name: &[u8],
) -> Result<(), AllocError>
    requires { name.now ≡ path_text _path.now }
    ensures { OnOk result (text.new.items ≡ text.old.items ++ line_at _path.now line.now) }
{
    let (word, _) = split_word(line);
    if word == name {
        text.extend_from_slice(line)?;
        text.push(b'\n')?;
    }
    Ok(())
}

/// Returns a text without its first bytes.
pub(crate) fn without_first(alloc: Global, text: &[u8], count: usize) -> Result<Vec<u8>, AllocError>
    ensures { IfOk result (λ rest. rest.items ≡ drop count text.now) }
{
    match text.get(count..) {
        Some(rest) => Vec::from_slice(alloc, rest),
        None => Ok(Vec::new(alloc)),
    }
}

/// Returns the comment that expects the last of these replies, if there is one.
pub(crate) fn expecting(alloc: Global, replies: &[u8]) -> Result<Option<Vec<u8>>, AllocError>
    ensures { IfOk result (λ found. option_map (λ line. line.items) found
        ≡ expecting None (lines_of replies.now)) }
{
    let mut found = None;
    let mut rest = replies;
    'lines: while !rest.is_empty() {
        let (line, after) = split_line(rest);
        found = Some(expecting_line(alloc, line)?);
        rest = after;
    }
    Ok(found)
}

/// Returns the comment that expects the reply on a line.
fn expecting_line(alloc: Global, line: &[u8]) -> Result<Vec<u8>, AllocError>
    ensures { IfOk result (λ text. text.items ≡ codes "#= " ++ without_number line.now) }
{
    let mut text = Vec::from_slice(alloc, b"#= ".as_slice())?;
    let (_, reply) = split_word(line);
    text.extend_from_slice(reply.unwrap_or(&[]))?;
    Ok(text)
}
