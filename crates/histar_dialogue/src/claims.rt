//! What a session may claim of a path: the rights of each running process.
ghost use Rattle.std.specs.Prelude.{◌≡◌, ◌<◌, ◌++◌, ◌∷◌, IfOk, OnOk, length};
ghost use Rattle.std.specs.List.{flat_map};
ghost use Rattle.histar_dialogue.specs.Claims.{claim_of, claims_at, claims_on, rights_on};
ghost use Rattle.histar_page.specs.Lines.{after_word, words_of};
ghost use Rattle.histar_script.specs.Lines.{lines_of};

use histar_flat::{Path, split_at_first};
use histar_script::{split_line, split_word};
use histar_texts::push_path;
use std::alloc::{AllocError, Global};

/// Returns what a table claims of a path: a comment for each running process.
pub(crate) fn claims_at(alloc: Global, table: &[u8], path: &Path) -> Result<Vec<u8>, AllocError>
    ensures { IfOk result (λ claims. claims.items ≡ claims_at path.now (lines_of table.now)) }
{
    let mut name = Vec::new(alloc);
    push_path(alloc, &mut name, path)?;
    let mut claims = Vec::new(alloc);
    push_claims(&mut claims, table, name.as_slice())?;
    Ok(claims)
}

/// Adds what the lines of a table claim of the path of this name.
fn push_claims(claims: &mut Vec<u8>, table: &[u8], path: &[u8]) -> Result<(), AllocError>
    ensures { OnOk result (claims.new.items
        ≡ claims.old.items ++ flat_map (claims_on path.now) (lines_of table.now)) }
{
    let mut rest = table;
    'lines: while !rest.is_empty() {
        let (line, after) = split_line(rest);
        push_claims_on(claims, line, path)?;
        rest = after;
    }
    Ok(())
}

/// Adds what a line of a table claims, if it is of the path of this name.
fn push_claims_on(claims: &mut Vec<u8>, line: &[u8], path: &[u8]) -> Result<(), AllocError>
    ensures { OnOk result (claims.new.items ≡ claims.old.items ++ claims_on path.now line.now) }
{
    let (word, _) = split_word(line);
    if word == path {
        push_rights(claims, rights_on(line), path)?;
    }
    Ok(())
}

/// Adds a claim for each of the words `PROC:RIGHTS`.
fn push_rights(claims: &mut Vec<u8>, rights: &[u8], path: &[u8]) -> Result<(), AllocError>
    ensures { OnOk result (claims.new.items
        ≡ claims.old.items ++ flat_map (claim_of path.now) (words_of rights.now)) }
{
    let mut rest = rights;
    'words: while !rest.is_empty() {
        let (word, after) = next_word(rest);
        push_claim(claims, word, path)?;
        rest = after;
    }
    Ok(())
}

/// Adds the claim of a word `PROC:RIGHTS`.
fn push_claim(claims: &mut Vec<u8>, word: &[u8], path: &[u8]) -> Result<(), AllocError>
    ensures { OnOk result (claims.new.items ≡ claims.old.items ++ claim_of path.now word.now) }
{
    let (process, rights) = split_at_first(word, b':');
    claims.extend_from_slice(b"#! ")?;
    claims.extend_from_slice(path)?;
    claims.push(b' ')?;
    claims.extend_from_slice(process)?;
    claims.push(b' ')?;
    claims.extend_from_slice(rights.unwrap_or(&[]))?;
    claims.push(b'\n')?;
    Ok(())
}

/// Returns the words `PROC:RIGHTS` of a line of a table.
fn rights_on<'a>(line: &'a [u8]) -> &'a [u8]
    ensures { result.now ≡ rights_on line.entry.now }
{
    after_word(after_word(after_word(after_word(line))))
}

/// Returns the first word of a text that is not empty, and what follows it.
fn next_word(text: &[u8]) -> (&[u8], &[u8])
    requires { 0 < length text.now }
    ensures first { words_of text.now ≡ result.0.now ∷ words_of result.1.now }
    ensures shorter { length result.1.now < length text.now }
{
    let (word, _) = split_word(text);
    (word, after_word(text))
}

/// Returns what follows the first word of a text.
fn after_word<'a>(text: &'a [u8]) -> &'a [u8]
    ensures { result.now ≡ after_word text.entry.now }
{
    match split_word(text) {
        (_, Some(rest)) => rest,
        (_, None) => &[],
    }
}
