//! The sentences on who may take away what a call made, and on who may write it.
ghost use Rattle.std.specs.Prelude.{◌≡◌, ◌++◌, codes, IfOk, OnOk, option_map};
ghost use Rattle.std.specs.Fmt.{decimal};
ghost use Rattle.histar_policy.specs.Warnings.{may_take, others_may_write, taking_sentence, whom_text, writing_sentence};

use crate::takers::Creation;
use histar_flat::{Name, Path};
use histar_texts::push_path;
use itoa::Buffer;
use std::alloc::{AllocError, Global};

/// Returns the sentence on who may take away what a call made, if there is anybody.
pub(crate) fn taking_sentence(alloc: Global, made: &Creation) -> Result<Option<Vec<u8>>, AllocError>
    ensures { IfOk result (λ said.
        option_map (λ text. text.items) said ≡ taking_sentence made.now) }
{
    let takers = made.takers.names();
    if takers.is_empty() {
        return Ok(None);
    }
    Ok(Some(may_take(alloc, &made.path.path(), takers)?))
}

/// Returns the sentence on who may write what a call made, if there is anybody and no user but the maker wrote
/// there.
pub(crate) fn writing_sentence(
    alloc: Global,
    made: &Creation,
    by_another: bool,
) -> Result<Option<Vec<u8>>, AllocError>
    ensures { IfOk result (λ said.
        option_map (λ text. text.items) said ≡ writing_sentence made.now by_another) }
{
    let writers = made.writers.names();
    if by_another {
        return Ok(None);
    }
    if writers.is_empty() {
        return Ok(None);
    }
    Ok(Some(others_may_write(alloc, &made.path.path(), &made.maker, writers)?))
}

/// Returns the sentence that these may take away what is at a path.
fn may_take(alloc: Global, path: &Path, takers: &[Name]) -> Result<Vec<u8>, AllocError>
    ensures { IfOk result (λ said. said.items ≡ may_take takers.now path.now) }
{
    let mut said = Vec::new(alloc);
    push_whom(&mut said, takers)?;
    said.extend_from_slice(b" may take ")?;
    push_path(alloc, &mut said, path)?;
    said.extend_from_slice(b" away")?;
    Ok(said)
}

/// Returns the sentence that these may write what is at a path, which no one but its maker writes.
fn others_may_write(
    alloc: Global,
    path: &Path,
    maker: &Name,
    writers: &[Name],
) -> Result<Vec<u8>, AllocError>
    ensures { IfOk result (λ said. said.items ≡ others_may_write writers.now path.now maker.now) }
{
    let mut said = Vec::new(alloc);
    push_whom(&mut said, writers)?;
    said.extend_from_slice(b" may write ")?;
    push_path(alloc, &mut said, path)?;
    said.extend_from_slice(b", which no one but ")?;
    said.extend_from_slice(maker.as_bytes())?;
    said.extend_from_slice(b" writes")?;
    Ok(said)
}

/// Adds the names of users, and of more than three how many more there are.
fn push_whom(text: &mut Vec<u8>, whom: &[Name]) -> Result<(), AllocError>
    ensures { OnOk result (text.new.items ≡ text.old.items ++ whom_text whom.now) }
{
    match whom {
        [] => Ok(()),
        [a] => text.extend_from_slice(a.as_bytes()),
        [a, b] => push_two(text, a, b),
        [a, b, c] => push_three(text, a, b, c),
        [a, b, c, more @ ..] => {
            push_three(text, a, b, c)?;
            push_more(text, more.len())
        }
    }
}

/// Adds two names.
fn push_two(text: &mut Vec<u8>, a: &Name, b: &Name) -> Result<(), AllocError>
    ensures { OnOk result (text.new.items ≡ text.old.items ++ a.now ++ codes ", " ++ b.now) }
{
    text.extend_from_slice(a.as_bytes())?;
    text.extend_from_slice(b", ")?;
    text.extend_from_slice(b.as_bytes())
}

/// Adds three names.
fn push_three(text: &mut Vec<u8>, a: &Name, b: &Name, c: &Name) -> Result<(), AllocError>
    ensures { OnOk result (text.new.items
        ≡ text.old.items ++ a.now ++ codes ", " ++ b.now ++ codes ", " ++ c.now) }
{
    push_two(text, a, b)?;
    text.extend_from_slice(b", ")?;
    text.extend_from_slice(c.as_bytes())
}

/// Adds how many more there are.
fn push_more(text: &mut Vec<u8>, count: usize) -> Result<(), AllocError>
    ensures { OnOk result (text.new.items
        ≡ text.old.items ++ codes " and " ++ decimal count ++ codes " more") }
{
    let mut digits = Buffer::new();
    text.extend_from_slice(b" and ")?;
    text.extend_from_slice(digits.format(count).as_bytes())?;
    text.extend_from_slice(b" more")
}
