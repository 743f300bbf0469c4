//! Making sentences.
ghost use Rattle.std.specs.Prelude.{◌≡◌, ◌++◌, IfOk, Some, option_map};

use std::alloc::{AllocError, Global};

/// Returns a sentence.
pub(crate) fn said(alloc: Global, sentence: &str) -> Result<Option<Vec<u8>>, AllocError>
    ensures { IfOk result (λ said. option_map (λ text. text.items) said ≡ Some sentence.now) }
{
    Ok(Some(Vec::from_slice(alloc, sentence.as_bytes())?))
}

/// Returns a sentence that begins with a noun.
pub(crate) fn said_of(alloc: Global, noun: &str, verb: &str) -> Result<Option<Vec<u8>>, AllocError>
    ensures { IfOk result (λ said. option_map (λ text. text.items) said
        ≡ Some (noun.now ++ verb.now)) }
{
    let mut text = Vec::from_slice(alloc, noun.as_bytes())?;
    text.extend_from_slice(verb.as_bytes())?;
    Ok(Some(text))
}
