//! Reading labels.
ghost use Rattle.std.specs.Prelude.{◌≡◌, ◌==◌, IfOk, OnErr, map};
ghost use Rattle.std.specs.List.{slice_split};
ghost use Rattle.histar_rawtext.specs.Memory.{OnOutOfMemory};
ghost use Rattle.histar_rawtext.specs.Outcome.{Gives};
ghost use Rattle.histar_rawtext.specs.Reading.{category_in, level_in, exception_in, label_in};

use crate::read_words::read_number;
use crate::unread::Unread;
use histar_flat::split_at_first;
use histar_heap::Heap;
use histar_label::{Category, Label, Level};
use histar_rules::HandedLabel;
use std::alloc::AllocError;

/// Reads the level at the front of a text.
fn read_level(text: &[u8]) -> Result<Level, Unread>
    ensures exact { Gives result (level_in text.now) }
    ensures memory { OnOutOfMemory result ⊥ }
{
    match text {
        [b'*', ..] => Ok(Level::Star),
        [b'0', ..] => Ok(Level::L0),
        [b'1', ..] => Ok(Level::L1),
        [b'2', ..] => Ok(Level::L2),
        [b'3', ..] => Ok(Level::L3),
        _ => Err(Unread::NoCall),
    }
}

/// Reads a category: a number from 1 on.
fn read_category(word: &[u8]) -> Result<Category, Unread>
    ensures exact { Gives result (category_in word.now) }
    ensures memory { OnOutOfMemory result ⊥ }
{
    let number = read_number(word)?;
    if number < 1 {
        return Err(Unread::NoCall);
    }
    Ok(Category::new(number))
}

/// Reads an exception: its category and its level, with a colon between.
#[tactic(auto, unfolding(crate::specs::Reading::exception_in))]
fn read_exception(text: &[u8]) -> Result<(Category, Level), Unread>
    ensures exact { Gives result (exception_in text.now) }
    ensures memory { OnOutOfMemory result ⊥ }
{
    let (category, level) = split_at_first(text, b':');
    let category = read_category(category)?;
    let Some(level) = level else {
        return Err(Unread::NoCall);
    };
    Ok((category, read_level(level)?))
}

/// Splits a text at its commas.
fn split_at_commas<H: Heap>(heap: H, text: &[u8]) -> Result<Vec<&[u8]>, AllocError>
    ensures ok { IfOk result (λ parts.
        map (λ part. part.now) parts.items ≡ slice_split (λ b. b == 44) text.now) }
    ensures memory { OnErr result H.Refused }
{
    let mut parts = Vec::new(heap.alloc());
    let mut rest = Some(text);
    'commas: while let Some(left) = rest {
        let (part, after) = split_at_first(left, b',');
        heap.push(&mut parts, part)?;
        rest = after;
    }
    Ok(parts)
}

/// Reads a label: after a brace its exceptions and its default, with a comma between two.
fn read_label<H: Heap>(heap: H, word: &[u8]) -> Result<Label, Unread>
    ensures exact { Gives result (label_in word.now) }
    ensures memory { OnOutOfMemory result H.Refused }
{
    let [_, text @ ..] = word else {
        return Err(Unread::NoCall);
    };
    let mut parts = split_at_commas(heap, text)?;
    let Some(default) = parts.pop() else {
        return Err(Unread::NoCall);
    };
    let mut label = Label::new(heap.alloc(), read_level(default)?);
    while let Some(part) = parts.pop() {
        let (category, level) = read_exception(part)?;
        label.set(heap, category, level)?;
    }
    Ok(label)
}

/// Reads a label that a raw call is given.
pub(crate) fn read_handed<H: Heap>(heap: H, word: &[u8]) -> Result<HandedLabel, Unread>
    ensures exact { Gives result (label_in word.now) }
    ensures memory { OnOutOfMemory result H.Refused }
{
    let label = read_label(heap, word)?;
    Ok(HandedLabel::new(heap, label)?)
}
