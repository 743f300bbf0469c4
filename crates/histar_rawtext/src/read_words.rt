//! Reading the words of a raw call that are numbers, bytes or a gate's entry.
ghost use Rattle.std.specs.Option.{option_copied};
ghost use Rattle.histar_rawtext.specs.Memory.{OnOutOfMemory};
ghost use Rattle.histar_rawtext.specs.Outcome.{Gives, GivesWord};
ghost use Rattle.histar_rawtext.specs.Reading.{number_in, short_number_in, bytes_in, user_in, entry_named, entry_in, next_word};

use crate::unread::Unread;
use histar_base::Bytes;
use histar_flat::split_at_first;
use histar_heap::Heap;
use histar_object::{Entry, ObjId};
use itoa::Buffer;

/// Reads a number, in decimal digits and without a zero before it.
pub(crate) fn read_number(word: &[u8]) -> Result<u64, Unread>
    ensures exact { Gives result (number_in word.now) }
    ensures memory { OnOutOfMemory result ⊥ }
{
    let Ok(text) = std::str::from_utf8(word) else {
        return Err(Unread::NoCall);
    };
    let Ok(number) = text.parse::<u64>() else {
        return Err(Unread::NoCall);
    };
    let mut digits = Buffer::new();
    if digits.format(number).as_bytes() != word {
        return Err(Unread::NoCall);
    }
    Ok(number)
}

/// Reads the number of an object.
pub(crate) fn read_object(word: &[u8]) -> Result<ObjId, Unread>
    ensures exact { Gives result (number_in word.now) }
    ensures memory { OnOutOfMemory result ⊥ }
{
    Ok(ObjId::new(read_number(word)?))
}

/// Reads a number of 32 bits.
pub(crate) fn read_short_number(word: &[u8]) -> Result<u32, Unread>
    ensures exact { Gives result (short_number_in word.now) }
    ensures memory { OnOutOfMemory result ⊥ }
{
    let number = read_number(word)?;
    if number > u64::from(u32::MAX) {
        return Err(Unread::NoCall);
    }
    Ok(number as u32)
}

/// Reads the number of a user, from 1 on.
fn read_user(word: &[u8]) -> Result<u8, Unread>
    ensures exact { Gives result (user_in word.now) }
    ensures memory { OnOutOfMemory result ⊥ }
{
    let number = read_number(word)?;
    if number < 1 || number > u64::from(u8::MAX) {
        return Err(Unread::NoCall);
    }
    Ok(number as u8)
}

/// Reads bytes, as their digits after an x.
pub(crate) fn read_bytes<H: Heap>(heap: H, word: &[u8]) -> Result<Bytes, Unread>
    ensures exact { Gives result (bytes_in word.now) }
    ensures memory { OnOutOfMemory result H.Refused }
{
    let [_, digits @ ..] = word else {
        return Err(Unread::NoCall);
    };
    let mut bytes = heap.copy_of(&digits[..digits.len() / 2])?;
    match hex::decode_to_slice(digits, bytes.as_mut_slice()) {
        Ok(()) => Ok(Bytes::from_vec(bytes)),
        Err(_) => Err(Unread::NoCall),
    }
}

/// Reads a gate's entry, by its name and its number.
fn read_entry_named(name: &[u8], number: &[u8]) -> Result<Entry, Unread>
    ensures exact { Gives result (entry_named name.now number.now) }
    ensures memory { OnOutOfMemory result ⊥ }
{
    if name == b"login".as_slice() {
        Ok(Entry::Login(read_user(number)?))
    } else if name == b"mark".as_slice() {
        Ok(Entry::Mark(read_short_number(number)?))
    } else {
        Err(Unread::NoCall)
    }
}

/// Reads a gate's entry: a name and a number, with a colon between.
pub(crate) fn read_entry(word: &[u8]) -> Result<Entry, Unread>
    ensures exact { Gives result (entry_in word.now) }
    ensures memory { OnOutOfMemory result ⊥ }
{
    let (name, Some(number)) = split_at_first(word, b':') else {
        return Err(Unread::NoCall);
    };
    read_entry_named(name, number)
}

/// Returns the first of the words, which have a space between two, and the words after it, if there are any.
pub(crate) fn next_word(words: Option<&[u8]>) -> Result<(&[u8], Option<&[u8]>), Unread>
    ensures exact { GivesWord result (next_word (option_copied words.entry)) }
    ensures memory { OnOutOfMemory result ⊥ }
{
    match words {
        Some(text) => Ok(split_at_first(text, b' ')),
        None => Err(Unread::NoCall),
    }
}
