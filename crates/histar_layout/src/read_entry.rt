//! Reading the entries of directories.
ghost use Rattle.std.specs.Prelude.{◌≡◌, IfSome, IsTrue};
ghost use Rattle.histar_flat.specs.Words.{is_name};
ghost use Rattle.histar_layout.specs.Found.{slot_at, target_from};
ghost use Rattle.histar_layout.specs.Reading.{Gives, front_at, number_at, target_of, target_at, entry_at};

use crate::entry::Target;
use histar_flat::{Name, is_name, read_name};
use histar_object::ObjId;

/// The number of bytes of a target: a letter and two numbers.
pub const TARGET_LENGTH: usize = 17;

/// Reads the entry at the front, and returns it with the bytes after it.
pub fn read_entry(bytes: &[u8]) -> Option<(Name, Target, &[u8])>
    ensures { Gives (λ found. ((found.0, found.1), found.2.now)) result (entry_at bytes.now) }
{
    let Some((text, target, rest)) = read_named(bytes) else {
        return None;
    };
    let name = read_name(text)?;
    Some((name, target, rest))
}

/// Reads the entry at the front, and returns it with the bytes of its name in place, and the bytes after it.
#[tactic(auto, unfolding(crate::specs::Reading::entry_at))]
pub fn read_named(bytes: &[u8]) -> Option<(&[u8], Target, &[u8])>
    ensures entry { Gives (λ found. ((found.0.now, found.1), found.2.now)) result (entry_at bytes.now) }
    ensures named { IfSome result (λ found. IsTrue (is_name found.0.now)) }
{
    let [len, rest @ ..] = bytes else {
        return None;
    };
    let (text, rest) = read_front(rest, *len as usize)?;
    if !is_name(text) {
        return None;
    }
    let Some((target, rest)) = read_target(rest) else {
        return None;
    };
    Some((text, target, rest))
}

/// Returns the bytes of the name at the front and those of the target, all in place, and the bytes after
/// them.
#[tactic(auto, unfolding(crate::specs::Found::slot_at, crate::specs::Reading::front_at))]
pub fn read_slot(bytes: &[u8]) -> Option<(&[u8], &[u8], &[u8])>
    ensures { Gives (λ found. ((found.0.now, found.1.now), found.2.now)) result (slot_at bytes.now) }
{
    let [len, rest @ ..] = bytes else {
        return None;
    };
    let len = *len as usize;
    if rest.len() < len + TARGET_LENGTH {
        return None;
    }
    let (text, rest) = rest.split_at(len);
    let (target, after) = rest.split_at(TARGET_LENGTH);
    Some((text, target, after))
}

/// Reads a target from its bytes.
#[tactic(auto, unfolding(crate::specs::Found::target_from))]
pub fn target_from(bytes: &[u8]) -> Option<Target>
    ensures { result ≡ target_from bytes.now }
{
    let Some((target, _)) = read_target(bytes) else {
        return None;
    };
    Some(target)
}

#[tactic(auto, unfolding(crate::specs::Reading::target_at))]
fn read_target(bytes: &[u8]) -> Option<(Target, &[u8])>
    ensures { Gives (λ found. (found.0, found.1.now)) result (target_at bytes.now) }
{
    let [letter, rest @ ..] = bytes else {
        return None;
    };
    let (object, rest) = read_number(rest)?;
    let (listing, rest) = read_number(rest)?;
    let target = target(*letter, object, listing)?;
    Some((target, rest))
}

#[tactic(auto, unfolding(crate::specs::Reading::target_of))]
fn target(letter: u8, object: u64, listing: u64) -> Option<Target>
    ensures { result ≡ target_of letter object listing }
{
    if object == 0 {
        return None;
    }
    match letter {
        b'f' if listing == 0 => Some(Target::File(ObjId::new(object))),
        b'd' if listing != 0 => Some(Target::Directory(ObjId::new(object), ObjId::new(listing))),
        _ => None,
    }
}

#[tactic(auto, unfolding(crate::specs::Reading::number_at, crate::specs::Reading::front_at))]
pub fn read_number(bytes: &[u8]) -> Option<(u64, &[u8])>
    ensures { Gives (λ found. (found.0, found.1.now)) result (number_at bytes.now) }
{
    let (front, rest) = bytes.split_first_chunk::<8>()?;
    Some((u64::from_be_bytes(*front), rest))
}

#[tactic(auto, unfolding(crate::specs::Reading::front_at))]
fn read_front(bytes: &[u8], len: usize) -> Option<(&[u8], &[u8])>
    ensures { Gives (λ found. (found.0.now, found.1.now)) result (front_at len bytes.now) }
{
    if len > bytes.len() {
        return None;
    }
    Some(bytes.split_at(len))
}
