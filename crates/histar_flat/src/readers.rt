//! Readers of single words: names, passwords, paths, processes, numbers and modes.
ghost use Rattle.std.specs.Prelude.{◌≡◌, ◌≤◌, ◌^◌, ◌↔◌, ◌==◌, ◌∷◌, nat_le, nat_lt, [], IsTrue, IfSome, position};
ghost use Rattle.std.specs.List.{list_all};
ghost use Rattle.std.specs.Option.{option_copied};
ghost use Rattle.histar_flat.specs.Modes.{group_mode_of, mode_of};
ghost use Rattle.histar_flat.specs.Words.{dot, most_names, path_from, split_at_first as split, name_of, user_name_of, password_of};
ghost use Rattle.histar_flat.specs.Words.{path_of, BeginsPlainly, number_of, status_of, most_numbers, process_from, process_of};
ghost use Rattle.histar_flat.specs.Words.{is_child_number as child_number, is_name_byte as name_byte, is_dots as dots};
ghost use Rattle.histar_flat.specs.Words.{is_letter as letter, begins_with_letter as letter_first, is_name as name};
ghost use Rattle.histar_flat.specs.Words.{is_user_name as user_name, is_password_byte as password_byte, is_password as password};

use crate::calls::Mode;
use crate::names::{Name, Password};
use crate::paths::{MOST_NAMES, Path};
use crate::processes::{MOST_NUMBERS, ProcName};
use crate::words::MOST_WORD_BYTES;
use memchr::memchr;

/// How many children may be born to a process.
const MOST_CHILDREN: u8 = 64;

/// The greatest number that a process can exit with.
const GREATEST_STATUS: u64 = 255;

/// A 1 for each of the 256 bytes that a name may have, in rows of 32 bytes. One look at it tests a byte.
const NAME_BYTES: &[u8] = &[
    0, 0, 0, 0, 0, 0, 0, 0, 0, 0, 0, 0, 0, 0, 0, 0, 0, 0, 0, 0, 0, 0, 0, 0, 0, 0, 0, 0, 0, 0, 0, 0,
    0, 0, 0, 0, 0, 0, 0, 0, 0, 0, 0, 0, 0, 1, 1, 0, 1, 1, 1, 1, 1, 1, 1, 1, 1, 1, 0, 0, 0, 0, 0, 0,
    0, 0, 0, 0, 0, 0, 0, 0, 0, 0, 0, 0, 0, 0, 0, 0, 0, 0, 0, 0, 0, 0, 0, 0, 0, 0, 0, 0, 0, 0, 0, 1,
    0, 1, 1, 1, 1, 1, 1, 1, 1, 1, 1, 1, 1, 1, 1, 1, 1, 1, 1, 1, 1, 1, 1, 1, 1, 1, 1, 0, 0, 0, 0, 0,
    0, 0, 0, 0, 0, 0, 0, 0, 0, 0, 0, 0, 0, 0, 0, 0, 0, 0, 0, 0, 0, 0, 0, 0, 0, 0, 0, 0, 0, 0, 0, 0,
    0, 0, 0, 0, 0, 0, 0, 0, 0, 0, 0, 0, 0, 0, 0, 0, 0, 0, 0, 0, 0, 0, 0, 0, 0, 0, 0, 0, 0, 0, 0, 0,
    0, 0, 0, 0, 0, 0, 0, 0, 0, 0, 0, 0, 0, 0, 0, 0, 0, 0, 0, 0, 0, 0, 0, 0, 0, 0, 0, 0, 0, 0, 0, 0,
    0, 0, 0, 0, 0, 0, 0, 0, 0, 0, 0, 0, 0, 0, 0, 0, 0, 0, 0, 0, 0, 0, 0, 0, 0, 0, 0, 0, 0, 0, 0, 0,
];

/// Returns the name that the bytes spell, or `None`.
pub fn read_name(text: &[u8]) -> Option<Name>
    ensures { result ≡ name_of text.now }
{
    if !is_name(text) {
        return None;
    }
    Some(Name::of(text))
}

/// Returns the name that the bytes spell, if a user may have it: it begins with a letter and isn't `nobody`.
pub fn read_user_name(text: &[u8]) -> Option<Name>
    ensures { result ≡ user_name_of text.now }
{
    if !is_user_name(text) {
        return None;
    }
    Some(Name::of(text))
}

/// Returns the password that the bytes spell, or `None`.
pub fn read_password(text: &[u8]) -> Option<Password>
    ensures { result ≡ password_of text.now }
{
    if !is_password(text) {
        return None;
    }
    Some(Password::of(text))
}

/// Returns the path that the bytes spell: `/`, or up to eight names with a slash before each.
pub fn read_path(text: &[u8]) -> Option<Path>
    ensures { result ≡ path_of text.now }
{
    match text {
        [b'/'] => Some(Path::root()),
        [b'/', names @ ..] => read_names(names),
        _ => None,
    }
}

/// Returns the path from `/` along these names, which have slashes between them.
fn read_names(text: &[u8]) -> Option<Path>
    ensures { result ≡ path_from most_names [] text.now }
{
    let mut path = Path::root();
    let mut rest = text;
    for _ in 0..MOST_NAMES {
        let (word, after) = split_at_first(rest, b'/');
        path.enter(read_name(word)?);
        match after {
            None => return Some(path),
            Some(names) => rest = names,
        }
    }
    None
}

/// Returns the bytes before the first separator, and those after it if there is one.
pub fn split_at_first(text: &[u8], separator: u8) -> (&[u8], Option<&[u8]>)
    ensures before { result.0.now ≡ (split separator text.now).0 }
    ensures after { option_copied result.1 ≡ (split separator text.now).1 }
{
    match memchr(separator, text) {
        None => (text, None),
        Some(at) => (&text[..at], Some(&text[at + 1..])),
    }
}

/// Returns the process that the bytes name: `0`, and up to seven numbers of children with a dot before each.
pub fn read_process(text: &[u8]) -> Option<ProcName>
    ensures { result ≡ process_of text.now }
{
    let (first, numbers) = split_at_dot(text);
    if first != b"0".as_slice() {
        return None;
    }
    read_numbers(numbers)
}

/// Returns the bytes before the first dot, and those after it if there is one. In a process's name a dot comes
/// after one or two bytes, where a loop finds it in fewer steps than `memchr`.
fn split_at_dot(text: &[u8]) -> (&[u8], Option<&[u8]>)
    ensures before { result.0.now ≡ (split dot text.now).0 }
    ensures after { option_copied result.1 ≡ (split dot text.now).1 }
{
    match dot_in(text) {
        None => (text, None),
        Some(at) => (&text[..at], Some(&text[at + 1..])),
    }
}

/// Returns the place of the first dot.
fn dot_in(text: &[u8]) -> Option<usize>
    ensures { result ≡ position (λ b. b == dot) text.now }
{
    text.iter().position(|b| *b == b'.')
}

/// Returns the descendant of process 0 that these numbers lead to, with dots between them, or process 0
/// itself.
fn read_numbers(numbers: Option<&[u8]>) -> Option<ProcName>
    ensures { result ≡ process_from most_numbers [] (option_copied numbers.entry) }
{
    let mut process = ProcName::zero();
    let mut rest = numbers;
    for _ in 0..MOST_NUMBERS {
        let Some(text) = rest else {
            return Some(process);
        };
        let (word, after) = split_at_dot(text);
        process = process.child(read_child_number(word)?);
        rest = after;
    }
    match rest {
        None => Some(process),
        Some(_) => None,
    }
}

/// Returns the exit status that the bytes spell: 0 to 255 in decimal.
pub fn read_status(text: &[u8]) -> Option<u8>
    ensures { result ≡ status_of text.now }
{
    let number = read_number(text, GREATEST_STATUS)?;
    Some(number as u8)
}

/// Returns the number of a child that the bytes spell: 1 to 64 in decimal. Every line of a script names a
/// process, so this is quicker than `parse`.
#[tactic(auto, using(crate::proofs::ChildNumbers::length_spells_none))]
fn read_child_number(text: &[u8]) -> Option<u8>
    ensures { result ≡ number_of child_number text.now }
{
    match text {
        [ones] => read_one_digit(*ones),
        [tens, ones] => read_two_digits(*tens, *ones),
        _ => None,
    }
}

/// Returns the number of a child that one digit spells.
#[tactic(auto, using(crate::proofs::ChildNumbers::one_digit_spells, crate::proofs::ChildNumbers::one_byte_spells_none))]
fn read_one_digit(ones: u8) -> Option<u8>
    ensures { result ≡ number_of child_number (ones ∷ []) }
{
    match ones {
        b'1'..=b'9' => Some(ones - b'0'),
        _ => None,
    }
}

/// Returns the number of a child that two digits spell.
#[tactic(auto, using(crate::proofs::ChildNumbers::two_digits_spell, crate::proofs::ChildNumbers::two_bytes_spell_none))]
fn read_two_digits(tens: u8, ones: u8) -> Option<u8>
    ensures { result ≡ number_of child_number (tens ∷ ones ∷ []) }
{
    let number = match (tens, ones) {
        (b'1'..=b'9', b'0'..=b'9') => 10 * (tens - b'0') + (ones - b'0'),
        _ => return None,
    };
    if number > MOST_CHILDREN {
        return None;
    }
    Some(number)
}

/// Returns the number that the bytes spell in decimal, if it is at most `greatest` and has no leading zero.
pub fn read_number(text: &[u8], greatest: u64) -> Option<u64>
    ensures value { result ≡ number_of (λ n. nat_le n greatest) text.now }
    ensures small { IfSome result (λ n. n ≤ greatest) }
{
    let number = read_digits(text)?;
    if number > greatest {
        return None;
    }
    Some(number)
}

/// Returns the number of 64 bits that the bytes spell in decimal.
fn read_digits(text: &[u8]) -> Option<u64>
    ensures { result ≡ number_of (λ n. nat_lt n (2 ^ 64)) text.now }
{
    if !begins_plainly(text) {
        return None;
    }
    match std::str::from_utf8(text) {
        Ok(digits) => digits.parse().ok(),
        Err(_) => None,
    }
}

/// Checks that the text begins with no plus, and with no zero before other digits: `parse` takes both.
fn begins_plainly(text: &[u8]) -> bool
    ensures { IsTrue result ↔ BeginsPlainly text.now }
{
    match text {
        [b'+', ..] => false,
        [b'0', _, ..] => false,
        _ => true,
    }
}

/// Returns the mode that the bytes name: `private`, `readable`, `open`, or `group:NAME`, where NAME may be a
/// user's.
pub fn read_mode(text: &[u8]) -> Option<Mode>
    ensures { result ≡ mode_of text.now }
{
    if text == b"private".as_slice() {
        Some(Mode::Private)
    } else if text == b"readable".as_slice() {
        Some(Mode::Readable)
    } else if text == b"open".as_slice() {
        Some(Mode::Open)
    } else {
        read_group_mode(text)
    }
}

/// Returns the mode of a group that the bytes name.
#[tactic(auto, unfolding(crate::specs::Modes::group_mode_of))]
fn read_group_mode(text: &[u8]) -> Option<Mode>
    ensures { result ≡ group_mode_of text.now }
{
    let (word, name) = split_at_first(text, b':');
    if word != b"group".as_slice() {
        return None;
    }
    Some(Mode::Group(read_user_name(name?)?))
}

/// Returns whether the bytes are a name, without copying them as `read_name` does.
#[tactic(auto, unfolding(crate::specs::Words::is_name))]
pub fn is_name(text: &[u8]) -> bool
    ensures { result ≡ name text.now }
{
    !text.is_empty() && text.len() <= MOST_WORD_BYTES && has_name_bytes(text) && !is_dots(text)
}

#[tactic(auto, unfolding(crate::specs::Words::is_user_name))]
fn is_user_name(text: &[u8]) -> bool
    ensures value { result ≡ user_name text.now }
    ensures right { IsTrue result → IsTrue (name text.now) }
{
    is_name(text) && begins_with_letter(text) && text != b"nobody".as_slice()
}

#[tactic(auto, unfolding(crate::specs::Words::is_password))]
fn is_password(text: &[u8]) -> bool
    ensures { result ≡ password text.now }
{
    !text.is_empty() && text.len() <= MOST_WORD_BYTES && has_password_bytes(text)
}

fn has_name_bytes(text: &[u8]) -> bool
    ensures { result ≡ list_all name_byte text.now }
{
    text.iter().all(|b| is_name_byte(*b))
}

fn has_password_bytes(text: &[u8]) -> bool
    ensures { result ≡ list_all password_byte text.now }
{
    text.iter().all(|b| is_password_byte(*b))
}

fn is_dots(text: &[u8]) -> bool
    ensures { result ≡ dots text.now }
{
    match text {
        [a] => *a == b'.',
        [a, b] => *a == b'.' && *b == b'.',
        _ => false,
    }
}

fn begins_with_letter(text: &[u8]) -> bool
    ensures { result ≡ letter_first text.now }
{
    match text {
        [first, ..] => is_letter(*first),
        _ => false,
    }
}

fn is_letter(b: u8) -> bool
    ensures { result ≡ letter b }
{
    matches!(b, b'a'..=b'z')
}

fn is_name_byte(b: u8) -> bool
    ensures { result ≡ name_byte b }
{
    NAME_BYTES[b as usize] == 1
}

fn is_password_byte(b: u8) -> bool
    ensures { result ≡ password_byte b }
{
    matches!(b, 0x21..=0x7e)
}
