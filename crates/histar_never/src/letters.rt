//! Letters of rights that are written one after another, without those that are withheld.
ghost use Rattle.std.specs.Prelude.{◌≡◌, ◌++◌, ◌∷◌, [], OnOk};
ghost use Rattle.histar_never.specs.Letters.{after_letter, common, has_letter, letter_if};
ghost use Rattle.histar_never.specs.Letters.{letters_of, letters_text};

use histar_lint::line_rules::begins_with;
use histar_rights::Rights;
use std::alloc::AllocError;

/// Checks whether one of the letters is there.
pub(crate) fn has_letter(rights: Rights) -> bool
    ensures { result ≡ has_letter rights }
{
    rights.stat || rights.read || rights.write || rights.remove
}

/// Returns the letters that both have.
pub(crate) fn common(a: Rights, b: Rights) -> Rights
    ensures { result ≡ common a b }
{
    Rights {
        stat: a.stat && b.stat,
        read: a.read && b.read,
        write: a.write && b.write,
        remove: a.remove && b.remove,
    }
}

/// Returns what remains of a text after a letter, if it begins with it, and else the whole text.
fn after_letter(text: &[u8], letter: u8) -> &[u8]
    ensures { result.now ≡ after_letter letter text.now }
{
    match text {
        [first, rest @ ..] if *first == letter => rest,
        _ => text,
    }
}

/// Reads some letters of `srwd` in this order, at least one.
#[tactic(auto, unfolding(crate::specs::Letters::letters_of))]
pub(crate) fn read_letters(text: &[u8]) -> Option<Rights>
    ensures { result ≡ letters_of text.now }
{
    let after_s = after_letter(text, b's');
    let after_r = after_letter(after_s, b'r');
    let after_w = after_letter(after_r, b'w');
    let letters = Rights {
        stat: begins_with(text, b's'),
        read: begins_with(after_s, b'r'),
        write: begins_with(after_r, b'w'),
        remove: begins_with(after_w, b'd'),
    };
    if !after_letter(after_w, b'd').is_empty() || !has_letter(letters) {
        return None;
    }
    Some(letters)
}

/// Adds a letter, if it is there.
fn push_letter(text: &mut Vec<u8>, is_there: bool, letter: u8) -> Result<(), AllocError>
    ensures { OnOk result (text.new.items ≡ text.old.items ++ letter_if is_there (letter ∷ [])) }
{
    if is_there {
        text.push(letter)?;
    }
    Ok(())
}

/// Adds the letters that are there, in the order of `srwd`.
pub(crate) fn push_some_letters(text: &mut Vec<u8>, rights: Rights) -> Result<(), AllocError>
    ensures { OnOk result (text.new.items ≡ text.old.items ++ letters_text rights) }
{
    push_letter(text, rights.stat, b's')?;
    push_letter(text, rights.read, b'r')?;
    push_letter(text, rights.write, b'w')?;
    push_letter(text, rights.remove, b'd')
}
