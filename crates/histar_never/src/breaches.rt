//! A breach of a claim: who has which of its letters, and after which call.
ghost use Rattle.std.specs.Prelude.{◌≡◌, ◌++◌, IfOk, OnOk, codes};
ghost use Rattle.histar_flat.specs.Texts.{process_text};
ghost use Rattle.histar_never.specs.Breaches.{breach_by, breach_text, holder_text};

use crate::letters::{common, has_letter, push_some_letters};
use histar_base::Bytes;
use histar_flat::{Name, ProcName};
use histar_rights::Rights;
use histar_texts::{push_number, push_process};
use std::alloc::{AllocError, Global};

/// One who has rights.
#[derive(Clone, Copy)]
pub enum Holder {
    /// A running process, with its user.
    AProcess(ProcName, Name),
    /// Whoever logs in as this user.
    AUser(Name),
}

/// One who has letters of a claim.
#[derive(Clone, Copy)]
pub struct Breach {
    pub holder: Holder,
    /// Those letters of the claim that the holder has, at least one.
    pub rights: Rights,
}

/// A breach after a call.
#[derive(Clone, Copy)]
pub struct LateBreach {
    /// The number of the line of the call.
    pub line: u32,
    pub breach: Breach,
}

/// Returns the breach by one who has these rights, where a claim has those letters, if one letter
/// is in both.
pub(crate) fn breach_by(letters: Rights, holder: Holder, rights: Rights) -> Option<Breach>
    ensures { result ≡ breach_by letters holder rights }
{
    let both = common(letters, rights);
    if !has_letter(both) {
        return None;
    }
    Some(Breach {
        holder,
        rights: both,
    })
}

/// Adds the text of one who has rights: a process with its user, or a user.
fn push_holder(text: &mut Vec<u8>, holder: &Holder) -> Result<(), AllocError>
    ensures { OnOk result (text.new.items ≡ text.old.items ++ holder_text holder.now) }
{
    match holder {
        Holder::AProcess(process, user) => push_process_and_user(text, process, user),
        Holder::AUser(user) => push_user(text, user),
    }
}

/// Adds a process, and its user in parentheses.
fn push_process_and_user(
    text: &mut Vec<u8>,
    process: &ProcName,
    user: &Name,
) -> Result<(), AllocError>
    ensures { OnOk result (text.new.items
        ≡ text.old.items ++ process_text process.now ++ codes " (" ++ user.now ++ codes ")") }
{
    push_process(*text.allocator(), text, process)?;
    text.extend_from_slice(b" (")?;
    text.extend_from_slice(user.as_bytes())?;
    text.extend_from_slice(b")")
}

/// Adds a user.
fn push_user(text: &mut Vec<u8>, user: &Name) -> Result<(), AllocError>
    ensures { OnOk result (text.new.items ≡ text.old.items ++ codes "user " ++ user.now) }
{
    text.extend_from_slice(b"user ")?;
    text.extend_from_slice(user.as_bytes())
}

/// Returns the text of a breach: the line of the call, who has rights then, and the letters.
pub fn breach_text(alloc: Global, breach: &LateBreach) -> Result<Bytes, AllocError>
    ensures { IfOk result (λ text. text ≡ breach_text breach.now) }
{
    let mut text = Vec::new(alloc);
    text.extend_from_slice(b"after line ")?;
    push_number(alloc, &mut text, breach.line)?;
    text.extend_from_slice(b": ")?;
    push_holder(&mut text, &breach.breach.holder)?;
    text.extend_from_slice(b" has ")?;
    push_some_letters(&mut text, breach.breach.rights)?;
    Ok(Bytes::from_vec(text))
}
