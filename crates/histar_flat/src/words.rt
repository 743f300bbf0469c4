//! Byte strings of at most 32 bytes that can be copied.
ghost use Rattle.std.specs.Prelude.{◌≡◌, ◌≤◌, length};
ghost use Rattle.histar_base.specs.Padding.{padded};
ghost use Rattle.histar_flat.specs.Words.{most_word_bytes};

use std::marker::Model;

/// The most bytes that a name or a password has.
pub const MOST_WORD_BYTES: usize = 32;

/// At most 32 bytes of any values, which hold a name or a password.
#[derive(Clone, Copy)]
pub struct Word {
    bytes: [u8; MOST_WORD_BYTES],
    len: u8,
}

impl Model for Word {
    ghost use Rattle.std.specs.Prelude.{ℕ, List, length, take};
    ghost use Rattle.histar_base.specs.Padding.{padded, IsPadded};
    ghost use Rattle.histar_base.proofs.Padded.{padded-take, length-kept};
    ghost use Rattle.histar_flat.specs.Words.{most_word_bytes};
    ghost use Rattle.std.proofs.Common.{refl};

    ghost Value = { List ℕ };

    ghost view = { λ w. take w.len w.bytes };

    ghost invariant = { λ w. IsPadded most_word_bytes 0 w.bytes w.len };

    ghost inverse = { λ bs. record { bytes = padded most_word_bytes 0 bs; len = length bs } };

    ghost inverse_ok = { λ a h. Prim.rw (padded-take most_word_bytes 0 a.bytes a.len h, length-kept most_word_bytes 0 a.bytes a.len h) refl };
}

impl Word {
    /// Returns a copy of the bytes.
    pub fn of(text: &[u8]) -> Word
        requires { length text.now ≤ most_word_bytes }
        ensures { result ≡ text.now }
    {
        Word {
            bytes: padded_bytes(text),
            len: text.len() as u8,
        }
    }

    pub fn as_bytes(&self) -> &[u8]
        ensures { result.now ≡ self.now }
    {
        &self.bytes[..self.len as usize]
    }
}

fn padded_bytes(text: &[u8]) -> [u8; MOST_WORD_BYTES]
    requires { length text.now ≤ most_word_bytes }
    ensures { result ≡ padded most_word_bytes 0 text.now }
{
    let mut bytes = [0; MOST_WORD_BYTES];
    bytes[..text.len()].copy_from_slice(text);
    bytes
}
