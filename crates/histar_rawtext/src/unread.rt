//! The reasons why a text is not read.
ghost use Rattle.std.specs.Prelude.{◌≡◌};
ghost use Rattle.histar_rawtext.specs.declared.unread.Unread.TheVariants.{OutOfMemory};

use std::alloc::AllocError;

/// The reason why a text is not read.
#[derive(Clone, Copy, Debug, PartialEq, Eq)]
pub enum Unread {
    /// It is no raw call, nor a part of one.
    NoCall,
    OutOfMemory,
}

impl From<AllocError> for Unread {
    ghost from_gives = { λ _ e. e ≡ OutOfMemory };

    fn from(_error: AllocError) -> Self {
        Unread::OutOfMemory
    }
}
