//! The limits of sizes and counters.
ghost use Rattle.std.specs.Prelude.{◌≡◌, ◌+◌};
ghost use Rattle.histar_rules.specs.Rules.{fits_segment};

/// The number of the root container, the first object of each kernel.
pub const ROOT: u64 = 1;

/// The greatest number of bytes that a segment holds.
const MOST_BYTES: usize = 4096;

/// The numbers that the next object and the next category get.
#[derive(Clone, Copy)]
pub(crate) struct Next {
    pub(crate) object: u64,
    pub(crate) category: u64,
}

/// Checks whether a segment has room for `more` bytes beside the `held` ones.
pub(crate) fn fits(held: usize, more: usize) -> bool
    ensures { result ≡ fits_segment (held + more) }
{
    held.saturating_add(more) <= MOST_BYTES
}
