//! The calls of a mixed session, and their order.
ghost use Rattle.std.specs.Prelude.{◌≡◌, IfOk};
ghost use Rattle.histar_mixed.specs.Mixed.{in_order};

use histar_flat::CallLine;
use histar_raw_session::RawLine;
use std::alloc::{AllocError, Global};

/// A call line of a mixed session.
#[derive(Drop)]
pub enum MixedItem {
    /// A Unix call of a process.
    Unix(CallLine),
    /// A raw call of a thread.
    Raw(RawLine),
}

/// The kind of a call line, while the Unix calls are kept apart.
#[derive(Drop)]
pub enum Mark {
    /// The next Unix call.
    Unix,
    /// A raw call of a thread.
    Raw(RawLine),
}

/// Puts Unix calls between the raw calls, in the order of the lines.
pub(crate) fn in_order(
    alloc: Global,
    calls: Vec<CallLine>,
    marks: Vec<Mark>,
) -> Result<Vec<MixedItem>, AllocError>
    ensures { IfOk result (λ items. items.items ≡ in_order calls.items marks.items) }
{
    let mut rest = calls.into_iter();
    let mut items = Vec::new(alloc);
    'marks: for mark in marks {
        match mark {
            Mark::Raw(asked) => items.push(MixedItem::Raw(asked))?,
            Mark::Unix => {
                if let Some(call) = rest.next() {
                    items.push(MixedItem::Unix(call))?;
                }
            }
        }
    }
    Ok(items)
}
