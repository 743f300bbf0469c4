//! Writing the entries of directories.
ghost use Rattle.std.specs.Prelude.{◌≡◌, ◌++◌, OnOk, OnErr};
ghost use Rattle.histar_layout.specs.Directory.{IsEntry, IsTarget, LeadsSomewhere, entry_bytes, target_bytes};

use crate::entry::Target;
use histar_flat::Name;
use histar_heap::Heap;
use std::alloc::AllocError;

/// Appends the bytes of an entry.
pub fn push_entry<H: Heap>(
    heap: H,
    out: &mut Vec<u8>,
    name: &Name,
    target: Target,
) -> Result<(), AllocError>
    ensures written { OnOk result (out.new.items ≡ out.old.items ++ entry_bytes (name.now, target)) }
    ensures entry { OnOk result (LeadsSomewhere target → IsEntry (name.now, target)) }
    ensures memory { OnErr result H.Refused }
{
    let text = name.as_bytes();
    heap.push(out, text.len() as u8)?;
    heap.extend(out, text)?;
    push_target(heap, out, target)
}

/// Appends the bytes of a target: a letter and two numbers.
fn push_target<H: Heap>(heap: H, out: &mut Vec<u8>, target: Target) -> Result<(), AllocError>
    ensures written { OnOk result (out.new.items ≡ out.old.items ++ target_bytes target) }
    ensures fits { OnOk result (LeadsSomewhere target → IsTarget target) }
    ensures memory { OnErr result H.Refused }
{
    let letter = target.letter();
    let (object, listing) = target.numbers();
    heap.push(out, letter)?;
    heap.extend(out, &object.to_be_bytes())?;
    heap.extend(out, &listing.to_be_bytes())?;
    Ok(())
}
