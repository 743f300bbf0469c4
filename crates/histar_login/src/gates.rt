//! What the gates of users give.
ghost use Rattle.std.specs.Prelude.{◌≡◌, IfOk, OnErr};
ghost use Rattle.histar_layout.specs.Labelling.{labelled};
ghost use Rattle.histar_programs.specs.Start.{at_both, owners_label, owners_clearance};

use histar_heap::Heap;
use histar_label::{Label, Level};
use histar_layout::{read_category, write_category};
use std::alloc::AllocError;

/// Returns the label and the clearance of a gate: the label owns the categories of these users and groups.
pub(crate) fn gate_labels<H: Heap>(heap: H, owners: &[u8]) -> Result<(Label, Label), AllocError>
    ensures ok { IfOk result (λ gate. (gate.0 ≡ owners_label owners.now)
        × (gate.1 ≡ owners_clearance owners.now)) }
    ensures memory { OnErr result H.Refused }
{
    let given = label_at_both(heap, Level::L1, Level::Star, owners)?;
    let clearance = label_at_both(heap, Level::L2, Level::L3, owners)?;
    Ok((given, clearance))
}

/// What the gate of a user gives to a thread: the label that owns the categories of these users and groups, and
/// the clearance at which they are 3.
#[derive(Drop)]
pub(crate) struct Given<'a> {
    pub(crate) owners: &'a [u8],
    pub(crate) label: Label,
    pub(crate) clearance: Label,
    ghost label_is: { label ≡ owners_label owners.now },
    ghost clearance_is: { clearance ≡ owners_clearance owners.now },
}

/// Makes what the gate of a user with these users and groups gives.
pub(crate) fn given_by<'a, H: Heap>(heap: H, owners: &'a [u8]) -> Result<Given<'a>, AllocError>
    ensures ok { IfOk result (λ given. given.owners.now ≡ owners.now) }
    ensures memory { OnErr result H.Refused }
{
    let (label, clearance) = gate_labels(heap, owners)?;
    Ok(Given {
        owners,
        label,
        clearance,
    })
}

/// Returns the label with one level at both categories of each of these users and groups, and another at all
/// others. It has room for the two categories of a process.
fn label_at_both<H: Heap>(
    heap: H,
    default: Level,
    level: Level,
    owners: &[u8],
) -> Result<Label, AllocError>
    ensures ok { IfOk result (λ label. label ≡ labelled (at_both level owners.now) default) }
    ensures memory { OnErr result H.Refused }
{
    let mut label = Label::with_room(
        heap,
        default,
        owners.len().saturating_mul(2).saturating_add(2),
    )?;
    for &owner in owners {
        label.set(heap, read_category(owner), level)?;
        label.set(heap, write_category(owner), level)?;
    }
    Ok(label)
}
