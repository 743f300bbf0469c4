//! The words for the labels of a comparison and their levels.
ghost use Rattle.std.specs.Prelude.{◌≡◌, ◌++◌, OnOk};
ghost use Rattle.histar_raw_explain.specs.Texts.{party_text, has_text, excess_text};

use histar_explain::Party;
use histar_label::Level;
use histar_rawtext::push_level;
use std::alloc::AllocError;

/// Returns the text of a party whose label is compared.
fn party_text(party: Party) -> &'static str
    ensures { result.now ≡ party_text party }
{
    match party {
        Party::Thread => "the thread",
        Party::Object => "the object",
        Party::GateClearance => "the gate's clearance",
        Party::VerifyLabel => "the verify label",
        Party::LabelAsked => "the label asked for",
        Party::ClearanceAsked => "the clearance asked for",
        Party::ThreadClearance => "the thread's clearance",
        Party::ThreadClearanceAndLabel => "the thread's clearance and label",
        Party::Floor => "the floor of thread and gate",
        Party::Clearances => "the clearances of thread and gate",
        Party::AnySegment => "no segment",
        Party::AnyContainer => "no container",
    }
}

/// Adds that a party's label has a level.
fn push_has(text: &mut Vec<u8>, party: Party, level: Level) -> Result<(), AllocError>
    ensures { OnOk result (text.new.items ≡ text.old.items ++ has_text party level) }
{
    text.extend_from_slice(party_text(party).as_bytes())?;
    text.extend_from_slice(b" has ")?;
    push_level(*text.allocator(), text, level)
}

/// Adds the levels of two labels where the lower one is above the other, or that a label has star where no
/// segment or no container may.
#[tactic(auto, unfolding(crate::specs::Texts::excess_text))]
pub(crate) fn push_excess(
    text: &mut Vec<u8>,
    lower: Party,
    upper: Party,
    lower_level: Level,
    upper_level: Level,
) -> Result<(), AllocError>
    ensures { OnOk result (text.new.items ≡ text.old.items ++ excess_text lower upper lower_level upper_level) }
{
    match lower {
        Party::AnySegment | Party::AnyContainer => {
            push_has(text, upper, upper_level)?;
            text.extend_from_slice(b", which ")?;
            text.extend_from_slice(party_text(lower).as_bytes())?;
            text.extend_from_slice(b" has")
        }
        _ => {
            push_has(text, lower, lower_level)?;
            text.extend_from_slice(b", ")?;
            text.extend_from_slice(party_text(upper).as_bytes())?;
            text.extend_from_slice(b" ")?;
            push_level(*text.allocator(), text, upper_level)
        }
    }
}
