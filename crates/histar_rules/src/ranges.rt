//! The ranges in which a thread chooses the labels of new objects.
ghost use Rattle.std.specs.Prelude.{◌≡◌, ◌&&◌, not, nat_lt};
ghost use Rattle.histar_base.specs.Refusals.{unless, ◌orelse◌};
ghost use Rattle.histar_label.specs.Levels.{is_below, is_made, has_star};
ghost use Rattle.histar_rules.specs.Rights.{are_in_order};
ghost use Rattle.histar_rules.specs.Rules.{fits_segment, greatest, FailsAt};
ghost use Rattle.histar_rules.specs.declared.raw.Denied.TheVariants.{Range, TooBig};

use crate::checks::require;
use crate::limits::{Next, fits};
use crate::raw::Denied;
use histar_label::Label;

// Checks whether a label lies between a thread's own label and its clearance.
fn in_range(own: &Label, own_clearance: &Label, label: &Label) -> bool
    ensures { result ≡ (is_below own.now label.now && is_below label.now own_clearance.now) }
{
    own.below(label) && label.below(own_clearance)
}

// Checks whether a label, and a clearance above it, lie between a thread's own label and its clearance.
fn in_span(own: &Label, own_clearance: &Label, label: &Label, clearance: &Label) -> bool
    ensures { result ≡ are_in_order own.now label.now clearance.now own_clearance.now }
{
    own.below(label) && label.below(clearance) && clearance.below(own_clearance)
}

/// Makes the last checks for an object that owns nothing: its label, its size in bytes, and the counter of
/// objects.
pub(crate) fn check_new(
    own: &Label,
    own_clearance: &Label,
    label: &Label,
    size: usize,
    next: Next,
) -> Result<(), Denied>
    ensures { FailsAt (unless (is_below own.now label.now && is_below label.now own_clearance.now) Range
        orelse unless (is_made next.category label.now) Range
        orelse unless (not (has_star label.now)) Range
        orelse unless (fits_segment size) TooBig
        orelse unless (nat_lt next.object greatest) TooBig) result }
{
    require(in_range(own, own_clearance, label), Denied::Range)?;
    require(label.names_only_made(next.category), Denied::Range)?;
    require(!label.has_star(), Denied::Range)?;
    require(fits(size, 0), Denied::TooBig)?;
    require(next.object < u64::MAX, Denied::TooBig)
}

/// Makes the last checks for an object that may own: its label, its clearance, and the counter of objects.
pub(crate) fn check_new_owner(
    own: &Label,
    own_clearance: &Label,
    label: &Label,
    clearance: &Label,
    next: Next,
) -> Result<(), Denied>
    ensures { FailsAt (unless (are_in_order own.now label.now clearance.now own_clearance.now) Range
        orelse unless (is_made next.category label.now) Range
        orelse unless (is_made next.category clearance.now) Range
        orelse unless (nat_lt next.object greatest) TooBig) result }
{
    require(in_span(own, own_clearance, label, clearance), Denied::Range)?;
    require(label.names_only_made(next.category), Denied::Range)?;
    require(clearance.names_only_made(next.category), Denied::Range)?;
    require(next.object < u64::MAX, Denied::TooBig)
}
