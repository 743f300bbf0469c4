//! The lines of an explanation.
ghost use Rattle.std.specs.Prelude.{◌≡◌, ◌++◌, IfOk, OnOk};
ghost use Rattle.std.specs.List.{flat_map};
ghost use Rattle.histar_raw_explain.specs.Texts.{opening_text, unmade_line, place_text, but_text, spared_text, elsewhere_text};
ghost use Rattle.histar_raw_explain.specs.Texts.{every_text, difference_line, elsewhere_line, levels_line, reason_lines};
ghost use Rattle.histar_raw_explain.specs.Texts.{all_reason_lines, both_fail, fails, obstacle_lines, test_text};
ghost use Rattle.histar_raw_explain.specs.Texts.{explanation_lines, explanation_text};

use crate::act_texts::{push_act, push_obstacle};
use crate::party_texts::push_excess;
use crate::wording::Wording;
use histar_explain::{Act, Difference, Explanation, Obstacle, Party, Reason};
use histar_label::{Category, Level};
use histar_object::ObjId;
use histar_rawtext::push_number;
use histar_syscall::TraceEntry;
use std::alloc::{AllocError, Global};

/// The number of bytes for which the beginning of a line has room at first.
const OPENING_LEN: usize = 128;

/// Returns the beginning of each line of an explanation: a question mark and the number of the call's line,
/// the thread, and what it may not do.
fn opening<V: Wording>(
    alloc: Global,
    words: &V,
    line: u32,
    thread: ObjId,
    act: Act,
) -> Result<Vec<u8>, AllocError>
    ensures { IfOk result (λ text. text.items ≡ opening_text (V.words words.now) line thread act) }
{
    let mut text = Vec::with_capacity(alloc, OPENING_LEN)?;
    push_opening(&mut text, words, line, thread, act)?;
    Ok(text)
}

/// Adds the beginning of a line of an explanation.
fn push_opening<V: Wording>(
    text: &mut Vec<u8>,
    words: &V,
    line: u32,
    thread: ObjId,
    act: Act,
) -> Result<(), AllocError>
    ensures { OnOk result (text.new.items ≡ text.old.items
        ++ opening_text (V.words words.now) line thread act) }
{
    text.extend_from_slice(b"?")?;
    push_number(*text.allocator(), text, u64::from(line))?;
    text.extend_from_slice(b" ")?;
    words.push_thread(text, thread)?;
    text.extend_from_slice(b" may not ")?;
    push_act(text, words, act)?;
    text.extend_from_slice(b": ")
}

/// Adds the line of a category that was never made.
fn push_unmade<V: Wording>(
    text: &mut Vec<u8>,
    words: &V,
    opening: &[u8],
    category: Category,
) -> Result<(), AllocError>
    ensures { OnOk result (text.new.items ≡ text.old.items
        ++ unmade_line (V.words words.now) opening.now category) }
{
    text.extend_from_slice(opening)?;
    words.push_category(text, category)?;
    text.extend_from_slice(b" was never made\n")
}

/// Adds the lines of the categories that were never made.
fn push_all_unmade<V: Wording>(
    text: &mut Vec<u8>,
    words: &V,
    opening: &[u8],
    unmade: &[Category],
) -> Result<(), AllocError>
    ensures { OnOk result (text.new.items ≡ text.old.items
        ++ flat_map (unmade_line (V.words words.now) opening.now) unmade.now) }
{
    for category in unmade {
        push_unmade(text, words, opening, *category)?;
    }
    Ok(())
}

/// Adds the beginning of the line of a category.
fn push_place<V: Wording>(
    text: &mut Vec<u8>,
    words: &V,
    opening: &[u8],
    category: Category,
) -> Result<(), AllocError>
    ensures { OnOk result (text.new.items ≡ text.old.items
        ++ place_text (V.words words.now) opening.now category) }
{
    text.extend_from_slice(opening)?;
    text.extend_from_slice(b"at ")?;
    words.push_category(text, category)?;
    text.extend_from_slice(b" ")
}

/// Checks whether the comparison of a reason fails at some category.
fn fails(reason: &Reason) -> bool
    ensures { result ≡ fails reason.now }
{
    !reason.named.is_empty() || reason.elsewhere.is_some()
}

/// Checks whether these are the tests of a denial to modify, and both fail.
fn both_fail(reasons: &[Reason]) -> bool
    ensures { result ≡ both_fail reasons.now }
{
    match reasons {
        [first, second] => fails(first) && fails(second),
        _ => false,
    }
}

/// Returns which test the lines of a reason are of, if both tests of a denial to modify fail.
fn test_text(both: bool, reason: &Reason) -> &'static str
    ensures { result.now ≡ test_text both reason.now.lower reason.now.upper }
{
    match (both, reason.lower, reason.upper) {
        (true, Party::Thread, Party::Object) => " (to write it)",
        (true, Party::Object, Party::Thread) => " (to read it, which writing needs)",
        _ => "",
    }
}

/// Adds how the two levels of a reason's comparison differ, and the end of the line.
fn push_levels(
    text: &mut Vec<u8>,
    reason: &Reason,
    lower: Level,
    upper: Level,
    both: bool,
) -> Result<(), AllocError>
    ensures { OnOk result (text.new.items ≡ text.old.items
        ++ levels_line both reason.now.lower reason.now.upper lower upper) }
{
    push_excess(text, reason.lower, reason.upper, lower, upper)?;
    text.extend_from_slice(test_text(both, reason).as_bytes())?;
    text.extend_from_slice(b"\n")
}

/// The beginning of each line of an explanation, and whether both tests of a denial to modify fail.
#[derive(Clone, Copy)]
struct Frame<'a> {
    opening: &'a [u8],
    both: bool,
}

/// Adds the line of a category at which a reason's comparison fails.
fn push_difference<V: Wording>(
    text: &mut Vec<u8>,
    words: &V,
    frame: Frame,
    reason: &Reason,
    difference: Difference,
) -> Result<(), AllocError>
    ensures { OnOk result (text.new.items ≡ text.old.items
        ++ difference_line (V.words words.now) frame.entry.opening.now frame.entry.both
        reason.now.lower reason.now.upper difference) }
{
    push_place(text, words, frame.opening, difference.category)?;
    push_levels(text, reason, difference.lower, difference.upper, frame.both)
}

/// Adds the lines of the categories at which a reason's comparison fails and that a label lists.
fn push_differences<V: Wording>(
    text: &mut Vec<u8>,
    words: &V,
    frame: Frame,
    reason: &Reason,
) -> Result<(), AllocError>
    ensures { OnOk result (text.new.items ≡ text.old.items
        ++ flat_map (difference_line (V.words words.now) frame.entry.opening.now frame.entry.both
        reason.now.lower reason.now.upper) reason.now.named.items) }
{
    for difference in &reason.named {
        push_difference(text, words, frame, reason, *difference)?;
    }
    Ok(())
}

/// Adds the numbers of the categories that are spared, each with a space before it.
fn push_spared<V: Wording>(
    text: &mut Vec<u8>,
    words: &V,
    spared: &[Difference],
) -> Result<(), AllocError>
    ensures { OnOk result (text.new.items ≡ text.old.items
        ++ flat_map (spared_text (V.words words.now)) spared.now) }
{
    for difference in spared {
        text.extend_from_slice(b" ")?;
        words.push_listed(text, difference.category)?;
    }
    Ok(())
}

/// Adds that a reason is about all categories except the spared ones.
fn push_but<V: Wording>(
    text: &mut Vec<u8>,
    words: &V,
    spared: &[Difference],
) -> Result<(), AllocError>
    ensures { OnOk result (text.new.items ≡ text.old.items ++ but_text (V.words words.now) spared.now) }
{
    text.extend_from_slice(b"but")?;
    push_spared(text, words, spared)
}

/// Adds the last categories that a reason is about: all that no label names, or all except the spared ones.
#[tactic(auto, unfolding(crate::specs::Texts::elsewhere_text))]
fn push_elsewhere<V: Wording>(
    text: &mut Vec<u8>,
    words: &V,
    spared: &[Difference],
) -> Result<(), AllocError>
    ensures { OnOk result (text.new.items ≡ text.old.items ++ elsewhere_text (V.words words.now) spared.now) }
{
    if spared.is_empty() {
        text.extend_from_slice(b"that neither label names")
    } else {
        push_but(text, words, spared)
    }
}

/// Adds the beginning of the line of all other categories.
fn push_every<V: Wording>(
    text: &mut Vec<u8>,
    words: &V,
    opening: &[u8],
    spared: &[Difference],
) -> Result<(), AllocError>
    ensures { OnOk result (text.new.items ≡ text.old.items
        ++ every_text (V.words words.now) opening.now spared.now) }
{
    text.extend_from_slice(opening)?;
    text.extend_from_slice(b"at all categories ")?;
    push_elsewhere(text, words, spared)?;
    text.extend_from_slice(b": ")
}

/// Adds the last line of a reason, where its comparison fails for the defaults of both labels.
fn push_elsewhere_line<V: Wording>(
    text: &mut Vec<u8>,
    words: &V,
    frame: Frame,
    reason: &Reason,
) -> Result<(), AllocError>
    ensures { OnOk result (text.new.items ≡ text.old.items
        ++ elsewhere_line (V.words words.now) frame.entry.opening.now frame.entry.both reason.now
        reason.now.elsewhere) }
{
    let Some((lower, upper)) = reason.elsewhere else {
        return Ok(());
    };
    push_every(text, words, frame.opening, reason.spared.as_slice())?;
    push_levels(text, reason, lower, upper, frame.both)
}

/// Adds the lines of a reason.
fn push_reason<V: Wording>(
    text: &mut Vec<u8>,
    words: &V,
    frame: Frame,
    reason: &Reason,
) -> Result<(), AllocError>
    ensures { OnOk result (text.new.items ≡ text.old.items
        ++ reason_lines (V.words words.now) frame.entry.opening.now frame.entry.both reason.now) }
{
    push_differences(text, words, frame, reason)?;
    push_elsewhere_line(text, words, frame, reason)
}

/// Adds the lines of reasons.
fn push_reasons<V: Wording>(
    text: &mut Vec<u8>,
    words: &V,
    opening: &[u8],
    reasons: &[Reason],
) -> Result<(), AllocError>
    ensures { OnOk result (text.new.items ≡ text.old.items
        ++ all_reason_lines (V.words words.now) opening.now reasons.now) }
{
    let frame = Frame {
        opening,
        both: both_fail(reasons),
    };
    for reason in reasons {
        push_reason(text, words, frame, reason)?;
    }
    Ok(())
}

/// Adds the line of the obstacle, if there is one.
fn push_obstacle_line(
    text: &mut Vec<u8>,
    opening: &[u8],
    obstacle: Option<Obstacle>,
) -> Result<(), AllocError>
    ensures { OnOk result (text.new.items ≡ text.old.items ++ obstacle_lines opening.now obstacle) }
{
    let Some(obstacle) = obstacle else {
        return Ok(());
    };
    text.extend_from_slice(opening)?;
    push_obstacle(text, obstacle)?;
    text.extend_from_slice(b"\n")
}

/// Adds the lines that explain why the call of an entry was denied.
pub fn push_explanation<V: Wording>(
    alloc: Global,
    text: &mut Vec<u8>,
    words: &V,
    entry: &TraceEntry,
    explanation: &Explanation,
) -> Result<(), AllocError>
    ensures { OnOk result (text.new.items ≡ text.old.items
        ++ explanation_text (V.words words.now) entry.now.line entry.now.thread explanation.now) }
{
    let opening = opening(alloc, words, entry.line, entry.thread, explanation.act)?;
    push_all_unmade(
        text,
        words,
        opening.as_slice(),
        explanation.unmade.as_slice(),
    )?;
    push_reasons(
        text,
        words,
        opening.as_slice(),
        explanation.reasons.as_slice(),
    )?;
    push_obstacle_line(text, opening.as_slice(), explanation.obstacle)
}
