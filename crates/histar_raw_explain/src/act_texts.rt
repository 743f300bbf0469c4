//! The words for the action that a denied call tried, and for its obstacle.
ghost use Rattle.std.specs.Prelude.{◌≡◌, ◌++◌, OnOk, codes};
ghost use Rattle.histar_raw_explain.specs.Texts.{act_text, not_linked_text, object_text, obstacle_text, plain_text, too_long_text};

use crate::wording::Wording;
use histar_explain::{Act, Obstacle};
use histar_object::ObjId;
use histar_rawtext::push_number;
use std::alloc::AllocError;

/// Adds a verb and an object.
fn push_object<V: Wording>(
    text: &mut Vec<u8>,
    words: &V,
    verb: &str,
    object: ObjId,
) -> Result<(), AllocError>
    ensures { OnOk result (text.new.items ≡ text.old.items ++ object_text (V.words words.now) verb.now object) }
{
    text.extend_from_slice(verb.as_bytes())?;
    text.extend_from_slice(b" ")?;
    words.push_object(text, object)
}

/// Adds that the call would make an object of this kind.
fn push_making<V: Wording>(text: &mut Vec<u8>, words: &V, kind: &str) -> Result<(), AllocError>
    ensures { OnOk result (text.new.items ≡ text.old.items
        ++ (codes "make " ++ (V.words words.now).made kind.now)) }
{
    text.extend_from_slice(b"make ")?;
    words.push_made(text, kind)
}

/// Adds the action that a denied call tried.
pub(crate) fn push_act<V: Wording>(
    text: &mut Vec<u8>,
    words: &V,
    act: Act,
) -> Result<(), AllocError>
    ensures { OnOk result (text.new.items ≡ text.old.items ++ act_text (V.words words.now) act) }
{
    match act {
        Act::Call => text.extend_from_slice(b"call"),
        Act::Use(object) => push_object(text, words, "use", object),
        Act::Observe(object) => push_object(text, words, "observe", object),
        Act::Modify(object) => push_object(text, words, "modify", object),
        Act::Enter(gate) => push_object(text, words, "enter", gate),
        Act::EnterWith(gate) => {
            push_object(text, words, "enter", gate)?;
            text.extend_from_slice(b" with those labels")
        }
        Act::Write(segment) => push_object(text, words, "write", segment),
        Act::TakeLabel => text.extend_from_slice(b"take that label"),
        Act::TakeClearance => text.extend_from_slice(b"take that clearance"),
        Act::MakeCategory => text.extend_from_slice(b"make that category"),
        Act::MakeSegment => push_making(text, words, "segment"),
        Act::MakeContainer => push_making(text, words, "container"),
        Act::MakeThread => text.extend_from_slice(b"make that thread"),
        Act::MakeGate => text.extend_from_slice(b"make that gate"),
    }
}

/// Returns the text of an obstacle that has no number.
fn plain_text(obstacle: Obstacle) -> &'static str
    ensures { result.now ≡ plain_text obstacle }
{
    match obstacle {
        Obstacle::NoThread => "it is no thread",
        Obstacle::NoObject => "there is no such object",
        Obstacle::NoContainer => "it is no container",
        Obstacle::NoSegment => "it is no segment",
        Obstacle::NoGate => "it is no gate",
        Obstacle::IsThread => "it is a thread",
        Obstacle::NoNumber => "no number is left",
        Obstacle::NotLinked(_) | Obstacle::TooLong(_) => "",
    }
}

/// Adds that a container doesn't link an object.
fn push_not_linked(text: &mut Vec<u8>, container: ObjId) -> Result<(), AllocError>
    ensures { OnOk result (text.new.items ≡ text.old.items ++ not_linked_text container) }
{
    text.extend_from_slice(b"container ")?;
    push_number(*text.allocator(), text, container.number())?;
    text.extend_from_slice(b" does not link it")
}

/// Adds that no segment holds this many bytes.
fn push_too_long(text: &mut Vec<u8>, bytes: usize) -> Result<(), AllocError>
    ensures { OnOk result (text.new.items ≡ text.old.items ++ too_long_text bytes) }
{
    text.extend_from_slice(b"it would have ")?;
    push_number(*text.allocator(), text, bytes as u64)?;
    text.extend_from_slice(b" bytes, more than 4096")
}

/// Adds the obstacle of a call.
pub(crate) fn push_obstacle(text: &mut Vec<u8>, obstacle: Obstacle) -> Result<(), AllocError>
    ensures { OnOk result (text.new.items ≡ text.old.items ++ obstacle_text obstacle) }
{
    match obstacle {
        Obstacle::NotLinked(container) => push_not_linked(text, container),
        Obstacle::TooLong(bytes) => push_too_long(text, bytes),
        _ => text.extend_from_slice(plain_text(obstacle).as_bytes()),
    }
}
