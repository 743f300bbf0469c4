//! The bytes of process segments.
ghost use Rattle.std.specs.Prelude.{◌≡◌, ◌++◌, ◌<◌, List, Some, None, IfOk, OnOk, MatchOption, option_map, is_some, OnErr};
ghost use Rattle.histar_flat.specs.Words.{most_children};
ghost use Rattle.histar_layout.specs.Reading.{Gives};
ghost use Rattle.histar_layout.specs.Status.{ProcessStatus, IsChanged, child_bytes, child_in, children_in, head_in, head_of};
ghost use Rattle.histar_layout.specs.Status.{life_in, look_for, once_exited, started, status_bytes, status_in, with_child_listed};
ghost use Rattle.histar_layout.specs.Status.{without_child};
ghost use Rattle.histar_layout.specs.StatusParts.{AppendsOthers, HasRoomForChild, IsSplit, StatusesAreSpelled, head_bytes};

use crate::read_entry::read_number;
use histar_base::Bytes;
use histar_heap::{Heap, MOST_ROOM};
use histar_object::ObjId;
use std::alloc::AllocError;

/// A child of a process, as the process's segment lists it.
#[derive(Clone, Copy, Debug, PartialEq, Eq)]
pub struct Child {
    /// Its number, the last one of its name.
    pub number: u8,
    /// Its container.
    pub container: ObjId,
    /// Its process segment.
    pub segment: ObjId,
}

/// The head of a process segment.
#[derive(Clone, Copy, Debug, PartialEq, Eq)]
pub struct StatusHead {
    /// The number that the process has exited with, if it has.
    pub exited: Option<u8>,
    /// The number of children that were born to it.
    pub born: u8,
    /// Its internal container, which holds its thread; 0 once it has exited.
    pub internal: ObjId,
    /// Its thread; 0 once it has exited.
    pub thread: ObjId,
}

/// The bytes are no process segment's.
#[derive(Clone, Copy, Debug, PartialEq, Eq)]
pub struct NotAStatus;

/// The greatest number of children that a process segment lists.
const MOST_CHILDREN: usize = 64;

/// The number of bytes of the head of a process segment.
const HEAD_LEN: usize = 19;

/// The number of bytes of a child in a process segment.
const CHILD_LEN: usize = 17;

/// Reads the head of a process segment; none, where the bytes are no process segment's. It goes over the
/// bytes once, and takes no memory.
pub fn read_status(bytes: &[u8]) -> Option<StatusHead>
    ensures { result ≡ option_map head_of (status_in bytes.now) }
{
    let Some((head, _)) = split_status(bytes) else {
        return None;
    };
    Some(head)
}

/// Looks up the child of this number in a process segment. It steps from child to child by their length, up
/// to the one that has the number, and takes no memory.
pub fn find_child(bytes: &[u8], number: u8) -> Result<Option<Child>, NotAStatus>
    ensures { result ≡ look_for (status_in bytes.now) number }
{
    let Some((_, children)) = read_head(bytes) else {
        return Err(NotAStatus);
    };
    if !are_children(children) {
        return Err(NotAStatus);
    }
    let mut rest = children;
    'children: while let Some((front, after)) = rest.split_first_chunk::<CHILD_LEN>() {
        if front[0] == number {
            return Ok(first_child(rest));
        }
        rest = after;
    }
    Ok(None)
}

/// Returns the bytes of the segment of a process that has just started.
pub fn first_status<H: Heap>(heap: H, internal: ObjId, thread: ObjId) -> Result<Bytes, AllocError>
    ensures ok { IfOk result (λ bytes. bytes ≡ status_bytes (started internal thread)) }
    ensures memory { OnErr result H.Refused }
{
    let head = StatusHead {
        exited: None,
        born: 0,
        internal,
        thread,
    };
    let mut out = heap.with_room(HEAD_LEN)?;
    push_head(heap, &mut out, head)?;
    Ok(Bytes::from_vec(out))
}

/// Returns the bytes of a process segment after the process has exited with this number. Where the old ones
/// are no process segment's, there are none.
pub fn exit_status<H: Heap>(heap: H, bytes: &[u8], number: u8) -> Result<Bytes, AllocError>
    ensures ok { IfOk result (IsChanged (once_exited number) bytes.now) }
    ensures memory { OnErr result H.Refused }
{
    let Some((head, children)) = split_status(bytes) else {
        return Ok(Bytes::new(heap.alloc()));
    };
    let head = StatusHead {
        exited: Some(number),
        born: head.born,
        internal: ObjId::new(0),
        thread: ObjId::new(0),
    };
    let mut out = heap.with_room(bytes.len().min(MOST_ROOM))?;
    push_head(heap, &mut out, head)?;
    heap.extend(&mut out, children)?;
    Ok(Bytes::from_vec(out))
}

/// Returns the bytes of a process segment after one more child was born, with these objects. Where the old
/// ones are no process segment's, there are none.
pub fn add_child<H: Heap>(
    heap: H,
    bytes: &[u8],
    container: ObjId,
    segment: ObjId,
) -> Result<Bytes, AllocError>
    requires { HasRoomForChild bytes.now }
    ensures ok { IfOk result (IsChanged (with_child_listed container segment) bytes.now) }
    ensures memory { OnErr result H.Refused }
{
    let Some((head, children)) = split_status(bytes) else {
        return Ok(Bytes::new(heap.alloc()));
    };
    let number = head.born + 1;
    let mut out = heap.with_room((bytes.len() + CHILD_LEN).min(MOST_ROOM))?;
    push_head(
        heap,
        &mut out,
        StatusHead {
            born: number,
            ..head
        },
    )?;
    heap.extend(&mut out, children)?;
    push_child(
        heap,
        &mut out,
        Child {
            number,
            container,
            segment,
        },
    )?;
    Ok(Bytes::from_vec(out))
}

/// Returns the bytes of a process segment after the child of this number was killed. Where the old ones are
/// no process segment's, there are none.
pub fn remove_child<H: Heap>(heap: H, bytes: &[u8], number: u8) -> Result<Bytes, AllocError>
    ensures ok { IfOk result (IsChanged (without_child number) bytes.now) }
    ensures memory { OnErr result H.Refused }
{
    let Some((head, children)) = split_status(bytes) else {
        return Ok(Bytes::new(heap.alloc()));
    };
    let mut out = heap.with_room(bytes.len().min(MOST_ROOM))?;
    push_head(heap, &mut out, head)?;
    push_others(heap, &mut out, children, number)?;
    Ok(Bytes::from_vec(out))
}

/// Proves that the status that is read from bytes is spelled by them, and that a spelled status is read
/// again.
pub fn statuses_are_spelled()
    ensures { StatusesAreSpelled }
{}

// Splits a process segment into its head and the bytes of its children, which are all checked.
fn split_status(bytes: &[u8]) -> Option<(StatusHead, &[u8])>
    ensures { MatchOption result (status_in bytes.now ≡ None) (λ found. IsSplit bytes.now found.0 found.1.now) }
{
    let Some((head, children)) = read_head(bytes) else {
        return None;
    };
    if !are_children(children) {
        return None;
    }
    Some((head, children))
}

// Checks whether bytes list children, no more than a process can have. Any bytes of its length are a child, so the
// number of the bytes tells.
fn are_children(bytes: &[u8]) -> bool
    ensures { result ≡ is_some (children_in most_children bytes.now) }
{
    (bytes.len() <= MOST_CHILDREN * CHILD_LEN) & (bytes.len() % CHILD_LEN == 0)
}

#[tactic(auto, unfolding(crate::specs::Status::head_in))]
fn read_head(bytes: &[u8]) -> Option<(StatusHead, &[u8])>
    ensures { Gives (λ found. (found.0, found.1.now)) result (head_in bytes.now) }
{
    let [letter, number, born, rest @ ..] = bytes else {
        return None;
    };
    let exited = read_life(*letter, *number)?;
    let (internal, rest) = read_number(rest)?;
    let (thread, rest) = read_number(rest)?;
    let head = StatusHead {
        exited,
        born: *born,
        internal: ObjId::new(internal),
        thread: ObjId::new(thread),
    };
    Some((head, rest))
}

// Reads whether a process runs, or the number that it has exited with.
fn read_life(letter: u8, number: u8) -> Option<Option<u8>>
    ensures { result ≡ life_in letter number }
{
    match letter {
        b'r' if number == 0 => Some(None),
        b'x' => Some(Some(number)),
        _ => None,
    }
}

// Reads the child at the front.
#[tactic(auto, unfolding(crate::specs::Status::child_in))]
fn first_child(bytes: &[u8]) -> Option<Child>
    ensures { result ≡ option_map (λ found. found.0) (child_in bytes.now) }
{
    let [number, rest @ ..] = bytes else {
        return None;
    };
    let (container, rest) = read_number(rest)?;
    let (segment, _) = read_number(rest)?;
    Some(Child {
        number: *number,
        container: ObjId::new(container),
        segment: ObjId::new(segment),
    })
}

// Appends the head of a process segment.
fn push_head<H: Heap>(heap: H, out: &mut Vec<u8>, head: StatusHead) -> Result<(), AllocError>
    ensures ok { OnOk result (out.new.items ≡ out.old.items ++ head_bytes head) }
    ensures memory { OnErr result H.Refused }
{
    let (letter, number) = match head.exited {
        None => (b'r', 0),
        Some(number) => (b'x', number),
    };
    heap.push(out, letter)?;
    heap.push(out, number)?;
    heap.push(out, head.born)?;
    heap.extend(out, &head.internal.number().to_be_bytes())?;
    heap.extend(out, &head.thread.number().to_be_bytes())?;
    Ok(())
}

// Appends a child.
fn push_child<H: Heap>(heap: H, out: &mut Vec<u8>, child: Child) -> Result<(), AllocError>
    ensures ok { OnOk result (out.new.items ≡ out.old.items ++ child_bytes child) }
    ensures memory { OnErr result H.Refused }
{
    heap.push(out, child.number)?;
    heap.extend(out, &child.container.number().to_be_bytes())?;
    heap.extend(out, &child.segment.number().to_be_bytes())?;
    Ok(())
}

// Appends the children of other numbers, as they are in the bytes.
fn push_others<H: Heap>(
    heap: H,
    out: &mut Vec<u8>,
    children: &[u8],
    number: u8,
) -> Result<(), AllocError>
    ensures ok { OnOk result (AppendsOthers number children.now out.old.items out.new.items) }
    ensures memory { OnErr result H.Refused }
{
    let mut rest = children;
    'children: while let Some((child, after)) = rest.split_first_chunk::<CHILD_LEN>() {
        if child[0] != number {
            heap.extend(out, child)?;
        }
        rest = after;
    }
    Ok(())
}
