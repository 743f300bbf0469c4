//! The kinds of the arguments of raw calls.
ghost use Rattle.std.specs.Prelude.{◌≡◌, ◌++◌, IfOk, OnOk, codes, drop};
ghost use Rattle.std.specs.List.{flat_map};
ghost use Rattle.std.specs.Option.{option_copied};
ghost use Rattle.histar_raw_lint.specs.Rules.{kind_name, kinds_among, object_calls, raw_calls, usage_text};

use std::alloc::{AllocError, Global};

/// The kind of an argument of a raw call.
#[derive(Clone, Copy)]
pub enum Kind {
    Container,
    Object,
    Segment,
    Gate,
    Keep,
    Label,
    Clearance,
    Verify,
    Bytes,
    Entry,
}

/// Returns the kinds of the arguments of the raw call of a name, if there is one.
pub(crate) fn kinds_named(name: &[u8]) -> Option<&'static [Kind]>
    ensures { option_copied result ≡ kinds_among raw_calls name.now }
{
    if name == b"make_category".as_slice() {
        Some(&[])
    } else if name == b"self".as_slice() {
        Some(&[])
    } else if name == b"set_label".as_slice() {
        Some(&[Kind::Label])
    } else if name == b"set_clearance".as_slice() {
        Some(&[Kind::Clearance])
    } else {
        making_kinds(name)
    }
}

/// Returns the kinds of the arguments of a call that makes an object, or is on objects that are there.
fn making_kinds(name: &[u8]) -> Option<&'static [Kind]>
    ensures { option_copied result ≡ kinds_among (drop 4 raw_calls) name.now }
{
    if name == b"make_segment".as_slice() {
        Some(&[Kind::Container, Kind::Label, Kind::Bytes])
    } else if name == b"make_container".as_slice() {
        Some(&[Kind::Container, Kind::Label])
    } else if name == b"make_thread".as_slice() {
        Some(&[Kind::Container, Kind::Label, Kind::Clearance])
    } else if name == b"make_gate".as_slice() {
        Some(&[Kind::Container, Kind::Label, Kind::Clearance, Kind::Entry])
    } else {
        object_kinds(name)
    }
}

/// Returns the kinds of the arguments of a call on objects that are there.
fn object_kinds(name: &[u8]) -> Option<&'static [Kind]>
    ensures { option_copied result ≡ kinds_among object_calls name.now }
{
    if name == b"enter".as_slice() {
        Some(&[
            Kind::Container,
            Kind::Gate,
            Kind::Label,
            Kind::Clearance,
            Kind::Verify,
        ])
    } else if name == b"read".as_slice() {
        Some(&[Kind::Container, Kind::Segment])
    } else if name == b"write".as_slice() {
        Some(&[Kind::Container, Kind::Segment, Kind::Keep, Kind::Bytes])
    } else if name == b"unlink".as_slice() {
        Some(&[Kind::Container, Kind::Object])
    } else if name == b"label".as_slice() {
        Some(&[Kind::Container, Kind::Object])
    } else {
        None
    }
}

/// Returns the name of an argument in the form of a call.
fn kind_name(kind: Kind) -> &'static str
    ensures { result.now ≡ kind_name kind }
{
    match kind {
        Kind::Container => "CONTAINER",
        Kind::Object => "OBJECT",
        Kind::Segment => "SEGMENT",
        Kind::Gate => "GATE",
        Kind::Keep => "KEEP",
        Kind::Label => "LABEL",
        Kind::Clearance => "CLEARANCE",
        Kind::Verify => "VERIFY",
        Kind::Bytes => "BYTES",
        Kind::Entry => "ENTRY",
    }
}

/// Adds the names of arguments, with a space before each.
fn push_kinds(said: &mut Vec<u8>, kinds: &[Kind]) -> Result<(), AllocError>
    ensures { OnOk result (said.new.items
        ≡ said.old.items ++ flat_map (λ k. codes " " ++ kind_name k) kinds.now) }
{
    'kinds: for kind in kinds {
        push_kind(said, *kind)?;
    }
    Ok(())
}

/// Adds the name of an argument, with a space before it.
fn push_kind(said: &mut Vec<u8>, kind: Kind) -> Result<(), AllocError>
    ensures { OnOk result (said.new.items ≡ said.old.items ++ (codes " " ++ kind_name kind)) }
{
    said.extend_from_slice(b" ")?;
    said.extend_from_slice(kind_name(kind).as_bytes())?;
    Ok(())
}

/// Returns the sentence that shows the form of the call of a name.
pub(crate) fn usage_text(alloc: Global, name: &[u8], kinds: &[Kind]) -> Result<Vec<u8>, AllocError>
    ensures { IfOk result (λ said. said.items ≡ usage_text name.now kinds.now) }
{
    let mut said = Vec::from_slice(alloc, b"the call is `THREAD ".as_slice())?;
    said.extend_from_slice(name)?;
    push_kinds(&mut said, kinds)?;
    said.extend_from_slice(b"`")?;
    Ok(said)
}
