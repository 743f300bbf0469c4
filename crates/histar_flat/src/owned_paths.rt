//! Paths that own their memory, as calls hold them.
ghost use Rattle.std.specs.Prelude.{◌≡◌, ◌≤◌, [], length, reverse, IfOk, IsTrue, OnErr};
ghost use Rattle.histar_flat.specs.Words.{most_names, is_path, path_of, path_from};

use crate::names::Name;
use crate::paths::{MOST_NAMES, Path};
use crate::readers::{read_name, split_at_first};
use histar_heap::Heap;
use std::alloc::{AllocError, Global};
use std::marker::Model;

/// The path of a call: it has room for as many names as it has, where a [`Path`] has room for eight, so
/// that the calls of a script take little memory. Contracts see the same list of names.
#[derive(Drop)]
pub struct OwnedPath {
    names: Vec<Name>,
}

impl Model for OwnedPath {
    ghost use Rattle.std.specs.Prelude.{ℕ, List, IsTrue};
    ghost use Rattle.histar_flat.specs.Words.{is_path};

    ghost Value = { List (List ℕ) };

    ghost view = { λ p. p.names.items };

    ghost invariant = { λ p. IsTrue (is_path p.names.items) };
}

impl OwnedPath {
    // Returns `/`.
    fn root(alloc: Global) -> OwnedPath
        ensures { result ≡ [] }
    {
        OwnedPath {
            names: Vec::new(alloc),
        }
    }

    // Returns the path along these names from `/` on, the first name first.
    fn along(names: Vec<Name>) -> OwnedPath
        requires { IsTrue (is_path (reverse names.items)) }
        ensures { result ≡ reverse names.items }
    {
        let mut names = names;
        names.reverse();
        OwnedPath { names }
    }

    /// Returns a copy of the path, in memory of its own.
    pub fn of<H: Heap>(heap: H, path: &Path) -> Result<OwnedPath, AllocError>
        ensures ok { IfOk result (λ owned. owned ≡ path.now) }
        ensures memory { OnErr result H.Refused }
    {
        let mut names = heap.with_room(path.depth())?;
        heap.extend(&mut names, path.names())?;
        Ok(OwnedPath { names })
    }

    /// Returns the names of the path, the last one first.
    pub fn names(&self) -> &[Name]
        ensures names { result.now ≡ self.now }
        ensures right { IsTrue (is_path self.now) }
        ensures most { length self.now ≤ most_names }
    {
        self.names.as_slice()
    }

    /// Returns the same path as a value that can be copied.
    pub fn path(&self) -> Path
        ensures { result ≡ self.now }
    {
        Path::of(self.names())
    }
}

/// Returns the path that the bytes spell, in memory of its own, or `None` if they spell none.
pub fn read_owned_path<H: Heap>(heap: H, text: &[u8]) -> Result<Option<OwnedPath>, AllocError>
    ensures ok { IfOk result (λ path. path ≡ path_of text.now) }
    ensures memory { OnErr result H.Refused }
{
    match text {
        [b'/'] => Ok(Some(OwnedPath::root(heap.alloc()))),
        [b'/', names @ ..] => read_owned_names(heap, names),
        _ => Ok(None),
    }
}

// Returns the path from `/` along these names, which have slashes between them.
fn read_owned_names<H: Heap>(heap: H, text: &[u8]) -> Result<Option<OwnedPath>, AllocError>
    ensures ok { IfOk result (λ path. path ≡ path_from most_names [] text.now) }
    ensures memory { OnErr result H.Refused }
{
    let mut names = heap.with_room(count_names(text))?;
    let mut rest = text;
    for _ in 0..MOST_NAMES {
        let (word, after) = split_at_first(rest, b'/');
        let Some(name) = read_name(word) else {
            return Ok(None);
        };
        heap.push(&mut names, name)?;
        match after {
            None => return Ok(Some(OwnedPath::along(names))),
            Some(others) => rest = others,
        }
    }
    Ok(None)
}

// Returns how many names the text may have, going by its slashes, but no more than a path may have.
fn count_names(text: &[u8]) -> usize
    ensures { result ≤ most_names }
{
    let slashes = text.iter().filter(|b| **b == b'/').count();
    MOST_NAMES.min(slashes + 1)
}
