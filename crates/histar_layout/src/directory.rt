//! Directories, which are kept as the bytes of their segments.
ghost use Rattle.std.specs.Prelude.{◌≡◌, ℕ, ◌+◌, ◌++◌, ◌<◌, ◌≤◌, ◌↔◌, List, IfOk, OnOk, OnErr, IsTrue};
ghost use Rattle.std.specs.FinMap as map;
ghost use Rattle.std.specs.Vec.{vec_len, vec_capacity};
ghost use Rattle.histar_layout.specs.Listing.{names_in};
ghost use Rattle.histar_layout.specs.Directory.{Entries, LeadsSomewhere, IsListable, IsDirectory, ReadsDirectory};
ghost use Rattle.histar_flat.specs.FlatCalls.{most_entries};

use crate::checked::check_directory;
use crate::entry::Target;
use crate::lookup::look_up;
use crate::push_entry::push_entry;
use crate::read_entry::read_entry;
use crate::span::{count_entries, span_of};
use histar_base::Bytes;
use histar_flat::Name;
use histar_heap::{Heap, MOST_ROOM};
use std::alloc::AllocError;
use std::marker::Model;

/// The greatest number of entries of a directory.
pub const MOST_ENTRIES: usize = 64;

/// The greatest number of bytes of an entry: a length, a name of 32 bytes, a letter and two numbers.
const MOST_ENTRY_LEN: usize = 50;

/// A directory, which is kept as the bytes of its segment. Entries are looked up, inserted and removed in
/// these bytes, and the bytes of the others stay as they are. Each entry leads to objects with numbers that
/// are not 0, and there are at most 64 entries.
#[derive(Drop)]
pub struct Dir {
    bytes: Vec<u8>,
}

impl Model for Dir {
    ghost use Rattle.std.specs.FinMap as map;
    ghost use Rattle.std.specs.Coded.{coded_ℕ, coded_list};
    ghost use Rattle.histar_layout.specs.Codes.{coded_target};
    ghost use Rattle.histar_layout.specs.Directory.{Entries, IsDirectory};
    ghost use Rattle.histar_layout.specs.Spelled.{entries_of};

    ghost Value = { Entries };

    ghost coded = { map.code (coded_list coded_ℕ) coded_target };

    ghost view = { λ d. entries_of d.bytes.items };

    ghost invariant = { λ d. IsDirectory d.bytes.items (entries_of d.bytes.items) };
}

impl Dir {
    /// Returns the target of the entry of this name.
    pub fn get(&self, name: &Name) -> Option<Target>
        ensures { result ≡ map.get self.now name.now }
    {
        look_up(self.bytes.as_slice(), name)
    }

    /// Counts the entries.
    pub fn len(&self) -> usize
        ensures value { result ≡ map.len self.now }
        ensures listable { IsListable self.now }
    {
        count_entries(self.bytes.as_slice())
    }

    /// Checks whether the directory has no room for another entry.
    pub fn is_full(&self) -> bool
        ensures full { IsTrue result ↔ (map.len self.now ≡ most_entries) }
        ensures listable { IsListable self.now }
    {
        self.len() == MOST_ENTRIES
    }

    /// Inserts an entry, which replaces one of the same name.
    pub fn insert<H: Heap>(
        &mut self,
        heap: H,
        name: &Name,
        target: Target,
    ) -> Result<(), AllocError>
        requires room { map.len self.old < most_entries }
        requires leads { LeadsSomewhere target }
        ensures ok { OnOk result (self.new ≡ map.insert self.old name.now target) }
        ensures err { OnErr result (self.new ≡ self.old) }
        ensures memory { OnErr result H.Refused }
    {
        let old = self.bytes.as_slice();
        let span = span_of(old, name);
        let mut bytes = heap.with_room((old.len() + MOST_ENTRY_LEN).min(MOST_ROOM))?;
        heap.extend(&mut bytes, &old[..span.start])?;
        push_entry(heap, &mut bytes, name, target)?;
        heap.extend(&mut bytes, &old[span.end..])?;
        self.bytes = bytes;
        Ok(())
    }

    /// Removes the entry of this name.
    pub fn remove(&mut self, name: &Name)
        ensures without { self.new ≡ map.remove self.old name.now }
        ensures listable { IsListable self.old }
    {
        let span = span_of(self.bytes.as_slice(), name);
        self.bytes.drain(span);
    }

    /// Appends the names of the entries, by rising bytes, each with whether it is a directory, to a list that
    /// has room for them. In this way a listing allocates before its directory is read.
    pub fn list(&self, names: &mut Vec<(Name, bool)>)
        requires { vec_len names.old + most_entries ≤ vec_capacity names.old }
        ensures { names.new.items ≡ names.old.items ++ names_in self.now }
    {
        let mut rest = self.bytes.as_slice();
        'entries: while let Some(found) = read_entry(rest) {
            let (name, target, after) = found;
            names.push_reserved((name, target.is_directory()));
            rest = after;
        }
    }

    /// Returns the entries, by rising names.
    pub fn entries<H: Heap>(&self, heap: H) -> Result<Vec<(Name, Target)>, AllocError>
        ensures ok { IfOk result (λ entries. entries.items ≡ map.entries self.now) }
        ensures memory { OnErr result H.Refused }
    {
        let mut entries = heap.with_room(MOST_ENTRIES)?;
        let mut rest = self.bytes.as_slice();
        'entries: while let Some(found) = read_entry(rest) {
            let (name, target, after) = found;
            heap.push(&mut entries, (name, target))?;
            rest = after;
        }
        Ok(entries)
    }

    /// Takes bytes as the directory that they are, if they are one.
    pub fn from_bytes(bytes: Bytes) -> Option<Dir>
        ensures { ReadsDirectory bytes result }
    {
        match check_directory(bytes.as_slice()) {
            Ok(()) => Some(Dir {
                bytes: bytes.into_vec(),
            }),
            Err(_) => None,
        }
    }

    /// Returns the bytes of its segment.
    pub fn into_bytes(self) -> Bytes
        ensures { IsDirectory result self }
    {
        Bytes::from_vec(self.bytes)
    }
}

/// Reads a directory from a copy of the bytes of its segment. None where they are no directory.
pub fn read_dir<H: Heap>(heap: H, bytes: &[u8]) -> Result<Option<Dir>, AllocError>
    ensures ok { IfOk result (ReadsDirectory bytes.now) }
    ensures memory { OnErr result H.Refused }
{
    Ok(Dir::from_bytes(Bytes::copy_of(heap, bytes)?))
}

/// Returns a copy of the bytes of a directory's segment.
pub fn write_dir<H: Heap>(heap: H, dir: &Dir) -> Result<Bytes, AllocError>
    ensures ok { IfOk result (λ bytes. IsDirectory bytes dir.now) }
    ensures memory { OnErr result H.Refused }
{
    Bytes::copy_of(heap, dir.bytes.as_slice())
}

/// Proves that bytes are one directory at most.
pub fn one_directory()
    ensures { (bytes : List ℕ) (a b : Entries) → IsDirectory bytes a → IsDirectory bytes b → a ≡ b }
{}
