//! Byte strings that own their memory.
ghost use Rattle.std.specs.Prelude.{OnErr, ◌≡◌, ◌↔◌, [], length, IsTrue, IfOk};

use histar_heap::Heap;
use std::alloc::{AllocError, Global};
use std::marker::Model;

/// The content of a file or of a segment. Contracts see it as the list of its bytes.
#[derive(Drop)]
pub struct Bytes {
    content: Vec<u8>,
}

impl Model for Bytes {
    ghost use Rattle.std.specs.Prelude.{List, ℕ};

    ghost Value = { List ℕ };

    ghost view = { λ b. b.content.items };
}

impl Bytes {
    /// Returns no bytes, and takes no memory.
    pub fn new(alloc: Global) -> Self
        ensures { result ≡ [] }
    {
        Bytes {
            content: Vec::new(alloc),
        }
    }

    /// Returns the bytes of a vector, which is moved and not copied.
    pub fn from_vec(content: Vec<u8>) -> Self
        ensures { result ≡ content.items }
    {
        Bytes { content }
    }

    /// Returns a copy of borrowed bytes.
    pub fn copy_of<H: Heap>(heap: H, source: &[u8]) -> Result<Bytes, AllocError>
        ensures ok { IfOk result (λ b. b ≡ source.now) }
        ensures memory { OnErr result H.Refused }
    {
        let content = heap.copy_of(source)?;
        Ok(Bytes { content })
    }

    pub fn as_slice(&self) -> &[u8]
        ensures { result.now ≡ self.now }
    {
        self.content.as_slice()
    }

    pub fn len(&self) -> usize
        ensures { result ≡ length self.now }
    {
        self.content.len()
    }

    pub fn is_empty(&self) -> bool
        ensures { IsTrue result ↔ (self.now ≡ []) }
    {
        self.content.is_empty()
    }

    /// Returns a copy of these bytes.
    pub fn copy<H: Heap>(&self, heap: H) -> Result<Bytes, AllocError>
        ensures ok { IfOk result (λ b. b ≡ self.now) }
        ensures memory { OnErr result H.Refused }
    {
        Bytes::copy_of(heap, self.as_slice())
    }

    /// Returns the vector that holds the bytes.
    pub fn into_vec(self) -> Vec<u8>
        ensures { result.items ≡ self }
    {
        self.content
    }
}
