//! Devices that move one byte a call.
use std::alloc::Global;
use std::io;
use std::io::{Read, Write};

/// Gives one byte a call.
#[derive(Drop)]
pub struct ByteReader<'a> {
    rest: &'a [u8],
}

impl<'a> ByteReader<'a> {
    /// Returns a reader of this text.
    pub fn new(text: &'a [u8]) -> ByteReader<'a> {
        ByteReader { rest: text }
    }
}

impl Read for ByteReader<'_> {
    fn read(&mut self, buffer: &mut [u8]) -> io::Result<usize> {
        let n = 1.min(buffer.len()).min(self.rest.len());
        let (front, rest) = self.rest.split_at(n);
        buffer[..n].copy_from_slice(front);
        self.rest = rest;
        Ok(n)
    }
}

/// Takes one byte a call, and keeps it.
#[derive(Drop)]
pub struct ByteWriter {
    taken: Vec<u8>,
}

impl ByteWriter {
    /// Returns a writer that has taken nothing.
    pub fn new(alloc: Global) -> ByteWriter {
        ByteWriter {
            taken: Vec::new(alloc),
        }
    }

    /// Returns the bytes that were taken.
    pub fn into_taken(self) -> Vec<u8> {
        self.taken
    }
}

impl Write for ByteWriter {
    fn write(&mut self, bytes: &[u8]) -> io::Result<usize> {
        let n = 1.min(bytes.len());
        self.taken.extend_from_slice(&bytes[..n])?;
        Ok(n)
    }

    fn flush(&mut self) -> io::Result<()> {
        Ok(())
    }
}
