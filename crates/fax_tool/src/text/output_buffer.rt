//! The text that is collected before it is written.
ghost use Rattle.std.specs.Prelude.{◌≡◌, ◌+◌, ◌≤◌, ◌++◌, [], length, take, vec_len, OnOk, OnErr};

use crate::text::number_cache::NumberCache;
use fax_bits::Memory;
use std::alloc::Global;
use std::marker::Model;

/// The text that is collected. Contracts see its bytes.
#[derive(Drop)]
pub struct OutputBuffer {
    /// The text, and room after it.
    pub(crate) bytes: Vec<u8>,
    /// Where the text ends.
    pub(crate) end: usize,
    /// Texts of numbers that were made.
    pub(crate) texts: NumberCache,
}

impl Model for OutputBuffer {
    ghost use Rattle.std.specs.Prelude.{ℕ, List, ◌≤◌, take, vec_len};

    ghost Value = { List ℕ };

    ghost view = { λ text. take text.end text.bytes.items };

    ghost invariant = { λ text. text.end ≤ vec_len text.bytes };
}

/// How many bytes of room are made at least, so that few lines have to make some.
const LEAST_ROOM: usize = 1024;

/// Makes room for so many bytes after a text that ends here.
pub(crate) fn make_room(bytes: &mut Vec<u8>, end: usize, more: usize) -> Result<(), Memory>
    requires { end ≤ vec_len bytes.old }
    ensures room { OnOk result (end + more ≤ vec_len bytes.new) }
    ensures within { end ≤ vec_len bytes.new }
    ensures text { take end bytes.new.items ≡ take end bytes.old.items }
{
    // Room for a whole line is made before any of it is written, so that no part of it stands among
    // the lines that are written where memory is refused.
    if bytes.len() - end >= more {
        return Ok(());
    }
    let len = end.checked_add(more.max(LEAST_ROOM)).ok_or(Memory)?;
    bytes.resize(len, 0).map_err(|_| Memory)
}

/// Writes these bytes at a place, and returns where they end.
pub(crate) fn write_bytes(bytes: &mut [u8], at: usize, more: &[u8]) -> usize
    requires { at + length more.now ≤ length bytes.old }
    ensures written { take result bytes.new ≡ take at bytes.old ++ more.now }
    ensures end { result ≡ at + length more.now }
{
    for (i, byte) in more.iter().enumerate() {
        bytes[at + i] = *byte;
    }
    at + more.len()
}

impl OutputBuffer {
    /// No text.
    pub fn new(alloc: Global) -> Self
        ensures { result ≡ [] }
    {
        OutputBuffer {
            bytes: Vec::new(alloc),
            end: 0,
            texts: NumberCache::new(),
        }
    }

    /// How many bytes are collected.
    pub fn len(&self) -> usize
        ensures { result ≡ length self.now }
    {
        self.end
    }

    /// The text.
    pub fn as_bytes(&self) -> &[u8]
        ensures { result.now ≡ self.now }
    {
        &self.bytes[..self.end]
    }

    /// Empties it; its room stays.
    pub fn clear(&mut self)
        ensures { self.new ≡ [] }
    {
        self.end = 0;
    }

    /// Appends a text.
    pub fn put(&mut self, more: &str) -> Result<(), Memory>
        ensures ok { OnOk result (self.new ≡ self.old ++ more.now) }
        ensures err { OnErr result (self.new ≡ self.old) }
    {
        let end = self.end;
        make_room(&mut self.bytes, end, more.len())?;
        self.end = write_bytes(self.bytes.as_mut_slice(), end, more.as_bytes());
        Ok(())
    }
}
