//! Buffers of a fixed size.

ghost use Rattle.std.specs.Prelude.{◌≡◌, ◌≤◌, [], length};

use crate::buffer::Buffer;
use std::marker::Model;

/// How many bytes fit into `Lines`.
pub const LINES_CAPACITY: usize = 16_384;

/// How many bytes fit into a `ShortLine`.
pub const SHORT_LINE_CAPACITY: usize = 64;

/// A buffer for all lines that one call prints.
pub type Lines = FixedBuffer<LINES_CAPACITY>;

/// A buffer for one line of numbers.
pub type ShortLine = FixedBuffer<SHORT_LINE_CAPACITY>;

/// At most `CAPACITY` bytes, stored in place. Contracts see a list of bytes. No method allocates,
/// so what it prints can't be lost to `OutOfMemory`.
#[derive(Drop)]
pub struct FixedBuffer<const CAPACITY: usize> {
    bytes: [u8; CAPACITY],
    len: usize,
}

impl<const CAPACITY: usize> Model for FixedBuffer<CAPACITY> {
    ghost use Rattle.std.specs.Prelude.{List, ℕ, ◌≤◌, take};

    ghost Value = { List ℕ };

    ghost view = { λ s. take s.len s.bytes };

    ghost invariant = { λ s. s.len ≤ CAPACITY };
}

impl<const CAPACITY: usize> FixedBuffer<CAPACITY> {
    /// An empty buffer.
    pub fn new() -> FixedBuffer<CAPACITY>
        ensures { result ≡ [] }
    {
        FixedBuffer {
            bytes: [0; CAPACITY],
            len: 0,
        }
    }

    /// The bytes, first to last.
    pub fn as_slice(&self) -> &[u8]
        ensures value { result.now ≡ self.now }
        ensures bound { length self.now ≤ CAPACITY }
    {
        &self.bytes[..self.len]
    }
}

impl<const CAPACITY: usize> Buffer for FixedBuffer<CAPACITY> {
    ghost content = { λ s. s };

    ghost capacity = { λ _. CAPACITY };

    fn extend(&mut self, bytes: &[u8]) {
        let end = self.len + bytes.len();
        let room = &mut self.bytes[..];
        room[self.len..end].copy_from_slice(bytes);
        self.len = end;
    }
}
