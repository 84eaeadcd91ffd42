//! Fields read from the front of bytes.

ghost use Rattle.std.specs.Prelude.{◌≡◌, List, length, Ok, true, false};
ghost use Rattle.std.specs.Int.{w16, w32};
ghost use Rattle.message_codec.specs.Reading.{Gives, number_at, signed_at, byte_at, text_at};
ghost use Rattle.message_codec.specs.Reading.{words_at};

use share_base::{Octets, OutOfMemory, Words32};
use std::alloc::Global;

/// Why fields could not be read.
#[derive(Clone, Copy, Debug, PartialEq, Eq)]
pub enum ReadError {
    /// A part of a field is longer than what is left, which is `left` bytes.
    Short { left: usize },
    /// Out of memory.
    Memory,
}

impl From<OutOfMemory> for ReadError {
    ghost use Rattle.std.specs.Prelude.{◌≡◌};
    ghost use Rattle.message_codec.specs.declared.reading.ReadError.TheVariants.{Memory};

    ghost from_gives = { λ _ e. e ≡ Memory };

    fn from(_e: OutOfMemory) -> ReadError {
        ReadError::Memory
    }
}

/// A number of one byte, and the bytes after it.
pub fn u8_at(bytes: &[u8]) -> Result<(u8, &[u8]), ReadError>
    ensures { Gives false (λ x. (x.0, x.1.now)) result (byte_at bytes.now) }
{
    match bytes {
        [] => Err(ReadError::Short { left: 0 }),
        [byte, rest @ ..] => Ok((*byte, rest)),
    }
}

/// A number of two bytes, and the bytes after it.
pub fn u16_at(bytes: &[u8]) -> Result<(u16, &[u8]), ReadError>
    ensures { Gives false (λ x. (x.0, x.1.now)) result (number_at w16 bytes.now) }
{
    if bytes.len() < 2 {
        return Err(ReadError::Short { left: bytes.len() });
    }
    let (front, rest) = bytes.split_at(2);
    Ok((u16::from_be_bytes([front[0], front[1]]), rest))
}

/// A signed number of two bytes, and the bytes after it.
pub fn i16_at(bytes: &[u8]) -> Result<(i16, &[u8]), ReadError>
    ensures { Gives false (λ x. (x.0, x.1.now)) result (signed_at bytes.now) }
{
    let (number, rest) = u16_at(bytes)?;
    Ok((number.cast_signed(), rest))
}

/// A number of four bytes, and the bytes after it.
pub fn u32_at(bytes: &[u8]) -> Result<(u32, &[u8]), ReadError>
    ensures { Gives false (λ x. (x.0, x.1.now)) result (number_at w32 bytes.now) }
{
    if bytes.len() < 4 {
        return Err(ReadError::Short { left: bytes.len() });
    }
    let (front, rest) = bytes.split_at(4);
    let number = u32::from_be_bytes([front[0], front[1], front[2], front[3]]);
    Ok((number, rest))
}

/// A string: its length, its bytes, and the bytes after it.
#[tactic(auto, unfolding(crate::specs::Reading::text_at))]
pub fn octets_at(alloc: Global, bytes: &[u8]) -> Result<(Octets, &[u8]), ReadError>
    ensures { Gives true (λ x. (x.0, x.1.now)) result (text_at bytes.now) }
{
    let (len, rest) = u32_at(bytes)?;
    let len = len as usize;
    if rest.len() < len {
        return Err(ReadError::Short { left: rest.len() });
    }
    let (text, rest) = rest.split_at(len);
    let mut octets = Octets::new(alloc);
    octets.extend(text)?;
    Ok((octets, rest))
}

/// `count` numbers of four bytes, and the bytes after them. Memory is taken for each number as it
/// is read, so a count without its numbers takes none.
pub fn words_of(alloc: Global, count: u32, bytes: &[u8]) -> Result<(Words32, &[u8]), ReadError>
    ensures { Gives true (λ x. (x.0, x.1.now)) result (words_at count bytes.now) }
{
    let mut words = Words32::new(alloc);
    let mut rest = bytes;
    for _ in 0..count {
        let (word, after) = u32_at(rest)?;
        words.push(word)?;
        rest = after;
    }
    Ok((words, rest))
}
