//! Names of screens.

ghost use Rattle.std.specs.Prelude.{◌≡◌, ◌≤◌, ◌==◌, ◌-◌, ◌<◌, ◌^◌, length, true, false};
ghost use Rattle.std.specs.Prelude.{MatchOption, IsTrue, List, ℕ};
ghost use Rattle.std.specs.List.{list_all, slice_split};
ghost use Rattle.share_base.specs.Names as spec;
ghost use Rattle.share_base.specs.Names.{is_name, same_name};

use std::marker::Model;

/// How many bytes a name has at most.
pub const LONGEST_NAME: usize = 255;

/// A name of 1 to 255 bytes: parts with dots between them, and optionally one dot after the last. A
/// part is made of letters, digits, `_` and `-`, and neither begins nor ends with `-`. Contracts
/// see the list of its bytes. No method allocates.
#[derive(Debug, Drop)]
pub struct ScreenName {
    bytes: [u8; LONGEST_NAME],
    len: usize,
}

impl Model for ScreenName {
    ghost use Rattle.std.specs.Prelude.{◌≡◌, ◌≤◌, List, ℕ, take, true};
    ghost use Rattle.share_base.specs.Names.{is_name};

    ghost Value = { List ℕ };

    ghost view = { λ n. take n.len n.bytes };

    ghost invariant = { λ n. (n.len ≤ 255) × (is_name (take n.len n.bytes) ≡ true) };
}

impl ScreenName {
    /// Reads a name; `None` if the bytes are not one.
    pub fn read(bytes: &[u8]) -> Option<ScreenName>
        ensures { MatchOption result (is_name bytes.now ≡ false)
            (λ n. (is_name bytes.now ≡ true) × (n ≡ bytes.now)) }
    {
        if !is_screen_name(bytes) {
            return None;
        }
        let mut kept = [0; LONGEST_NAME];
        let len = bytes.len();
        let part = &mut kept[..len];
        part.copy_from_slice(bytes);
        Some(ScreenName { bytes: kept, len })
    }

    /// Whether both name one screen: they are equal, or differ in capital and small letters alone.
    pub fn same(&self, other: &ScreenName) -> bool
        ensures { result ≡ same_name self.now other.now }
    {
        self.is_called(other.as_slice())
    }

    /// Whether it names the screen that these bytes name. Bytes that are no name name none.
    #[tactic(auto, unfolding(crate::specs::Names::same_name))]
    pub fn is_called(&self, bytes: &[u8]) -> bool
        ensures { result ≡ same_name self.now bytes.now }
    {
        self.as_slice().eq_ignore_ascii_case(bytes)
    }

    /// The bytes, as they were read.
    pub fn as_slice(&self) -> &[u8]
        ensures value { result.now ≡ self.now }
        ensures named { is_name self.now ≡ true }
    {
        &self.bytes[..self.len]
    }
}

fn is_edge_byte(byte: u8) -> bool
    ensures { result ≡ spec.is_edge_byte byte }
{
    byte.is_ascii_alphanumeric() || byte == b'_'
}

fn is_part_byte(byte: u8) -> bool
    ensures { result ≡ spec.is_part_byte byte }
{
    is_edge_byte(byte) || byte == b'-'
}

fn all_part_bytes(bytes: &[u8]) -> bool
    ensures { result ≡ list_all spec.is_part_byte bytes.now }
{
    bytes.iter().all(|byte| is_part_byte(*byte))
}

fn is_part(bytes: &[u8]) -> bool
    ensures { result ≡ spec.is_part bytes.now }
{
    if bytes.is_empty() {
        return false;
    }
    is_edge_byte(bytes[0]) && is_edge_byte(bytes[bytes.len() - 1]) && all_part_bytes(bytes)
}

fn undotted(bytes: &[u8]) -> &[u8]
    ensures { result.now ≡ spec.undotted bytes.now }
{
    match bytes {
        [front @ .., b'.'] => front,
        _ => bytes,
    }
}

fn all_parts(bytes: &[u8]) -> bool
    ensures { result ≡ list_all spec.is_part (slice_split (λ b. b == 46) bytes.now) }
{
    bytes.split(|byte| *byte == b'.').all(|part| is_part(part))
}

#[tactic(auto, unfolding(crate::specs::Names::is_name))]
fn is_screen_name(bytes: &[u8]) -> bool
    ensures is { result ≡ is_name bytes.now }
    ensures short { IsTrue result → length bytes.now ≤ 255 }
{
    if bytes.len() > LONGEST_NAME {
        return false;
    }
    all_parts(undotted(bytes))
}
