//! Kinds of bytes, and the longest front of one kind.

ghost use Rattle.std.specs.Prelude.{◌≡◌, ◌≤◌, length};
ghost use Rattle.std.specs.List.{prefix_len};
ghost use Rattle.text_lines.specs.Bytes as spec;

/// Which bytes a word is made of.
#[derive(Clone, Copy, Debug, PartialEq, Eq)]
pub enum WordKind {
    /// All but blanks.
    Solid,
    /// Letters and digits.
    Key,
    /// All but blanks and the signs `(`, `)`, `,`, `=` and `:`. A name is read so.
    Name,
    /// All but blanks and the signs `(` and `=`. A side is read so.
    Side,
    /// All but blanks and `(`. An action is read so.
    Action,
    /// All but `)`. What stands in brackets is read so.
    Argument,
    /// All but blanks and `)`. A word in brackets is read so.
    Choice,
    /// All but blanks, `)` and `+`. A word of a sum in brackets is read so.
    Chord,
}

impl WordKind {
    /// Whether the byte may stand in a word of this kind.
    pub fn takes(self, byte: u8) -> bool
        ensures { result ≡ spec.takes self byte }
    {
        match self {
            WordKind::Solid => !is_blank(byte),
            WordKind::Key => byte.is_ascii_alphanumeric(),
            WordKind::Name => {
                !(is_blank(byte)
                    || byte == b'('
                    || byte == b')'
                    || byte == b','
                    || byte == b'='
                    || byte == b':')
            }
            WordKind::Side => !(is_blank(byte) || byte == b'(' || byte == b'='),
            WordKind::Action => !(is_blank(byte) || byte == b'('),
            WordKind::Argument => byte != b')',
            WordKind::Choice => !(is_blank(byte) || byte == b')' || byte == b','),
            WordKind::Chord => { !(is_blank(byte) || byte == b')' || byte == b',' || byte == b'+') }
        }
    }
}

pub(crate) fn is_blank(byte: u8) -> bool
    ensures { result ≡ spec.is_blank byte }
{
    byte == b' ' || byte == b'\t'
}

pub(crate) fn is_allowed(byte: u8) -> bool
    ensures { result ≡ spec.is_allowed byte }
{
    byte == b'\t' || (b' ' <= byte && byte <= b'~')
}

/// The bytes without the blanks at their front.
pub fn unblanked(bytes: &[u8]) -> &[u8]
    ensures value { result.now ≡ spec.unblanked bytes.now }
    ensures bound { length result.now ≤ length bytes.now }
{
    let mut rest = bytes;
    while let [byte, after @ ..] = rest {
        if !is_blank(*byte) {
            return rest;
        }
        rest = after;
    }
    rest
}

/// How many bytes of that kind stand at the front.
#[tactic(auto, using(std::proofs::lemmas::List::Sums::prefix_len_is))]
pub fn word_len(bytes: &[u8], kind: WordKind) -> usize
    ensures len { result ≡ prefix_len (spec.takes kind) bytes.now }
    ensures bound { result ≤ length bytes.now }
{
    for (i, byte) in bytes.iter().enumerate() {
        if !kind.takes(*byte) {
            return i;
        }
    }
    bytes.len()
}
