//! Words, signs and numbers of a line, read from left to right.

ghost use Rattle.std.specs.Prelude.{◌≡◌, ◌<◌, ◌≤◌, ◌+◌, ◌*◌, IfOk, length};
ghost use Rattle.std.specs.Option.{option_copied};
ghost use Rattle.text_lines.specs.Bytes.{takes, front, behind};
ghost use Rattle.text_lines.specs.Reading as spec;
ghost use Rattle.text_lines.specs.Reading.{Gives};
ghost use Rattle.text_lines.specs.Views.{word_text};

use crate::bytes::{WordKind, unblanked, word_len};

/// A word of a line, with how many bytes of the line were left where it begins.
#[derive(Clone, Copy, Debug, Drop)]
pub struct Word<'a> {
    /// Its bytes.
    pub text: &'a [u8],
    /// How many bytes were left where it begins, its own among them.
    pub left: usize,
}

/// One sign, and the blanks after it. An error says how many bytes were left where another stood.
#[tactic(auto, unfolding(crate::specs::Reading::sign_at))]
pub fn sign(bytes: &[u8], wanted: u8) -> Result<&[u8], usize>
    ensures { Gives (λ x. x.now) result (spec.sign_at wanted bytes.now) }
{
    match bytes {
        [] => Err(0),
        [byte, rest @ ..] => {
            if *byte == wanted {
                Ok(unblanked(rest))
            } else {
                Err(bytes.len())
            }
        }
    }
}

/// Whether that sign stands there.
pub fn begins(bytes: &[u8], wanted: u8) -> bool
    ensures { result ≡ spec.begins wanted bytes.now }
{
    match bytes {
        [] => false,
        [byte, ..] => *byte == wanted,
    }
}

/// What follows one sign and the blanks after it. `None` if the sign doesn't stand there.
#[tactic(auto, unfolding(crate::specs::Reading::maybe_sign_at))]
pub fn maybe_sign(bytes: &[u8], wanted: u8) -> Option<&[u8]>
    ensures { option_copied result ≡ spec.maybe_sign_at wanted bytes.now }
{
    match bytes {
        [] => None,
        [byte, rest @ ..] => {
            if *byte == wanted {
                Some(unblanked(rest))
            } else {
                None
            }
        }
    }
}

/// These bytes, one by one. An error says how many bytes were left where another stood.
#[tactic(auto, unfolding(crate::specs::Reading::literal_at))]
pub fn literal<'a>(bytes: &'a [u8], wanted: &[u8]) -> Result<&'a [u8], usize>
    ensures { Gives (λ x. x.now) result (spec.literal_at wanted.now bytes.now) }
{
    let mut missing = wanted;
    let mut rest = bytes;
    while let [next, more @ ..] = missing {
        match rest {
            [byte, after @ ..] if *byte == *next => {
                missing = more;
                rest = after;
            }
            _ => return Err(rest.len()),
        }
    }
    Ok(rest)
}

fn further(number: u16, bytes: &[u8]) -> (u16, &[u8])
    requires { number < 100 }
    ensures below { result.0 ≤ 10 * number + 9 }
    ensures gives { (result.0, result.1.now) ≡ spec.further (number, bytes.now) }
{
    match bytes {
        [] => (number, bytes),
        [byte, rest @ ..] => {
            if byte.is_ascii_digit() {
                (10 * number + u16::from(*byte - b'0'), rest)
            } else {
                (number, bytes)
            }
        }
    }
}

/// A number of one to three digits, with no leading 0, and the blanks after it.
#[tactic(auto, unfolding(crate::specs::Reading::number_at))]
pub fn number(bytes: &[u8]) -> Result<(u16, &[u8]), usize>
    ensures gives { Gives (λ x. (x.0, x.1.now)) result (spec.number_at bytes.now) }
    ensures below { IfOk result (λ x. x.0 < 1000) }
{
    match bytes {
        [] => Err(0),
        [b'0', rest @ ..] => Ok((0, unblanked(rest))),
        [byte, rest @ ..] => {
            if !byte.is_ascii_digit() {
                return Err(bytes.len());
            }
            let (number, rest) = further(u16::from(*byte - b'0'), rest);
            let (number, rest) = further(number, rest);
            Ok((number, unblanked(rest)))
        }
    }
}

/// The longest run of bytes of that kind, which may be empty, and the blanks after it.
pub fn run(bytes: &[u8], kind: WordKind) -> (Word<'_>, &[u8])
    ensures { (word_text result.0, result.1.now) ≡ spec.run_at (takes kind) bytes.now }
{
    let (text, rest) = bytes.split_at(word_len(bytes, kind));
    (
        Word {
            text,
            left: bytes.len(),
        },
        unblanked(rest),
    )
}

/// The same, and not empty. An error says how many bytes were left where no such byte stood.
#[tactic(auto, unfolding(crate::specs::Reading::word_at))]
pub fn whole_word(bytes: &[u8], kind: WordKind) -> Result<(Word<'_>, &[u8]), usize>
    ensures { Gives (λ x. (word_text x.0, x.1.now)) result (spec.word_at (takes kind) bytes.now) }
{
    let (text, rest) = bytes.split_at(word_len(bytes, kind));
    if text.is_empty() {
        return Err(bytes.len());
    }
    Ok((
        Word {
            text,
            left: bytes.len(),
        },
        unblanked(rest),
    ))
}

/// Nothing more. An error says how many bytes were left.
pub fn end(bytes: &[u8]) -> Result<(), usize>
    ensures { result ≡ spec.end_at bytes.now }
{
    match bytes {
        [] => Ok(()),
        _ => Err(bytes.len()),
    }
}
