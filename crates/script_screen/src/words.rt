//! The words of a line.

ghost use Rattle.std.specs.Prelude.{◌≡◌, ◌≤◌, ◌<◌, length, map, take, MatchOption};
ghost use Rattle.text_lines.specs.Words.{words_of};

use text_lines::{WordKind, unblanked, word_len};

/// How many words a line has at most.
pub(crate) const MAX_WORDS: usize = 4;

/// The words of a line that has no more than four.
#[derive(Clone, Copy, Debug)]
pub(crate) struct LineWords<'a> {
    pub words: [&'a [u8]; 4],
    pub count: usize,
    ghost few: { count ≤ 4 },
}

impl<'a> LineWords<'a> {
    /// The words, from the left.
    pub(crate) fn as_slice(&self) -> &[&'a [u8]]
        ensures { result.now ≡ take self.now.count self.now.words }
    {
        &self.words[..self.count]
    }
}

/// The words of a line, or `None` if there are more than four.
pub(crate) fn split_words(bytes: &[u8]) -> Option<LineWords<'_>>
    ensures { MatchOption result (4 < length (words_of bytes.now))
        (λ w. map (λ x. x.now) (take w.count w.words) ≡ words_of bytes.now) }
{
    let mut words: [&[u8]; 4] = [bytes; 4];
    let mut count = 0;
    let mut rest = unblanked(bytes);
    while !rest.is_empty() {
        if count == MAX_WORDS {
            return None;
        }
        let (word, after) = rest.split_at(word_len(rest, WordKind::Solid));
        words[count] = word;
        count += 1;
        rest = unblanked(after);
    }
    Some(LineWords { words, count })
}
