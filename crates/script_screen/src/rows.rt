//! Rows of the grammar.

ghost use Rattle.std.specs.Prelude.{◌≡◌, ◌≤◌, ◌+◌, map, length, drop, true};
ghost use Rattle.script_screen.specs.Grammar as spec;
ghost use Rattle.script_screen.specs.Views.{IsRowOf};

/// What the lines of a form begin with, and how many arguments follow.
#[derive(Clone, Copy, Debug)]
pub(crate) struct Row {
    words: &'static [&'static str],
    arguments: usize,
}

pub(crate) fn make_row(words: &'static [&'static str], arguments: usize) -> Row
    ensures words { map (λ w. w.now) result.words.now ≡ map (λ w. w.now) words.now }
    ensures arguments { result.arguments ≡ arguments }
{
    Row { words, arguments }
}

fn begins(words: &[&[u8]], wanted: &[&str]) -> bool
    ensures { result ≡ spec.begins_with (map (λ w. w.now) wanted.now) (map (λ w. w.now) words.now) }
{
    let mut missing = wanted;
    let mut rest = words;
    while let [next, more @ ..] = missing {
        match rest {
            [word, after @ ..] if next.as_bytes() == *word => {
                missing = more;
                rest = after;
            }
            _ => return false,
        }
    }
    true
}

impl Row {
    /// Whether a line of these words is of this form.
    pub(crate) fn takes(&self, words: &[&[u8]]) -> bool
        ensures { (row : spec.Row) → IsRowOf self.now row
            → result ≡ spec.takes row (map (λ w. w.now) words.now) }
    {
        begins(words, self.words)
            && words.len().checked_sub(self.words.len()) == Some(self.arguments)
    }

    /// The arguments of a line of these words.
    pub(crate) fn arguments<'a, 'w>(&self, words: &'a [&'w [u8]]) -> &'a [&'w [u8]]
        requires { length self.now.words.now ≤ length words.now }
        ensures rest { map (λ w. w.now) result.now
            ≡ drop (length self.now.words.now) (map (λ w. w.now) words.now) }
        ensures count { length self.now.words.now + length result.now ≡ length words.now }
    {
        &words[self.words.len()..]
    }
}
