//! A line of a log that has not ended.

ghost use Rattle.std.specs.Prelude.{◌≡◌, ℕ, ◌+◌, ◌-◌, ◌*◌, if◌then◌else◌, List, [], ◌∷◌, ◌++◌};
ghost use Rattle.std.specs.Prelude.{take};
ghost use Rattle.log_tally.specs.Totals as spec;
ghost use Rattle.log_tally.specs.Totals.{capped};
ghost use Rattle.log_tally.specs.OpenLines.{IsKept};

use share_base::{Buffer, FixedBuffer};

/// One more than the longest of the words that a line is known by: a longer front tells no more.
const FRONT: usize = 7;

/// What is kept of a line so far.
#[derive(Drop)]
pub(crate) struct OpenLine {
    /// The front of its first word.
    first: FixedBuffer<FRONT>,
    blanks: u64,
    /// The number that its third word spells.
    taken: u64,
    /// The number that its fourth word spells.
    queued: u64,
}

/// The number with one digit more.
fn with_digit(number: u64, digit: u8) -> u64
    ensures { (n : ℕ) → number ≡ capped n → result ≡ capped (10 * n + (digit - 48)) }
{
    number
        .saturating_mul(10)
        .saturating_add(u64::from(digit.saturating_sub(b'0')))
}

impl OpenLine {
    /// A line with no byte yet.
    pub(crate) fn new() -> OpenLine
        ensures { IsKept result [] }
    {
        OpenLine {
            first: FixedBuffer::new(),
            blanks: 0,
            taken: 0,
            queued: 0,
        }
    }

    /// Appends a byte.
    pub(crate) fn push(&mut self, byte: u8)
        ensures { (line : List ℕ) → IsKept self.old line → IsKept self.new (line ++ byte ∷ []) }
    {
        if byte == b' ' {
            self.blanks = self.blanks.saturating_add(1);
        } else if self.blanks == 0 {
            self.push_first(byte);
        } else if self.blanks == 2 {
            self.taken = with_digit(self.taken, byte);
        } else if self.blanks == 3 {
            self.queued = with_digit(self.queued, byte);
        }
    }

    /// Appends a byte to the first word, if its front is not whole.
    fn push_first(&mut self, byte: u8)
        ensures { self.new ≡ record self.old { first = take 7 (self.old.first ++ byte ∷ []) } }
    {
        if self.first.as_slice().len() < FRONT {
            self.first.extend(&[byte]);
        }
    }

    /// How many frames the line tells of: one where it is a `send` line.
    pub(crate) fn frames(&self) -> u64
        ensures { (line : List ℕ) → IsKept self.now line
            → result ≡ (if spec.is_send line then 1 else 0) }
    {
        if self.first.as_slice() == b"send".as_slice() {
            1
        } else {
            0
        }
    }

    /// How many bytes were taken, where it is a `closed` line.
    pub(crate) fn taken(&self) -> u64
        ensures { (line : List ℕ) → IsKept self.now line → result ≡ capped (spec.line_taken line) }
    {
        if self.is_closed() { self.taken } else { 0 }
    }

    /// How many bytes were queued, where it is a `closed` line.
    pub(crate) fn queued(&self) -> u64
        ensures { (line : List ℕ) → IsKept self.now line → result ≡ capped (spec.line_queued line) }
    {
        if self.is_closed() { self.queued } else { 0 }
    }

    fn is_closed(&self) -> bool
        ensures { (line : List ℕ) → IsKept self.now line → result ≡ spec.is_closed line }
    {
        self.first.as_slice() == b"closed".as_slice()
    }
}
