//! The totals of the lines of a log.

ghost use Rattle.std.specs.Prelude.{ℕ, List, [], ◌∷◌, ◌++◌};
ghost use Rattle.log_tally.specs.OpenLines.{AreTotalsOf};

use crate::open_line::OpenLine;

/// The totals of all whole lines so far, and what is kept of the line after them.
#[derive(Drop)]
pub(crate) struct Totals {
    line: OpenLine,
    pub(crate) frames: u64,
    pub(crate) taken: u64,
    pub(crate) queued: u64,
}

impl Totals {
    /// The totals of no line.
    pub(crate) fn new() -> Totals
        ensures { AreTotalsOf result [] }
    {
        Totals {
            line: OpenLine::new(),
            frames: 0,
            taken: 0,
            queued: 0,
        }
    }

    /// Goes on by a byte.
    pub(crate) fn take(&mut self, byte: u8)
        ensures { (text : List ℕ) → AreTotalsOf self.old text
            → AreTotalsOf self.new (text ++ byte ∷ []) }
    {
        if byte != b'\n' {
            self.line.push(byte);
            return;
        }
        self.frames = self.frames.saturating_add(self.line.frames());
        self.taken = self.taken.saturating_add(self.line.taken());
        self.queued = self.queued.saturating_add(self.line.queued());
        self.line = OpenLine::new();
    }
}
