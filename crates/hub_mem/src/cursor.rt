//! A trace, turn by turn.

ghost use Rattle.std.specs.Prelude.{◌≡◌, ◌==◌, ◌≤◌, drop, length};
ghost use Rattle.std.specs.List.{prefix_len};
ghost use Rattle.hub_mem.specs.Stories.{is_in_turn, next_turn, passed, turn_length};

use script_screen::{Trace, TraceLine};
use std::marker::Model;

/// A trace, and how many of its lines have come. No method allocates.
#[derive(Drop)]
pub struct Cursor {
    trace: Trace,
    at: usize,
}

impl Model for Cursor {
    ghost use Rattle.std.specs.Prelude.{◌≤◌, length};
    ghost use Rattle.hub_mem.specs.Stories.{TraceAt};

    ghost Value = { TraceAt };

    ghost view = { λ c. record {
      lines = c.trace;
      at = c.at;
    } };

    ghost invariant = { λ c. c.at ≤ length c.trace };
}

/// The number of lines of the turn that these lines begin with.
fn length_of_turn(ahead: &[TraceLine]) -> usize
    ensures length { result ≡ turn_length ahead.now }
    ensures within { result ≤ length ahead.now }
{
    let Some((_, below)) = ahead.split_first() else {
        return 0;
    };
    1 + lines_in_turn(below)
}

/// The number of lines before the next turn.
fn lines_in_turn(lines: &[TraceLine]) -> usize
    ensures length { result ≡ prefix_len is_in_turn lines.now }
    ensures within { result ≤ length lines.now }
{
    lines
        .iter()
        .take_while(|line| belongs_to_turn(line))
        .count()
}

fn belongs_to_turn(line: &TraceLine) -> bool
    ensures { result ≡ is_in_turn line.now }
{
    !matches!(line, TraceLine::Turn(_))
}

impl Cursor {
    /// A trace of which no line has come.
    pub fn new(trace: Trace) -> Cursor
        ensures { result ≡ record { lines = trace; at = 0 } }
    {
        Cursor { trace, at: 0 }
    }

    /// All lines of the trace.
    pub fn lines(&self) -> &[TraceLine]
        ensures { result.now ≡ self.now.lines }
    {
        self.trace.lines()
    }

    /// The lines that have not come.
    fn ahead(&self) -> &[TraceLine]
        ensures { result.now ≡ drop self.now.at self.now.lines }
    {
        let lines = self.trace.lines();
        &lines[self.at..]
    }

    /// The lines of the next turn, none if no line is ahead.
    pub fn next_turn(&self) -> &[TraceLine]
        ensures { result.now ≡ next_turn (drop self.now.at self.now.lines) }
    {
        let ahead = self.ahead();
        &ahead[..length_of_turn(ahead)]
    }

    /// Whether all lines have come.
    pub fn is_over(&self) -> bool
        ensures { result ≡ (length (drop self.now.at self.now.lines) == 0) }
    {
        self.ahead().is_empty()
    }

    /// Passes the next turn.
    pub fn pass(&mut self)
        ensures { self.new ≡ passed self.old }
    {
        let lines = self.trace.lines();
        let count = length_of_turn(&lines[self.at..]);
        self.at += count;
    }
}
