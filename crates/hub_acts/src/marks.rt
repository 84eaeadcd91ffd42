//! What a wait reports.

ghost use Rattle.std.specs.Prelude.{◌≡◌, ◌++◌, ◌∷◌, [], ◌<◌, ◌≤◌, length, IfOk};

use share_base::OutOfMemory;
use std::alloc::Global;
use std::marker::Model;

/// The most marks that one wait reports.
pub const MOST_MARKS: usize = 128;

/// One thing that a wait reports.
#[derive(Clone, Copy, Debug, PartialEq, Eq)]
pub enum Mark {
    /// A connection waits to be accepted.
    Accept,
    /// An open connection is ready.
    Stream {
        /// The connection.
        serial: u64,
        /// There may be something to read.
        readable: bool,
        /// There may be room to write.
        writable: bool,
    },
}

/// A list of marks, as an act keeps it. Contracts see it as a list.
#[derive(Drop)]
pub struct Marks {
    marks: Vec<Mark>,
}

impl Model for Marks {
    ghost use Rattle.std.specs.Prelude.{List};
    ghost use Rattle.hub_acts.specs.declared.marks.Mark.{Mark};

    ghost Value = { List Mark };

    ghost view = { λ m. m.marks.items };
}

impl Marks {
    /// An empty list, which allocates nothing.
    pub fn new(alloc: Global) -> Marks
        ensures { result ≡ [] }
    {
        Marks {
            marks: Vec::new(alloc),
        }
    }

    /// A list of these marks.
    pub fn from_slice(alloc: Global, marks: &[Mark]) -> Result<Marks, OutOfMemory>
        ensures { IfOk result (λ m. m ≡ marks.now) }
    {
        Ok(Marks {
            marks: Vec::from_slice(alloc, marks)?,
        })
    }

    /// The marks, first to last.
    pub fn as_slice(&self) -> &[Mark]
        ensures { result.now ≡ self.now }
    {
        self.marks.as_slice()
    }
}

/// At most `MOST_MARKS` marks, stored in place. Contracts see it as a list. No method allocates.
#[derive(Drop)]
pub struct ReadyList {
    marks: [Mark; MOST_MARKS],
    len: usize,
}

impl Model for ReadyList {
    ghost use Rattle.std.specs.Prelude.{List, ◌≤◌, take};
    ghost use Rattle.hub_acts.specs.declared.marks.Mark.{Mark};
    ghost use Rattle.hub_acts.specs.declared.marks.TheConstants.{MOST_MARKS};

    ghost Value = { List Mark };

    ghost view = { λ r. take r.len r.marks };

    ghost invariant = { λ r. r.len ≤ MOST_MARKS };
}

impl ReadyList {
    /// An empty list.
    pub fn new() -> ReadyList
        ensures { result ≡ [] }
    {
        ReadyList {
            marks: [Mark::Accept; MOST_MARKS],
            len: 0,
        }
    }

    /// Removes all marks.
    pub fn clear(&mut self)
        ensures { self.new ≡ [] }
    {
        self.len = 0;
    }

    /// The marks, first to last.
    pub fn as_slice(&self) -> &[Mark]
        ensures value { result.now ≡ self.now }
        ensures bound { length self.now ≤ MOST_MARKS }
    {
        &self.marks[..self.len]
    }

    /// Appends a mark.
    pub fn push(&mut self, mark: Mark)
        requires { length self.old < MOST_MARKS }
        ensures { self.new ≡ self.old ++ mark ∷ [] }
    {
        self.marks[self.len] = mark;
        self.len += 1;
    }
}
