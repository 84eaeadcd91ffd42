//! A list of numbers of four bytes.

ghost use Rattle.std.specs.Prelude.{◌≡◌, ◌++◌, ◌∷◌, [], List, ℕ, OnOk, OnErr};

use crate::out_of_memory::OutOfMemory;
use std::alloc::Global;
use std::marker::Model;

/// A list of numbers of four bytes that grows. Contracts see it as a list.
#[derive(Debug, Drop)]
pub struct Words32 {
    words: Vec<u32>,
}

impl Model for Words32 {
    ghost Value = { List ℕ };

    ghost view = { λ w. w.words.items };
}

impl Words32 {
    /// An empty list, which allocates nothing yet. Later calls allocate from `alloc`.
    pub fn new(alloc: Global) -> Words32
        ensures { result ≡ [] }
    {
        Words32 {
            words: Vec::new(alloc),
        }
    }

    /// Appends one number. On `OutOfMemory` the list is unchanged.
    pub fn push(&mut self, word: u32) -> Result<(), OutOfMemory>
        ensures ok { OnOk result (self.new ≡ self.old ++ word ∷ []) }
        ensures err { OnErr result (self.new ≡ self.old) }
    {
        self.words.push(word)?;
        Ok(())
    }

    /// Appends numbers. On `OutOfMemory` the list is unchanged.
    pub fn extend(&mut self, words: &[u32]) -> Result<(), OutOfMemory>
        ensures ok { OnOk result (self.new ≡ self.old ++ words.now) }
        ensures err { OnErr result (self.new ≡ self.old) }
    {
        self.words.extend_from_slice(words)?;
        Ok(())
    }

    /// The numbers, first to last.
    pub fn as_slice(&self) -> &[u32]
        ensures { result.now ≡ self.now }
    {
        self.words.as_slice()
    }
}
