//! Where files come from.

ghost use Rattle.std.specs.Prelude.{◌≡◌, List, ℕ, Option};
ghost use Rattle.share_base.specs.Counts.{one_more};
ghost use Rattle.share_base.specs.Stored.{FileGives, FileFaults, FileOvers};

use crate::octets::Octets;

/// What reading a whole file answers.
#[derive(Debug, Drop)]
pub enum FileAnswer {
    /// All its bytes, which are no more than the limit.
    Bytes(Octets),
    /// It has more bytes than the limit. The count of such answers rose.
    TooBig,
    /// It could not be read. The count of faults rose.
    Failed,
    /// Memory could not be had.
    OutOfMemory,
}

/// Where files come from. Files that are held in memory tell contracts what bytes each name has;
/// those of the real world tell none, and then the clauses on bytes say nothing, while those on the
/// limit and the counts stand.
pub trait Files {
    /// The bytes of each name, where they are told.
    ghost told: { Self → List ℕ → Option (List ℕ) };

    /// How often a file was read. It stands still at its last value.
    ghost calls: { Self → ℕ };

    /// How often a reading failed. It never falls, and stands still at its last value.
    ghost faults: { Self → ℕ };

    /// How often a file was too big. It never falls, and stands still at its last value.
    ghost overs: { Self → ℕ };

    /// Reads the whole file of that name, of at most `limit` bytes. No file changes by it.
    fn read_all(&mut self, name: &str, limit: u64) -> FileAnswer
        ensures gives { FileGives result limit (told self.old name.now) }
        ensures kept { (other : List ℕ) → told self.new other ≡ told self.old other }
        ensures calls { calls self.new ≡ one_more (calls self.old) }
        ensures faults { FileFaults result (faults self.old) (faults self.new) }
        ensures overs { FileOvers result (overs self.old) (overs self.new) };
}
