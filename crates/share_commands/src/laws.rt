//! Laws on which the statement of the commands rests. The calls do nothing: their contracts are the
//! laws.

ghost use Rattle.std.specs.Prelude.{◌<◌, List, ℕ};
ghost use Rattle.config_text.specs.declared.faults.ConfigRefusal.{ConfigRefusal};
ghost use Rattle.config_text.specs.Accepting.{Refuses};
ghost use Rattle.share_commands.specs.Laws.{HaveOneEnd, AcceptedIsPrinted, RefusedIsSaid};
ghost use Rattle.share_commands.specs.Laws.{TooBigIsSaid};

pub use both_ends::both_ends;

/// The same bytes have one end, unless it is a fault or out of memory. So where none of these
/// comes, a command answers the one status that the bytes read decide, and prints the one list of
/// messages.
pub fn one_end()
    ensures { HaveOneEnd }
{}

/// A file that is told decides how `check` ends and what it writes, unless the end is a fault or
/// out of memory: an accepted one is printed, a refused one is refused so, and one that is too big
/// is said to be. So where none of these comes, `check` of an accepted file is `Ok`.
pub fn file_decides()
    ensures accepted { AcceptedIsPrinted }
    ensures refused { RefusedIsSaid }
    ensures over { TooBigIsSaid }
{}

/// The refusal of a text names a line, from 1 on. So one that names line 0 is that of a file that
/// is too big.
pub fn refusals_name_lines()
    ensures { (text : List ℕ) (refusal : ConfigRefusal) → Refuses text refusal → 0 < refusal.line }
{}
