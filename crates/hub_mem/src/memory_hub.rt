//! A hub in memory.

ghost use Rattle.std.specs.Prelude.{◌≡◌, ◌++◌, ◌∷◌, [], IfOk, OnOk, OnErr};
ghost use Rattle.hub_mem.specs.Stories.{joined_in};
ghost use Rattle.hub_mem.specs.Answers.{is_to_fail, story, tally};
ghost use Rattle.hub_mem.specs.Standing.{IsQuiet};

use crate::ledger::Ledger;
use crate::playback::Playback;
use hub_acts::Act;
use script_screen::Trace;
use share_base::OutOfMemory;
use std::alloc::Global;
use std::marker::Model;

/// A hub that a trace drives, with a list of the calls that fail. Its calls of `listen`, `wait`,
/// `accept`, `read` and `write` are numbered from 1 in the order in which they are made.
///
/// Each wait that does not fail brings the next turn of the trace, whatever its timeout, and after
/// the last turn it answers `Over`. `now` answers the moment of the latest turn, 0 before the
/// first. Contracts see the trace, the list and the acts so far, which determine every answer.
#[derive(Drop)]
pub struct MemoryHub {
    pub(crate) alloc: Global,
    pub(crate) playback: Playback,
    pub(crate) ledger: Ledger,
}

impl Model for MemoryHub {
    ghost use Rattle.hub_mem.specs.Answers.{Played};
    ghost use Rattle.hub_mem.specs.Standing.{IsSound};

    ghost Value = { Played };

    ghost view = { λ h. record {
      lines = h.playback.lines;
      failing = h.ledger.failing;
      acts = h.ledger.acts;
    } };

    ghost invariant = { λ h. IsSound h.playback h.ledger.acts };
}

impl MemoryHub {
    /// A hub that this trace drives, whose calls of the listed numbers fail.
    pub fn of_trace(alloc: Global, trace: Trace, failing: &[u64]) -> Result<MemoryHub, OutOfMemory>
        ensures { IfOk result
            (λ h. h ≡ record { lines = trace; failing = failing.now; acts = [] }) }
    {
        let playback = Playback::of_trace(alloc, trace)?;
        let ledger = Ledger::new(alloc, failing)?;
        Ok(MemoryHub {
            alloc,
            playback,
            ledger,
        })
    }

    /// The acts so far, first to last.
    pub fn acts(&self) -> &[Act]
        ensures { result.now ≡ self.now.acts }
    {
        self.ledger.acts()
    }

    /// The open serials, in the order of their acceptance.
    pub fn open_serials(&self) -> &[u64]
        ensures { result.now ≡ (tally self.now).serials }
    {
        self.ledger.serials()
    }

    /// Whether the next numbered call is to fail.
    pub(crate) fn is_to_fail(&self) -> bool
        ensures { result ≡ is_to_fail self.now }
    {
        self.ledger.is_to_fail()
    }

    /// Adds an act that brings no turn and moves no stream. On `OutOfMemory` nothing changed.
    pub(crate) fn add_quiet(&mut self, act: Act) -> Result<(), OutOfMemory>
        requires { IsQuiet act (joined_in (story self.old).scenes) (tally self.old).latest }
        ensures ok { OnOk result (self.new ≡ record self.old { acts = self.old.acts ++ act ∷ [] }) }
        ensures err { OnErr result (self.new ≡ self.old) }
    {
        self.ledger.add(act)?;
        Ok(())
    }
}
