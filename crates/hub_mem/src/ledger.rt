//! The acts that were made, and the calls that are to fail.

ghost use Rattle.std.specs.Prelude.{◌≡◌, ◌++◌, ◌∷◌, [], IfOk, OnOk, OnErr};
ghost use Rattle.hub_mem.specs.Tallies.{is_failing, tally_of};

use crate::counters::Counters;
use hub_acts::Act;
use share_base::OutOfMemory;
use std::alloc::Global;
use std::marker::Model;

/// The acts that were made, with what they come to, and the numbers of the calls that are to fail.
/// Contracts see a `Recorded`.
#[derive(Drop)]
pub struct Ledger {
    failing: Vec<u64>,
    acts: Vec<Act>,
    counters: Counters,
}

impl Model for Ledger {
    ghost use Rattle.std.specs.Prelude.{◌≡◌};
    ghost use Rattle.hub_mem.specs.Tallies.{Recorded, tally_of};

    ghost Value = { Recorded };

    ghost view = { λ l. record {
      failing = l.failing.items;
      acts = l.acts.items;
    } };

    ghost invariant = { λ l. l.counters ≡ tally_of l.acts.items };
}

impl Ledger {
    /// No act yet. The calls of the listed numbers are to fail.
    pub fn new(alloc: Global, failing: &[u64]) -> Result<Ledger, OutOfMemory>
        ensures { IfOk result (λ l. l ≡ record { failing = failing.now; acts = [] }) }
    {
        Ok(Ledger {
            failing: Vec::from_slice(alloc, failing)?,
            acts: Vec::new(alloc),
            counters: Counters::new(alloc),
        })
    }

    /// Adds an act. On `OutOfMemory` nothing changed.
    #[tactic(auto, using(crate::proofs::AddedActs::tally_more))]
    pub fn add(&mut self, act: Act) -> Result<(), OutOfMemory>
        ensures ok { OnOk result (self.new ≡ record self.old { acts = self.old.acts ++ act ∷ [] }) }
        ensures err { OnErr result (self.new ≡ self.old) }
    {
        self.acts.reserve(1)?;
        self.counters.count(&act)?;
        self.acts.push_reserved(act);
        Ok(())
    }

    /// The acts, first to last.
    pub fn acts(&self) -> &[Act]
        ensures { result.now ≡ self.now.acts }
    {
        self.acts.as_slice()
    }

    /// Whether the next numbered call is one of those that are to fail.
    pub fn is_to_fail(&self) -> bool
        ensures { result ≡ is_failing self.now }
    {
        self.failing
            .contains(&self.counters.calls().saturating_add(1))
    }

    /// The latest serial, 0 before the first.
    pub(crate) fn latest(&self) -> u64
        ensures { result ≡ (tally_of self.now.acts).latest }
    {
        self.counters.latest()
    }

    /// The open serials, in the order of their acceptance.
    pub(crate) fn serials(&self) -> &[u64]
        ensures { result.now ≡ (tally_of self.now.acts).serials }
    {
        self.counters.serials()
    }
}
