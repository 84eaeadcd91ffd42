//! What acts come to.

ghost use Rattle.std.specs.Prelude.{◌≡◌, ◌==◌, OnOk, OnErr};
ghost use Rattle.hub_acts.specs.Counting.{is_fault, is_break};
ghost use Rattle.hub_mem.specs.Tallies.{no_calls, one_more_if, tally_after, is_numbered, with_serials};

use hub_acts::{AcceptAnswer, Act, LinkWaited, ReadAnswer, Waited, WriteAnswer};
use share_base::OutOfMemory;
use std::alloc::Global;
use std::marker::Model;

/// The counts and the serials that a list of acts comes to. Contracts see a `Tally`.
#[derive(Drop)]
pub(crate) struct Counters {
    calls: u64,
    latest: u64,
    serials: Vec<u64>,
    faults: u64,
    breaks: u64,
}

impl Model for Counters {
    ghost use Rattle.hub_mem.specs.Tallies.{Tally};

    ghost Value = { Tally };

    ghost view = { λ c. record {
      calls = c.calls;
      latest = c.latest;
      serials = c.serials.items;
      faults = c.faults;
      breaks = c.breaks;
    } };
}

/// Whether the call is one of those that are numbered.
fn counts_as_call(act: &Act) -> bool
    ensures { result ≡ is_numbered act.now }
{
    !matches!(
        act,
        Act::Now { .. } | Act::Close { .. } | Act::LinkNow { .. } | Act::LinkClose
    )
}

/// Whether the act is a failure of the hub or the link.
fn counts_as_fault(act: &Act) -> bool
    ensures { result ≡ is_fault act.now }
{
    match act {
        Act::Listen { answer, .. } => answer.is_err(),
        Act::Wait { answer, .. } => matches!(answer, Waited::Failed),
        Act::LinkConnect { answer, .. } => answer.is_err(),
        Act::LinkWait { answer, .. } => matches!(answer, LinkWaited::Failed),
        _ => false,
    }
}

/// Whether the act is a failure of one connection.
fn counts_as_break(act: &Act) -> bool
    ensures { result ≡ is_break act.now }
{
    match act {
        Act::Accept { answer } => matches!(answer, AcceptAnswer::Failed),
        Act::Read { answer, .. } => matches!(answer, ReadAnswer::Failed),
        Act::Write { answer, .. } => matches!(answer, WriteAnswer::Failed),
        Act::LinkRead { answer, .. } => matches!(answer, ReadAnswer::Failed),
        Act::LinkWrite { answer, .. } => matches!(answer, WriteAnswer::Failed),
        _ => false,
    }
}

fn one_more_if(counts: bool, count: u64) -> u64
    ensures { result ≡ one_more_if counts count }
{
    if counts {
        count.saturating_add(1)
    } else {
        count
    }
}

impl Counters {
    /// Nothing was called yet.
    pub(crate) fn new(alloc: Global) -> Counters
        ensures { result ≡ no_calls }
    {
        Counters {
            calls: 0,
            latest: 0,
            serials: Vec::new(alloc),
            faults: 0,
            breaks: 0,
        }
    }

    /// Counts an act. On `OutOfMemory` nothing changed.
    pub(crate) fn count(&mut self, act: &Act) -> Result<(), OutOfMemory>
        ensures ok { OnOk result (self.new ≡ tally_after self.old act.now) }
        ensures err { OnErr result (self.new ≡ self.old) }
    {
        self.keep_serials(act)?;
        self.calls = one_more_if(counts_as_call(act), self.calls);
        self.faults = one_more_if(counts_as_fault(act), self.faults);
        self.breaks = one_more_if(counts_as_break(act), self.breaks);
        Ok(())
    }

    /// Keeps a serial that an accept gave, and lets one go that was closed. On `OutOfMemory`
    /// nothing changed.
    fn keep_serials(&mut self, act: &Act) -> Result<(), OutOfMemory>
        ensures ok { OnOk result (self.new ≡ with_serials act.now self.old) }
        ensures err { OnErr result (self.new ≡ self.old) }
    {
        match act {
            Act::Accept {
                answer: AcceptAnswer::New(serial),
            } => {
                self.serials.push(*serial)?;
                self.latest = *serial;
            }
            Act::Close { serial } => {
                self.serials.retain(|kept| kept != serial);
            }
            _ => {}
        }
        Ok(())
    }

    /// The number of numbered calls.
    pub(crate) fn calls(&self) -> u64
        ensures { result ≡ self.now.calls }
    {
        self.calls
    }

    /// The latest serial, 0 before the first.
    pub(crate) fn latest(&self) -> u64
        ensures { result ≡ self.now.latest }
    {
        self.latest
    }

    /// The open serials, in the order of their acceptance.
    pub(crate) fn serials(&self) -> &[u64]
        ensures { result.now ≡ self.now.serials }
    {
        self.serials.as_slice()
    }
}
