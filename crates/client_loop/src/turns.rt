//! The turns of the loop.

ghost use Rattle.std.specs.Prelude.{◌≡◌, ◌≤◌, ◌<◌, ◌^◌, [], length, OnOk};
ghost use Rattle.share_base.specs.Writing.{SinkState};
ghost use Rattle.attentive_links.specs.Judging.{most_moved};
ghost use Rattle.attentive_links.specs.Places.{Waits};
ghost use Rattle.client_loop.specs.Stages.{Course, Stage};
ghost use Rattle.client_loop.specs.Turns.{LinesOn, Logged, AfterTurn, Ended, turned, turned_once};

use crate::attendant::Attendant;
use crate::reading::read_from;
use crate::waiting::{ask_moment, wait_once};
use crate::watch::Watch;
use crate::writing::write_to;
use client_core::ClientEnd;
use hub_acts::Link;
use share_base::{Sink, write_all};

/// Writes the lines that were printed, and clears them. `WriteFault` if the sink failed.
pub(crate) fn write_lines<C: Attendant, K: Sink>(core: &mut C, out: &mut K) -> Result<(), ClientEnd>
    ensures empty { OnOk result (C.printed core.new ≡ []) }
    ensures lines { LinesOn C.stands result core.old core.new (K.state out.old) (K.state out.new) }
{
    if !write_all(out, core.lines()) {
        return Err(ClientEnd::WriteFault);
    }
    core.clear_lines();
    Ok(())
}

/// Makes one turn. Only a read makes the client print, so its lines are written after that.
fn turn<C: Attendant, L: Link, K: Sink>(
    core: &mut C,
    link: &mut L,
    out: &mut K,
    watch: &mut Watch,
    buffer: &mut [u8],
) -> Result<(), ClientEnd>
    requires room { length buffer.old ≡ most_moved }
    requires there { (r : Course L) × (r.waits < r.turns) × (r.reads < 2 ^ 32)
        × Stage C.stands L.state L.leads r core.old link.old watch.old (λ fs c. Waits) }
    ensures { (r : Course L) (old : SinkState) → r.waits < r.turns
        → Logged C.stands L.state L.leads r core.old link.old watch.old old (K.state out.old)
        → AfterTurn C.stands L.state L.leads (turned_once r) result core.new link.new watch.new
        old (K.state out.new) }
{
    wait_once(core, link, watch)?;
    ask_moment(core, link, watch)?;
    read_from(core, link, watch, buffer)?;
    write_lines(core, out)?;
    write_to(core, link, watch)
}

/// Makes so many turns, or fewer if they end before.
pub(crate) fn take_turns<C: Attendant, L: Link, K: Sink>(
    core: &mut C,
    link: &mut L,
    out: &mut K,
    watch: &mut Watch,
    buffer: &mut [u8],
    turns: u64,
) -> ClientEnd
    requires few { turns < 2 ^ 32 }
    requires room { length buffer.old ≡ most_moved }
    requires there { (r : Course L) × (old : SinkState) × (r.turns ≡ turns)
        × Logged C.stands L.state L.leads (turned 0 r) core.old link.old watch.old
        old (K.state out.old) }
    ensures { (r : Course L) (old : SinkState) → r.turns ≡ turns
        → Logged C.stands L.state L.leads (turned 0 r) core.old link.old watch.old
        old (K.state out.old)
        → Ended C.stands L.state L.leads r result core.new link.new old (K.state out.new) }
{
    for _turn in 0..turns {
        match turn(core, link, out, watch, buffer) {
            Ok(()) => {}
            Err(end) => return end,
        }
    }
    ClientEnd::TurnsSpent
}
