//! A run of the loop.

ghost use Rattle.std.specs.Prelude.{◌≡◌, ◌<◌, ◌^◌, [], ℕ};
ghost use Rattle.share_base.specs.Writing.{SinkState};
ghost use Rattle.client_core.specs.Clients.{Client};
ghost use Rattle.client_loop.specs.Stages.{Course};
ghost use Rattle.client_loop.specs.Turns.{Ended};
ghost use Rattle.client_loop.specs.Attending.{IsNewClient, Attends, first_course};

use crate::attendant::Attendant;
use crate::leaving::leave;
use crate::turns::take_turns;
use crate::watch::Watch;
use crate::writing::MOST_MOVED;
use client_core::ClientEnd;
use hub_acts::Link;
use share_base::Sink;
use std::alloc::Global;

/// Makes the turns of a run. `OutOfMemory` comes also where there is no memory for the buffer that
/// is read into.
fn run_turns<C: Attendant, L: Link, K: Sink>(
    alloc: Global,
    core: &mut C,
    link: &mut L,
    out: &mut K,
    turns: u64,
) -> ClientEnd
    requires few { turns < 2 ^ 32 }
    requires starts { (first : Client) × IsNewClient first × C.stands core.old [] first }
    ensures { (first : Client) → IsNewClient first → C.stands core.old [] first
        → Ended C.stands L.state L.leads (first_course first link.old turns) result core.new
        link.new (K.state out.old) (K.state out.new) }
{
    let Ok(mut buffer) = vec![in alloc; 0u8; MOST_MOVED] else {
        return ClientEnd::OutOfMemory;
    };
    let mut watch = Watch::new();
    take_turns(core, link, out, &mut watch, &mut buffer, turns)
}

/// Runs a client over a link, and writes its lines to `out`: at most that many turns, fewer than
/// 2^32, and then the end.
///
/// A turn waits, tells the moment, reads once if there may be more, and writes once if more may be
/// taken; no step is made once the client has an end. The run ends as the client does, as
/// `LinkFault` if a wait fails, and as `TurnsSpent` after the last turn. At each end all that is
/// down goes up, in the last lines, and the link is closed. It ends as `WriteFault` where the
/// output fails, and nothing more is written then; and as `OutOfMemory` where memory runs out. Then
/// the client may have taken what it was last told in part: the lines are those of what it took.
pub fn attend<C: Attendant, L: Link, K: Sink>(
    alloc: Global,
    core: &mut C,
    link: &mut L,
    out: &mut K,
    turns: u64,
) -> ClientEnd
    requires few { turns < 2 ^ 32 }
    requires starts { (first : Client) × IsNewClient first × C.stands core.old [] first }
    ensures { (first : Client) → IsNewClient first → C.stands core.old [] first
        → Attends L.state L.leads first turns result link.old link.new
        (K.state out.old) (K.state out.new) }
{
    let end = run_turns(alloc, core, link, out, turns);
    leave(core, link, out, end)
}
