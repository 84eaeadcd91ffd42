//! A run of the loop.

ghost use Rattle.std.specs.Prelude.{◌≡◌, ℕ, [], false};
ghost use Rattle.share_base.specs.Writing.{SinkState};
ghost use Rattle.reached_states.specs.OpenSerials.{Rise};
ghost use Rattle.engine_loop.specs.Watches.{serials_in};
ghost use Rattle.engine_loop.specs.Stages.{Course, GoesWell};
ghost use Rattle.engine_loop.specs.Ends.{AfterTurns, is_failure};
ghost use Rattle.reached_states.specs.Reaching.{Origin, start_of};
ghost use Rattle.engine_loop.specs.Serving.{IsNewHub, Serves};

use crate::leaving::leave_each;
use crate::serve_end::ServeEnd;
use crate::turns::{take_turns, write_log};
use crate::watch::Watch;
use crate::writing::MOST_MOVED;
use hub_acts::{Hub, ReadyList};
use server_engine::Engine;
use share_base::Sink;
use std::alloc::Global;

/// Closes all connections that are open, and writes the rest of the log: the run ends so, or as
/// `WriteFault` or `OutOfMemory` where that came on the way.
fn depart<E: Engine, H: Hub, K: Sink>(
    core: &mut E,
    hub: &mut H,
    out: &mut K,
    watch: &Watch,
    end: ServeEnd,
) -> ServeEnd
    requires goes { is_failure end ≡ false }
    requires same { serials_in watch.now ≡ (H.state hub.old).open_now }
    requires rise { Rise 0 (serials_in watch.now) }
    ensures { (r : Course H) (turns : ℕ) (old : SinkState) → GoesWell r
        → AfterTurns E.serves H.state H.leads r turns end core.old hub.old watch.now
        old (K.state out.old)
        → Serves E.departs H.state H.leads r.origin turns result core.new r.hub hub.new
        old (K.state out.new) }
{
    match leave_each(core, hub, watch) {
        Ok(()) => match write_log(core, out) {
            Ok(()) => end,
            Err(fault) => fault,
        },
        Err(_) => ServeEnd::OutOfMemory,
    }
}

/// Runs an engine over a hub, and writes its log to `out`: at most that many turns, and then the
/// closing of all connections that are open.
///
/// A turn waits, tells the moment, accepts at most 64 connections, reads once from each connection
/// that may have more, writes once to each that may take more, and closes those that are to be
/// closed. The log is written after each of these. It ends as `Quit` after a turn that leaves the
/// script quit and no connection open; as `Over` or `HubFault` where a wait answers that its trace
/// is over, or fails; as `TurnsSpent` after the last turn. At these four ends all connections are
/// closed, and the whole log is written. It ends at once as `WriteFault` where the output fails,
/// and as `OutOfMemory` where memory runs out, be it for the buffer that is read into: a front of
/// the log is written then, and connections may still be open.
pub fn serve<E: Engine, H: Hub, K: Sink>(
    alloc: Global,
    core: &mut E,
    hub: &mut H,
    out: &mut K,
    turns: u64,
) -> ServeEnd
    requires new_hub { IsNewHub (H.state hub.old) }
    requires starts { (o : Origin) × E.serves core.old [] (start_of o) }
    ensures { (o : Origin) → E.serves core.old [] (start_of o)
        → Serves E.departs H.state H.leads o turns result core.new hub.old hub.new
        (K.state out.old) (K.state out.new) }
{
    let Ok(mut buffer) = vec![in alloc; 0u8; MOST_MOVED] else {
        return ServeEnd::OutOfMemory;
    };
    let mut watch = Watch::new(alloc);
    let mut ready = ReadyList::new();
    let end = take_turns(core, hub, out, &mut watch, &mut ready, &mut buffer, turns);
    if end.is_failure() {
        return end;
    }
    depart(core, hub, out, &watch, end)
}
