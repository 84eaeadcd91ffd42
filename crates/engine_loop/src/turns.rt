//! The loop itself.

ghost use Rattle.std.specs.Prelude.{◌≡◌, ◌<◌, false, length};
ghost use Rattle.share_base.specs.Writing.{SinkState};
ghost use Rattle.attentive_acts.specs.Judging.{most_moved};
ghost use Rattle.engine_loop.specs.Watches.{serials_in};
ghost use Rattle.engine_loop.specs.Stages.{Course, GoesWell, IsWaiting};
ghost use Rattle.engine_loop.specs.Turns.{LogsOn, Heeds, EndsAtFailure, AfterTurn};
ghost use Rattle.engine_loop.specs.Turns.{Logged, IsLoggedSomewhere, IsStarted, waited_once};
ghost use Rattle.engine_loop.specs.Ends.{AfterTurns, GoesOn, GoesOnAfter};

use crate::accepting::accept_each;
use crate::closing::close_each;
use crate::reading::read_each;
use crate::serve_end::ServeEnd;
use crate::waiting::{ask_moment, wait_once};
use crate::watch::Watch;
use crate::writing::write_each;
use hub_acts::{Hub, ReadyList};
use server_engine::Engine;
use share_base::{OutOfMemory, Sink, write_all};

/// Writes what the log has, and clears it. `WriteFault` comes where the sink failed.
pub(crate) fn write_log<E: Engine, K: Sink>(core: &mut E, out: &mut K) -> Result<(), ServeEnd>
    ensures fault { EndsAtFailure result }
    ensures serves { LogsOn E.serves result core.old core.new (K.state out.old) (K.state out.new) }
    ensures departs { LogsOn E.departs result core.old core.new (K.state out.old)
        (K.state out.new) }
{
    if !write_all(out, core.log()) {
        return Err(ServeEnd::WriteFault);
    }
    core.clear_log();
    Ok(())
}

/// Writes the log after a step of a turn, unless memory ran out in it.
fn end_step<E: Engine, K: Sink>(
    done: Result<(), OutOfMemory>,
    core: &mut E,
    out: &mut K,
) -> Result<(), ServeEnd>
    ensures fault { EndsAtFailure result }
    ensures heeds { Heeds E.serves done result core.old core.new (K.state out.old)
        (K.state out.new) }
{
    match done {
        Ok(()) => write_log(core, out),
        Err(_) => Err(ServeEnd::OutOfMemory),
    }
}

/// Makes one turn.
fn turn<E: Engine, H: Hub, K: Sink>(
    core: &mut E,
    hub: &mut H,
    out: &mut K,
    watch: &mut Watch,
    ready: &mut ReadyList,
    buffer: &mut [u8],
) -> Result<(), ServeEnd>
    requires same { serials_in watch.old ≡ (H.state hub.old).open_now }
    requires room { length buffer.old ≡ most_moved }
    requires there { IsLoggedSomewhere E.serves H.state H.leads core.old hub.old watch.old
        (K.state out.old) IsWaiting }
    ensures same { GoesOnAfter result (serials_in watch.new ≡ (H.state hub.new).open_now) }
    ensures turns { (old : SinkState) (r : Course H) → GoesWell r
        → Logged E.serves H.state H.leads r core.old hub.old watch.old
        old (K.state out.old) IsWaiting
        → AfterTurn E.serves H.state H.leads (waited_once false r) result
        core.new hub.new watch.new old (K.state out.new) IsWaiting }
{
    wait_once(core, hub, watch, ready)?;
    end_step(ask_moment(core, hub, watch), core, out)?;
    end_step(accept_each(core, hub, watch), core, out)?;
    end_step(read_each(core, hub, watch, buffer), core, out)?;
    end_step(write_each(core, hub, watch), core, out)?;
    end_step(close_each(core, hub, watch), core, out)?;
    if core.over() {
        return Err(ServeEnd::Quit);
    }
    Ok(())
}

/// Makes so many turns, or fewer if they end before.
pub(crate) fn take_turns<E: Engine, H: Hub, K: Sink>(
    core: &mut E,
    hub: &mut H,
    out: &mut K,
    watch: &mut Watch,
    ready: &mut ReadyList,
    buffer: &mut [u8],
    turns: u64,
) -> ServeEnd
    requires same { serials_in watch.old ≡ (H.state hub.old).open_now }
    requires room { length buffer.old ≡ most_moved }
    requires there { IsStarted E.serves H.state H.leads core.old hub.old watch.old
        (K.state out.old) }
    ensures same { GoesOn result (serials_in watch.new ≡ (H.state hub.new).open_now) }
    ensures turns { (old : SinkState) (r : Course H) → GoesWell r → r.waits ≡ 0
        → Logged E.serves H.state H.leads r core.old hub.old watch.old
        old (K.state out.old) IsWaiting
        → AfterTurns E.serves H.state H.leads r turns result core.new hub.new watch.new
        old (K.state out.new) }
{
    for _turn in 0..turns {
        match turn(core, hub, out, watch, ready, buffer) {
            Ok(()) => {}
            Err(end) => return end,
        }
    }
    ServeEnd::TurnsSpent
}
