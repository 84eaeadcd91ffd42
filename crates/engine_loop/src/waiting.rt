//! The wait of a turn, and its moment.

ghost use Rattle.std.specs.Prelude.{◌≡◌, ◌≤◌, ◌<◌, Contains, length};
ghost use Rattle.attentive_acts.specs.Flags as flags;
ghost use Rattle.attentive_acts.specs.Judging as judging;
ghost use Rattle.attentive_acts.specs.Judging.{longest_wait};
ghost use Rattle.attentive_acts.specs.Places.{Asks, at_accepts, most_accepts};
ghost use Rattle.engine_loop.specs.Watches.{serials_in};
ghost use Rattle.engine_loop.specs.Stages.{Course, GoesWell, Stage, Is, IsWaiting, Passes, Answers, HasMore};
ghost use Rattle.engine_loop.specs.Turns.{AfterWait};

use crate::serve_end::ServeEnd;
use crate::watch::Watch;
use hub_acts::{Hub, ReadyList, Waited};
use server_engine::{Engine, Happening};
use share_base::OutOfMemory;

/// How long a wait takes at most, in milliseconds.
pub(crate) const LONGEST_WAIT: u64 = 1_000;

/// Whether bytes are queued for an open connection that it may still take.
fn has_more<E: Engine>(core: &E, serial: u64) -> bool
    ensures { HasMore E.serves core.now serial result }
{
    !core.queued(serial).is_empty()
}

/// Whether the listener is undrained, and the script hasn't quit.
fn is_listening<E: Engine>(core: &E, watch: &Watch) -> bool
    ensures { Answers E.serves core.now watch.now result flags.is_listening }
{
    if !watch.listens {
        return false;
    }
    core.accepts()
}

/// Whether the connection with that serial is undrained for reading, and isn't parting.
fn is_readable<E: Engine>(core: &E, watch: &Watch, serial: u64) -> bool
    ensures { Answers E.serves core.now watch.now result (λ fs s. flags.is_readable fs s serial) }
{
    if !watch.may_read(serial) {
        return false;
    }
    core.reads(serial)
}

/// Whether the open connection with that serial is undrained for writing, and has bytes to take.
fn is_writable<E: Engine>(core: &E, watch: &Watch, serial: u64) -> bool
    ensures { Contains (serials_in watch.now) serial
        → Answers E.serves core.now watch.now result (λ fs s. flags.is_writable fs s serial) }
{
    if !watch.may_write(serial, core.total(serial)) {
        return false;
    }
    has_more(core, serial)
}

/// Whether something is undrained.
fn is_busy<E: Engine>(core: &E, watch: &Watch) -> bool
    ensures { Answers E.serves core.now watch.now result flags.is_busy }
{
    if is_listening(core, watch) {
        return true;
    }
    for stream in &watch.streams {
        if is_readable(core, watch, stream.serial) {
            return true;
        }
        if is_writable(core, watch, stream.serial) {
            return true;
        }
    }
    false
}

/// How long the next wait is, in milliseconds: not at all if something is undrained or due.
fn timeout<E: Engine>(core: &E, watch: &Watch) -> u32
    ensures soon { result ≤ longest_wait }
    ensures value { Answers E.serves core.now watch.now result judging.timeout }
{
    if is_busy(core, watch) {
        return 0;
    }
    core.due().saturating_sub(core.at()).min(LONGEST_WAIT) as u32
}

/// Waits until something is ready, and heeds what is. `Over` and `HubFault` come where the wait
/// answered so.
pub(crate) fn wait_once<E: Engine, H: Hub>(
    core: &E,
    hub: &mut H,
    watch: &mut Watch,
    ready: &mut ReadyList,
) -> Result<(), ServeEnd>
    requires few { length (H.state hub.old).open_now < 128 }
    requires same { serials_in watch.old ≡ (H.state hub.old).open_now }
    ensures same { serials_in watch.new ≡ (H.state hub.new).open_now }
    ensures waits { (r : Course H) → GoesWell r
        → Stage E.serves H.state H.leads r core.now hub.old watch.old IsWaiting
        → AfterWait E.serves H.state H.leads r result core.now hub.new watch.new }
{
    match hub.wait(timeout(core, watch), ready) {
        Waited::Ready => {
            watch.heed_all(ready.as_slice());
            Ok(())
        }
        Waited::Over => Err(ServeEnd::Over),
        Waited::Failed => Err(ServeEnd::HubFault),
        Waited::OutOfMemory => Err(ServeEnd::OutOfMemory),
    }
}

/// Asks for the moment, and tells it.
pub(crate) fn ask_moment<E: Engine, H: Hub>(
    core: &mut E,
    hub: &mut H,
    watch: &mut Watch,
) -> Result<(), OutOfMemory>
    ensures stay { (H.state hub.new).open_now ≡ (H.state hub.old).open_now }
    ensures watched { serials_in watch.new ≡ serials_in watch.old }
    ensures passes { Passes E.serves H.state H.leads result core.old core.new
        hub.old hub.new watch.old watch.new
        (Is (λ fs s. Asks)) (Is (λ fs s. at_accepts fs s most_accepts)) }
{
    match hub.now() {
        Ok(moment) => {
            core.step(Happening::Moment(moment))?;
            Ok(())
        }
        Err(_) => Err(OutOfMemory),
    }
}
