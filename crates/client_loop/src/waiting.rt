//! The wait of a turn, and its moment.

ghost use Rattle.std.specs.Prelude.{◌≡◌, ◌≤◌, ◌<◌, length};
ghost use Rattle.attentive_links.specs.Flags as flags;
ghost use Rattle.attentive_links.specs.Judging as judging;
ghost use Rattle.attentive_links.specs.Judging.{longest_wait};
ghost use Rattle.attentive_links.specs.Places.{Waits, Asks, at_reads};
ghost use Rattle.attentive_links.specs.InPart.{RanSome};
ghost use Rattle.client_core.specs.Happenings.{passes};
ghost use Rattle.client_loop.specs.Stages.{Course, Stage, Answers, Looks, Tells, waited_once};
ghost use Rattle.client_loop.specs.Ends.{AfterStep};

use crate::attendant::Attendant;
use crate::watch::Watch;
use client_core::{ClientEnd, LostCause};
use hub_acts::{Link, LinkWaited};

/// How long a wait takes at most, in milliseconds.
pub(crate) const LONGEST_WAIT: u64 = 1_000;

/// Whether something is undrained.
fn is_busy<C: Attendant>(core: &C, watch: &Watch) -> bool
    ensures { Answers C.stands core.now watch.now result flags.is_busy }
{
    if watch.reads {
        return true;
    }
    if !watch.writes {
        return false;
    }
    !core.queued().is_empty()
}

/// How long the next wait is, in milliseconds: not at all if something is undrained or due.
fn timeout<C: Attendant>(core: &C, watch: &Watch) -> u32
    ensures soon { result ≤ longest_wait }
    ensures value { Answers C.stands core.now watch.now result judging.timeout }
{
    if is_busy(core, watch) {
        return 0;
    }
    core.due().saturating_sub(core.at()).min(LONGEST_WAIT) as u32
}

/// Waits until the stream is ready, and heeds for what. The end comes where the wait answered that
/// its trace is over, or failed.
pub(crate) fn wait_once<C: Attendant, L: Link>(
    core: &C,
    link: &mut L,
    watch: &mut Watch,
) -> Result<(), ClientEnd>
    ensures { (r : Course L) → r.waits < r.turns
        → Stage C.stands L.state L.leads r core.now link.old watch.old (λ fs c. Waits)
        → AfterStep C.stands L.state L.leads (waited_once r) result core.now link.new watch.new
        (λ fs c. Asks) }
{
    match link.wait(timeout(core, watch)) {
        LinkWaited::Ready { readable, writable } => {
            watch.heed(readable, writable);
            Ok(())
        }
        LinkWaited::Over => Err(ClientEnd::Lost(LostCause::Ended)),
        LinkWaited::Failed => Err(ClientEnd::LinkFault),
        LinkWaited::OutOfMemory => Err(ClientEnd::OutOfMemory),
    }
}

/// Looks at a client after a happening, before which so many bytes were queued: its end, if it has
/// one, and whether more are queued.
pub(crate) fn look<C: Attendant>(
    core: &C,
    watch: &mut Watch,
    before: usize,
) -> Result<(), ClientEnd>
    ensures { Looks C.stands core.now watch.old watch.new before result }
{
    let longer = core.queued().len() > before;
    watch.heed(false, longer);
    match core.done() {
        Some(end) => Err(end),
        None => Ok(()),
    }
}

/// Tells the client the moment.
fn tell_moment<C: Attendant>(core: &mut C, watch: &mut Watch, moment: u64) -> Result<(), ClientEnd>
    ensures { Tells C.stands result core.old core.new watch.old watch.new (passes moment)
        (λ c d. RanSome c moment d) }
{
    let before = core.queued().len();
    match core.moment(moment) {
        Ok(()) => look(core, watch, before),
        Err(_) => Err(ClientEnd::OutOfMemory),
    }
}

/// Asks for the moment, and tells it.
pub(crate) fn ask_moment<C: Attendant, L: Link>(
    core: &mut C,
    link: &mut L,
    watch: &mut Watch,
) -> Result<(), ClientEnd>
    ensures { (r : Course L) → r.waits ≤ r.turns
        → Stage C.stands L.state L.leads r core.old link.old watch.old (λ fs c. Asks)
        → AfterStep C.stands L.state L.leads r result core.new link.new watch.new at_reads }
{
    match link.now() {
        Ok(moment) => tell_moment(core, watch, moment),
        Err(_) => Err(ClientEnd::OutOfMemory),
    }
}
