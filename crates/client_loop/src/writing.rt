//! Writing to the link.

ghost use Rattle.std.specs.Prelude.{◌≡◌, ◌≤◌, length};
ghost use Rattle.attentive_links.specs.Places.{Waits, at_writes};
ghost use Rattle.client_loop.specs.Stages.{Course, Stage};
ghost use Rattle.client_loop.specs.Ends.{AfterStep};

use crate::attendant::Attendant;
use crate::watch::Watch;
use client_core::{ClientEnd, LostCause};
use hub_acts::{Link, WriteAnswer};

/// How many bytes one read or write moves at most.
pub(crate) const MOST_MOVED: usize = 65_536;

/// Writes once, if the link is undrained for writing and bytes are queued.
pub(crate) fn write_to<C: Attendant, L: Link>(
    core: &mut C,
    link: &mut L,
    watch: &mut Watch,
) -> Result<(), ClientEnd>
    requires there { (r : Course L)
        × Stage C.stands L.state L.leads r core.old link.old watch.old at_writes }
    ensures { (r : Course L) → r.waits ≤ r.turns
        → Stage C.stands L.state L.leads r core.old link.old watch.old at_writes
        → AfterStep C.stands L.state L.leads r result core.new link.new watch.new
        (λ fs c. Waits) }
{
    if !watch.writes {
        return Ok(());
    }
    let queued = core.queued();
    if queued.is_empty() {
        return Ok(());
    }
    let piece = &queued[..queued.len().min(MOST_MOVED)];
    match link.write(piece) {
        WriteAnswer::Took(count) => {
            core.taken(count);
            Ok(())
        }
        WriteAnswer::NotNow => {
            watch.writes = false;
            Ok(())
        }
        WriteAnswer::Failed => Err(ClientEnd::Lost(LostCause::Failed)),
        WriteAnswer::OutOfMemory => Err(ClientEnd::OutOfMemory),
    }
}
