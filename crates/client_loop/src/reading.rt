//! Reading from the link.

ghost use Rattle.std.specs.Prelude.{◌≡◌, ◌≤◌, ◌<◌, ◌^◌, length};
ghost use Rattle.attentive_links.specs.Judging.{most_moved};
ghost use Rattle.attentive_links.specs.Places.{at_reads, at_writes};
ghost use Rattle.client_loop.specs.Attendants.{MayGet};
ghost use Rattle.attentive_links.specs.InPart.{HeardSome};
ghost use Rattle.client_core.specs.Clients.{got};
ghost use Rattle.client_loop.specs.Stages.{Course, Stage, Tells, read_once};
ghost use Rattle.client_loop.specs.Ends.{AfterStep};

use crate::attendant::Attendant;
use crate::waiting::look;
use crate::watch::Watch;
use client_core::{ClientEnd, LostCause};
use hub_acts::{Link, ReadAnswer};

/// Tells the client a piece that was read.
fn hear<C: Attendant>(core: &mut C, watch: &mut Watch, piece: &[u8]) -> Result<(), ClientEnd>
    requires { MayGet C.stands core.old piece.now }
    ensures { Tells C.stands result core.old core.new watch.old watch.new (got piece.now)
        (λ c d. HeardSome c piece.now d) }
{
    let before = core.queued().len();
    match core.bytes(piece) {
        Ok(()) => look(core, watch, before),
        Err(_) => Err(ClientEnd::OutOfMemory),
    }
}

/// Reads once, if the link is undrained for reading.
pub(crate) fn read_from<C: Attendant, L: Link>(
    core: &mut C,
    link: &mut L,
    watch: &mut Watch,
    buffer: &mut [u8],
) -> Result<(), ClientEnd>
    requires room { length buffer.old ≡ most_moved }
    requires there { (r : Course L) × (r.reads < 2 ^ 32)
        × Stage C.stands L.state L.leads r core.old link.old watch.old at_reads }
    ensures { (r : Course L) → r.waits ≤ r.turns
        → Stage C.stands L.state L.leads r core.old link.old watch.old at_reads
        → AfterStep C.stands L.state L.leads (read_once r) result core.new link.new watch.new
        at_writes }
{
    if !watch.reads {
        return Ok(());
    }
    match link.read(buffer) {
        ReadAnswer::Got(count) => hear(core, watch, &buffer[..count]),
        ReadAnswer::End => Err(ClientEnd::Lost(LostCause::Ended)),
        ReadAnswer::NotNow => {
            watch.reads = false;
            Ok(())
        }
        ReadAnswer::Failed => Err(ClientEnd::Lost(LostCause::Failed)),
        ReadAnswer::OutOfMemory => Err(ClientEnd::OutOfMemory),
    }
}
