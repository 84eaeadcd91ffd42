//! Accepting connections.

ghost use Rattle.std.specs.Prelude.{◌≡◌, ◌-◌, ◌≤◌, ◌<◌, ℕ, OnOk};
ghost use Rattle.machine.specs.Connections.{serials};
ghost use Rattle.attentive_acts.specs.Places.{at_accepts, at_reads, most_accepts};
ghost use Rattle.engine_loop.specs.Watches.{serials_in};
ghost use Rattle.engine_loop.specs.Stages.{Is, Passes};

use crate::watch::Watch;
use hub_acts::{AcceptAnswer, Hub};
use server_engine::{Engine, Happening};
use share_base::OutOfMemory;

/// How many connections are accepted in one turn at most.
pub(crate) const MOST_ACCEPTS: u64 = 64;

/// Accepts once, if the listener is undrained and the script hasn't quit.
fn accept_once<E: Engine, H: Hub>(
    core: &mut E,
    hub: &mut H,
    watch: &mut Watch,
) -> Result<(), OutOfMemory>
    requires same { serials_in watch.old ≡ (H.state hub.old).open_now }
    ensures same { OnOk result (serials_in watch.new ≡ (H.state hub.new).open_now) }
    ensures passes { (left : ℕ) → 0 < left → Passes E.serves H.state H.leads result
        core.old core.new hub.old hub.new watch.old watch.new
        (Is (λ fs s. at_accepts fs s left)) (Is (λ fs s. at_accepts fs s (left - 1))) }
{
    if !watch.listens {
        return Ok(());
    }
    if !core.accepts() {
        return Ok(());
    }
    match hub.accept() {
        AcceptAnswer::New(serial) => {
            watch.open(serial)?;
            core.step(Happening::Joined(serial))?;
            Ok(())
        }
        AcceptAnswer::NotNow => {
            watch.listens = false;
            Ok(())
        }
        AcceptAnswer::Failed => {
            watch.listens = false;
            Ok(())
        }
        AcceptAnswer::OutOfMemory => Err(OutOfMemory),
    }
}

/// Accepts until no connection waits, or as many as one turn may.
pub(crate) fn accept_each<E: Engine, H: Hub>(
    core: &mut E,
    hub: &mut H,
    watch: &mut Watch,
) -> Result<(), OutOfMemory>
    requires same { serials_in watch.old ≡ (H.state hub.old).open_now }
    ensures same { OnOk result (serials_in watch.new ≡ (H.state hub.new).open_now) }
    ensures passes { Passes E.serves H.state H.leads result core.old core.new
        hub.old hub.new watch.old watch.new
        (Is (λ fs s. at_accepts fs s most_accepts))
        (Is (λ fs s. at_reads fs s (serials s.connections))) }
{
    for _count in 0..MOST_ACCEPTS {
        accept_once(core, hub, watch)?;
    }
    Ok(())
}
