//! The closings at the end of a run.

ghost use Rattle.std.specs.Prelude.{◌≡◌, ◌∷◌, [], List, ℕ, OnOk, OnErr};
ghost use Rattle.reached_states.specs.OpenSerials.{Rise};
ghost use Rattle.engine_loop.specs.declared.serve_end.ServeEnd.{ServeEnd as End};
ghost use Rattle.engine_loop.specs.Watches.{serials_in};
ghost use Rattle.engine_loop.specs.Stages.{Course, After};
ghost use Rattle.engine_loop.specs.Ends.{Departing, LeftSoFar};

use crate::watch::Watch;
use hub_acts::Hub;
use server_engine::Engine;
use share_base::OutOfMemory;

/// Closes the connection with that serial, the first one of those that are left.
fn leave_once<E: Engine, H: Hub>(core: &mut E, hub: &mut H, serial: u64) -> Result<(), OutOfMemory>
    requires first { (rest : List ℕ) × (low : ℕ) × ((H.state hub.old).open_now ≡ serial ∷ rest)
        × Rise low (serial ∷ rest) }
    ensures rest { OnOk result ((rest : List ℕ) (low : ℕ)
        → (H.state hub.old).open_now ≡ serial ∷ rest → Rise low (serial ∷ rest)
        → (H.state hub.new).open_now ≡ rest) }
    ensures leaves { (r : Course H) (end : End) (turns : ℕ) (rest : List ℕ)
        → Departing E.departs H.state H.leads r end turns core.old hub.old (serial ∷ rest)
        → After result (Departing E.departs H.state H.leads r end turns core.new hub.new rest)
        (LeftSoFar H.state H.leads r turns hub.new) }
{
    hub.close(serial)?;
    core.closed(serial)?;
    Ok(())
}

/// Closes all connections that are open, by rising serial.
pub(crate) fn leave_each<E: Engine, H: Hub>(
    core: &mut E,
    hub: &mut H,
    watch: &Watch,
) -> Result<(), OutOfMemory>
    requires same { serials_in watch.now ≡ (H.state hub.old).open_now }
    requires rise { Rise 0 (serials_in watch.now) }
    ensures leaves { (r : Course H) (end : End) (turns : ℕ)
        → Departing E.departs H.state H.leads r end turns core.old hub.old (serials_in watch.now)
        → After result (Departing E.departs H.state H.leads r end turns core.new hub.new [])
        (LeftSoFar H.state H.leads r turns hub.new) }
{
    for stream in &watch.streams {
        leave_once(core, hub, stream.serial)?;
    }
    Ok(())
}
