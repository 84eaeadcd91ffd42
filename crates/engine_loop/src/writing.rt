//! Writing to the connections.

ghost use Rattle.std.specs.Prelude.{◌≡◌, ◌∷◌, List, ℕ, Contains, length, OnOk};
ghost use Rattle.machine.specs.Connections.{serials};
ghost use Rattle.attentive_acts.specs.Places.{at_writes, at_closes};
ghost use Rattle.engine_loop.specs.Watches.{serials_in};
ghost use Rattle.engine_loop.specs.Stages.{Is, Passes};

use crate::watch::{Change, Watch};
use hub_acts::{Hub, WriteAnswer};
use server_engine::{Engine, Happening};
use share_base::OutOfMemory;

/// How many bytes one read or write moves at most.
pub(crate) const MOST_MOVED: usize = 65_536;

/// Writes once to the connection with that serial, if it is undrained and has bytes to take.
fn write_once<E: Engine, H: Hub>(
    core: &mut E,
    hub: &mut H,
    watch: &mut Watch,
    serial: u64,
) -> Result<(), OutOfMemory>
    requires is_open { Contains (H.state hub.old).open_now serial }
    requires same { serials_in watch.old ≡ (H.state hub.old).open_now }
    ensures watched { serials_in watch.new ≡ serials_in watch.old }
    ensures stay { (H.state hub.new).open_now ≡ (H.state hub.old).open_now }
    ensures passes { (rest : List ℕ) → Passes E.serves H.state H.leads result core.old core.new
        hub.old hub.new watch.old watch.new
        (Is (λ fs s. at_writes fs s (serial ∷ rest))) (Is (λ fs s. at_writes fs s rest)) }
{
    let total = core.total(serial);
    if !watch.may_write(serial, total) {
        return Ok(());
    }
    let queued = core.queued(serial);
    if queued.is_empty() {
        return Ok(());
    }
    let piece = &queued[..queued.len().min(MOST_MOVED)];
    match hub.write(serial, piece) {
        WriteAnswer::Took(count) => {
            core.taken(serial, count);
            Ok(())
        }
        WriteAnswer::NotNow => {
            watch.change(serial, Change::WritesDrained { seen: total });
            Ok(())
        }
        WriteAnswer::Failed => {
            watch.change(serial, Change::WritesDrained { seen: total });
            core.step(Happening::Failed(serial))?;
            Ok(())
        }
        WriteAnswer::OutOfMemory => Err(OutOfMemory),
    }
}

/// Writes once to each connection that is undrained by then, by rising serial.
pub(crate) fn write_each<E: Engine, H: Hub>(
    core: &mut E,
    hub: &mut H,
    watch: &mut Watch,
) -> Result<(), OutOfMemory>
    requires same { serials_in watch.old ≡ (H.state hub.old).open_now }
    ensures same { serials_in watch.new ≡ (H.state hub.new).open_now }
    ensures passes { Passes E.serves H.state H.leads result core.old core.new
        hub.old hub.new watch.old watch.new
        (Is (λ fs s. at_writes fs s (serials s.connections))) (Is (λ fs s. at_closes s)) }
{
    for index in 0..watch.len() {
        let serial = watch.streams[index].serial;
        write_once(core, hub, watch, serial)?;
    }
    Ok(())
}
