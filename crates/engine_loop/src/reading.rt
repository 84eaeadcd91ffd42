//! Reading from the connections.

ghost use Rattle.std.specs.Prelude.{◌≡◌, ◌∷◌, List, ℕ, Contains, length, OnOk};
ghost use Rattle.machine.specs.Connections.{serials};
ghost use Rattle.attentive_acts.specs.Judging.{most_moved};
ghost use Rattle.attentive_acts.specs.Places.{at_reads, at_writes};
ghost use Rattle.engine_loop.specs.Watches.{serials_in};
ghost use Rattle.engine_loop.specs.Stages.{Is, Passes};

use crate::watch::{Change, Watch};
use hub_acts::{Hub, ReadAnswer};
use server_engine::{Engine, Happening};
use share_base::OutOfMemory;

/// Reads once from the connection with that serial, if it is undrained and isn't parting.
fn read_once<E: Engine, H: Hub>(
    core: &mut E,
    hub: &mut H,
    watch: &mut Watch,
    buffer: &mut [u8],
    serial: u64,
) -> Result<(), OutOfMemory>
    requires is_open { Contains (H.state hub.old).open_now serial }
    requires room { length buffer.old ≡ most_moved }
    ensures watched { serials_in watch.new ≡ serials_in watch.old }
    ensures stay { (H.state hub.new).open_now ≡ (H.state hub.old).open_now }
    ensures passes { (rest : List ℕ) → Passes E.serves H.state H.leads result core.old core.new
        hub.old hub.new watch.old watch.new
        (Is (λ fs s. at_reads fs s (serial ∷ rest))) (Is (λ fs s. at_reads fs s rest)) }
{
    if !watch.may_read(serial) {
        return Ok(());
    }
    if !core.reads(serial) {
        return Ok(());
    }
    match hub.read(serial, buffer) {
        ReadAnswer::Got(count) => {
            let piece = &buffer[..count];
            core.step(Happening::Got { serial, piece })?;
            Ok(())
        }
        ReadAnswer::End => {
            watch.change(serial, Change::ReadsDrained);
            core.step(Happening::Ended(serial))?;
            Ok(())
        }
        ReadAnswer::NotNow => {
            watch.change(serial, Change::ReadsDrained);
            Ok(())
        }
        ReadAnswer::Failed => {
            watch.change(serial, Change::ReadsDrained);
            core.step(Happening::Failed(serial))?;
            Ok(())
        }
        ReadAnswer::OutOfMemory => Err(OutOfMemory),
    }
}

/// Reads once from each connection that is undrained by then, by rising serial.
pub(crate) fn read_each<E: Engine, H: Hub>(
    core: &mut E,
    hub: &mut H,
    watch: &mut Watch,
    buffer: &mut [u8],
) -> Result<(), OutOfMemory>
    requires same { serials_in watch.old ≡ (H.state hub.old).open_now }
    requires room { length buffer.old ≡ most_moved }
    ensures same { serials_in watch.new ≡ (H.state hub.new).open_now }
    ensures passes { Passes E.serves H.state H.leads result core.old core.new
        hub.old hub.new watch.old watch.new
        (Is (λ fs s. at_reads fs s (serials s.connections)))
        (Is (λ fs s. at_writes fs s (serials s.connections))) }
{
    for index in 0..watch.len() {
        let serial = watch.streams[index].serial;
        read_once(core, hub, watch, buffer, serial)?;
    }
    Ok(())
}
