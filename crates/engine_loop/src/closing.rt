//! Closing connections.

ghost use Rattle.std.specs.Prelude.{◌≡◌, ◌<◌, Contains, length, OnOk};
ghost use Rattle.attentive_acts.specs.Places.{at_closes};
ghost use Rattle.engine_loop.specs.Watches.{serials_in};
ghost use Rattle.engine_loop.specs.Stages.{Is, IsToClose, IsTurned, IsSomewhere, Passes};

use crate::watch::Watch;
use hub_acts::Hub;
use server_engine::Engine;
use share_base::OutOfMemory;

/// Closes the connection with that serial, which is the one to be closed now.
fn close_once<E: Engine, H: Hub>(
    core: &mut E,
    hub: &mut H,
    watch: &mut Watch,
    serial: u64,
) -> Result<(), OutOfMemory>
    requires is_open { Contains (H.state hub.old).open_now serial }
    requires same { serials_in watch.old ≡ (H.state hub.old).open_now }
    ensures same { OnOk result (serials_in watch.new ≡ (H.state hub.new).open_now) }
    ensures fewer { OnOk result (length (serials_in watch.new) < length (serials_in watch.old)) }
    ensures passes { Passes E.serves H.state H.leads result core.old core.new
        hub.old hub.new watch.old watch.new (IsToClose serial) (Is (λ fs s. at_closes s)) }
{
    hub.close(serial)?;
    watch.close(serial);
    core.closed(serial)?;
    Ok(())
}

/// Closes all connections that are to be closed now, by rising serial.
pub(crate) fn close_each<E: Engine, H: Hub>(
    core: &mut E,
    hub: &mut H,
    watch: &mut Watch,
) -> Result<(), OutOfMemory>
    requires same { serials_in watch.old ≡ (H.state hub.old).open_now }
    requires there { IsSomewhere E.serves H.state H.leads core.old hub.old watch.old
        (Is (λ fs s. at_closes s)) }
    ensures same { OnOk result (serials_in watch.new ≡ (H.state hub.new).open_now) }
    ensures passes { Passes E.serves H.state H.leads result core.old core.new
        hub.old hub.new watch.old watch.new (Is (λ fs s. at_closes s)) IsTurned }
{
    for _count in 0..watch.len() {
        match core.closing() {
            Some(serial) => close_once(core, hub, watch, serial)?,
            None => return Ok(()),
        }
    }
    Ok(())
}
