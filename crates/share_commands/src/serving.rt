//! The command that serves clients over sockets.

ghost use Rattle.std.specs.Prelude.{◌≡◌, length};
ghost use Rattle.script_screen.specs.Scripts.{ScreensBelow};
ghost use Rattle.engine_loop.specs.Serving.{IsNewHub};
ghost use Rattle.share_commands.specs.Causes.{FilesCauses, CountsHubFaults};
ghost use Rattle.share_commands.specs.Reading.{CountsOvers};
ghost use Rattle.share_commands.specs.Serving.{ServesFiles, to_serve};
ghost use Rattle.share_commands.specs.ServingHeadline.{SharesIfServed};

use crate::checking::read_config;
use crate::replaying::{assure_script, status_of};
use crate::status::Status;
use crate::texts::read_script;
use config_text::Config;
use hub_acts::Hub;
use hub_serving::serve_on;
use script_screen::Script;
use share_base::{Files, Sink};
use std::alloc::Global;

/// Reads a configuration and a script, each whole and once, and the first judged before the second
/// is read; listens at that port, 0 for any free one; runs a server over the hub, for at most
/// `turns` turns, and writes its log. The hub has accepted nothing before.
///
/// It ends as `BadConfig` or `BadScript` at the first text that is refused, with line 0 if its file
/// is too big, and as `ReadFault` if a file could not be read: then nothing is written, no further
/// file is read, and the hub is not called. It ends as `HubFault` if the hub can't listen or a wait
/// fails, as `Ok` once the script has quit and all connections are closed, and as `TurnsSpent` after
/// the last turn. On `WriteFault` and `OutOfMemory` a front of the log is written.
pub fn run_serve<F: Files, H: Hub, K: Sink>(
    alloc: Global,
    config: &str,
    script: &str,
    port: u16,
    turns: u32,
    files: &mut F,
    hub: &mut H,
    out: &mut K,
) -> Status
    requires { IsNewHub (H.state hub.old) }
    ensures serves { ServesFiles H.state H.leads result
        (to_serve (F.told files.old) config.now script.now port turns)
        (F.calls files.old) (F.calls files.new) hub.old hub.new
        (K.state out.old) (K.state out.new) }
    ensures headline { SharesIfServed H.state result
        (to_serve (F.told files.old) config.now script.now port turns)
        hub.old hub.new (K.state out.old) (K.state out.new) }
    ensures overs { CountsOvers result F.Files files.old files.new }
    ensures causes { FilesCauses result F.Files files.old files.new K.Sink out.old out.new }
    ensures hub_faults { CountsHubFaults result H.Hub hub.old hub.new }
{
    let config = match read_config(alloc, config, files) {
        Ok(config) => config,
        Err(end) => return end,
    };
    let script = match read_script(alloc, script, &config, files) {
        Ok(script) => script,
        Err(end) => return end,
    };
    config.assure_sound();
    assure_script(&script);
    status_of(serve_on(alloc, config, script, port, turns as u64, hub, out))
}
