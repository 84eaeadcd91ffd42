//! The run of a server on a port.

ghost use Rattle.std.specs.Prelude.{◌≡◌, length};
ghost use Rattle.script_screen.specs.Scripts.{ScreensBelow};
ghost use Rattle.engine_loop.specs.Serving.{IsNewHub, HubCounts};
ghost use Rattle.server_core.specs.Promises.{origin};
ghost use Rattle.hub_serving.specs.Serving.{RunsServer, Runs, OutputCounts, end_without};

use engine_loop::{ServeEnd, serve};
use hub_acts::{CallFault, Hub};
use screen_config::Config;
use script_screen::Script;
use server_core::ServerCore;
use share_base::Sink;
use std::alloc::Global;

/// Runs a server of that configuration and script over a hub that listens.
fn run_server<H: Hub, K: Sink>(
    alloc: Global,
    config: Config,
    script: Script,
    hub: &mut H,
    out: &mut K,
    turns: u64,
) -> ServeEnd
    requires screens { ScreensBelow (length config.screens) script }
    requires new_hub { IsNewHub (H.state hub.old) }
    ensures { RunsServer H.state H.leads (origin config script 0) turns result hub.old hub.new
        (K.state out.old) (K.state out.new) }
{
    let Ok(mut core) = ServerCore::new(config, script, 0) else {
        return ServeEnd::OutOfMemory;
    };
    serve(alloc, &mut core, hub, out, turns)
}

/// How a server ends that can't listen.
fn end_without(fault: CallFault) -> ServeEnd
    ensures { result ≡ end_without fault }
{
    match fault {
        CallFault::Failed => ServeEnd::HubFault,
        CallFault::OutOfMemory => ServeEnd::OutOfMemory,
    }
}

fn listen_and_run<H: Hub, K: Sink>(
    alloc: Global,
    config: Config,
    script: Script,
    port: u16,
    turns: u64,
    hub: &mut H,
    out: &mut K,
) -> ServeEnd
    requires screens { ScreensBelow (length config.screens) script }
    requires new_hub { IsNewHub (H.state hub.old) }
    ensures { Runs config script port turns result H.Hub hub.old hub.new K.Sink out.old out.new }
{
    match hub.listen(port) {
        Ok(()) => run_server(alloc, config, script, hub, out, turns),
        Err(cause) => end_without(cause),
    }
}

/// Listens at that port, and runs a server of that configuration and script over the hub, for at
/// most `turns` turns; its log is written to `out`. Every screen of the script is one of the
/// configuration.
///
/// It ends as `HubFault` if the hub can't listen, and then nothing was written and no further call
/// was made; else as the loop ends. On `OutOfMemory` a front of the log is written, and the hub may
/// have been called or not.
pub fn serve_on<H: Hub, K: Sink>(
    alloc: Global,
    config: Config,
    script: Script,
    port: u16,
    turns: u64,
    hub: &mut H,
    out: &mut K,
) -> ServeEnd
    requires screens { ScreensBelow (length config.screens) script }
    requires new_hub { IsNewHub (H.state hub.old) }
    ensures serves { Runs config script port turns result H.Hub hub.old hub.new
        K.Sink out.old out.new }
    ensures hub_faults { HubCounts result (H.state hub.old).faults (H.state hub.new).faults }
    ensures output_faults { OutputCounts result (K.state out.old).faults (K.state out.new).faults }
{
    listen_and_run(alloc, config, script, port, turns, hub, out)
}
