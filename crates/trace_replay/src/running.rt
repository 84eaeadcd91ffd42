//! The run of a server over a trace.

ghost use Rattle.std.specs.Prelude.{◌≡◌, ◌+◌, length};
ghost use Rattle.script_screen.specs.Scripts.{ScreensBelow};
ghost use Rattle.script_screen.specs.Traces.{IsTrace};
ghost use Rattle.trace_replay.specs.Replaying.{Replayed, turns_of, is_turn};
ghost use Rattle.trace_replay.specs.Switches.{ReturnsReplay, IsReplayEnd};

use engine_loop::{ServeEnd, serve};
use hub_mem::MemoryHub;
use screen_config::Config;
use script_screen::{Script, Trace, TraceLine};
use server_core::ServerCore;
use share_base::Sink;
use std::alloc::Global;

fn is_turn(line: &TraceLine) -> bool
    ensures { result ≡ is_turn line.now }
{
    matches!(line, TraceLine::Turn(_))
}

/// How many waits the loop makes at most: one more than the trace has turns.
fn turns_of(trace: &Trace) -> u64
    ensures count { result ≡ turns_of trace.now }
    ensures sound { IsTrace trace.now }
{
    let lines = trace.lines();
    let turns = lines.iter().filter(|line| is_turn(line)).count();
    turns as u64 + 1
}

/// Runs a server as `replay` does. Returns how it ended, and the sequence number of the latest
/// entering of a screen by then; 0 on `OutOfMemory`. It ends neither as `TurnsSpent` nor as
/// `HubFault`.
pub fn replay_with_switches<K: Sink>(
    alloc: Global,
    config: Config,
    script: Script,
    trace: Trace,
    out: &mut K,
) -> (ServeEnd, u32)
    requires { ScreensBelow (length config.screens) script }
    ensures replayed { ReturnsReplay config script trace result (K.state out.old)
        (K.state out.new) }
    ensures ends { IsReplayEnd result.0 }
{
    let turns = turns_of(&trace);
    let Ok(mut hub) = MemoryHub::of_trace(alloc, trace, &[]) else {
        return (ServeEnd::OutOfMemory, 0);
    };
    let Ok(mut core) = ServerCore::new(config, script, 0) else {
        return (ServeEnd::OutOfMemory, 0);
    };
    let end = serve(alloc, &mut core, &mut hub, out, turns);
    (end, core.sequence())
}

/// Runs a server of that configuration and script over the trace, and writes its log to `out`.
/// Every screen of the script is one of the configuration.
///
/// It ends as `Quit` where the script has quit and every connection was closed, and as `Over` where
/// the trace ended before that; as `WriteFault` where the output failed, and has a front of the log
/// then. It ends neither as `TurnsSpent` nor as `HubFault`.
pub fn replay<K: Sink>(
    alloc: Global,
    config: Config,
    script: Script,
    trace: Trace,
    out: &mut K,
) -> ServeEnd
    requires { ScreensBelow (length config.screens) script }
    ensures replayed { Replayed config script trace result (K.state out.old) (K.state out.new) }
    ensures ends { IsReplayEnd result }
{
    replay_with_switches(alloc, config, script, trace, out).0
}
