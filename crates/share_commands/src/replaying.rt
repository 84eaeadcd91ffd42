//! The command that drives a server by a trace.

ghost use Rattle.std.specs.Prelude.{◌≡◌, length};
ghost use Rattle.script_screen.specs.Scripts.{IsScript, ScreensBelow};
ghost use Rattle.share_commands.specs.Causes.{FilesCauses};
ghost use Rattle.share_commands.specs.Reading.{CountsOvers};
ghost use Rattle.share_commands.specs.Headline.{SharesIfRun};
ghost use Rattle.share_commands.specs.OneOutput.{WritesOneOutput};
ghost use Rattle.share_commands.specs.Replaying.{ReplaysFiles, IsReplayStatus};
ghost use Rattle.share_commands.specs.Replaying.{given_by, status_of_run};

use crate::checking::read_config;
use crate::status::Status;
use crate::texts::{read_script, read_trace};
use config_text::Config;
use script_screen::{Script, Trace};
use share_base::{Files, Sink};
use std::alloc::Global;
use trace_replay::{ServeEnd, replay};

/// How a command ends where its server does.
pub(crate) fn status_of(end: ServeEnd) -> Status
    ensures { result ≡ status_of_run end }
{
    match end {
        ServeEnd::Quit | ServeEnd::Over => Status::Ok,
        ServeEnd::TurnsSpent => Status::TurnsSpent,
        ServeEnd::HubFault => Status::HubFault,
        ServeEnd::WriteFault => Status::WriteFault,
        ServeEnd::OutOfMemory => Status::OutOfMemory,
    }
}

/// Does nothing. Its contract says what every script keeps.
pub(crate) fn assure_script(script: &Script)
    ensures { IsScript script.now }
{
    let _ = script.w();
}

/// Reads a configuration, a script and a trace, each whole and once and each judged before the next
/// is read; runs the server over the trace, and writes its log.
///
/// It ends as `BadConfig`, `BadScript` or `BadTrace` at the first text that is refused, with line 0
/// where its file is too big, and as `ReadFault` where a file could not be read: then nothing is
/// written, and no further file is read. It ends as `Ok` where the script has quit and all
/// connections are closed, or the trace is over; at `WriteFault` a front of the log is written, and
/// at `OutOfMemory` too. It never ends as `HubFault` or `TurnsSpent`. If it ends as `Ok` and no
/// full chunk of a clipboard is ever queued, what it wrote is the one output of the three files.
pub fn run_replay<F: Files, K: Sink>(
    alloc: Global,
    config: &str,
    script: &str,
    trace: &str,
    files: &mut F,
    out: &mut K,
) -> Status
    ensures replays { ReplaysFiles result
        (given_by (F.told files.old) config.now script.now trace.now)
        (F.calls files.old) (F.calls files.new) (K.state out.old) (K.state out.new) }
    ensures headline { SharesIfRun result
        (given_by (F.told files.old) config.now script.now trace.now)
        (K.state out.old) (K.state out.new) }
    ensures ends { IsReplayStatus result }
    ensures one_output { WritesOneOutput result
        (given_by (F.told files.old) config.now script.now trace.now)
        (K.state out.old) (K.state out.new) }
    ensures overs { CountsOvers result F.Files files.old files.new }
    ensures causes { FilesCauses result F.Files files.old files.new K.Sink out.old out.new }
{
    let config = match read_config(alloc, config, files) {
        Ok(config) => config,
        Err(end) => return end,
    };
    let script = match read_script(alloc, script, &config, files) {
        Ok(script) => script,
        Err(end) => return end,
    };
    let trace = match read_trace(alloc, trace, files) {
        Ok(trace) => trace,
        Err(end) => return end,
    };
    config.assure_sound();
    assure_script(&script);
    status_of(replay(alloc, config, script, trace, out))
}
