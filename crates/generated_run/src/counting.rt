//! A run whose log is counted.

ghost use Rattle.std.specs.Prelude.{length};
ghost use Rattle.script_screen.specs.Scripts.{ScreensBelow};
ghost use Rattle.generated_run.specs.CountedRuns.{CountsRun};

use crate::summary::Summary;
use log_tally::Tally;
use screen_config::Config;
use script_screen::{Script, Trace};
use share_base::OutOfMemory;
use std::alloc::Global;
use trace_replay::{ServeEnd, replay_with_switches};

/// Runs a server of that configuration and script over the trace, and returns what the run comes
/// to. Every screen of the script is one of the configuration. The log is counted and not kept.
/// The only error is `OutOfMemory`.
pub fn count_run(
    alloc: Global,
    config: Config,
    script: Script,
    trace: Trace,
) -> Result<Summary, OutOfMemory>
    requires { ScreensBelow (length config.screens) script }
    ensures { CountsRun config script trace result }
{
    let mut tally = Tally::new();
    let (end, switches) = replay_with_switches(alloc, config, script, trace, &mut tally);
    match end {
        ServeEnd::Quit | ServeEnd::Over => Ok(Summary {
            switches,
            frames: tally.frames(),
            queued: tally.queued(),
            taken: tally.taken(),
        }),
        ServeEnd::OutOfMemory => Err(OutOfMemory),
        ServeEnd::TurnsSpent | ServeEnd::HubFault | ServeEnd::WriteFault => unreachable!(),
    }
}
