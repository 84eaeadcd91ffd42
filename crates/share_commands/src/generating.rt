//! The command that makes a run from a number and prints what it comes to.

ghost use Rattle.std.specs.Prelude.{◌≡◌};
ghost use Rattle.generated_run.specs.Summaries.{summary_text};
ghost use Rattle.share_commands.specs.Causes.{SinkCounts};
ghost use Rattle.share_commands.specs.Generating.{GivesSummary, GeneratesFrom, IsGoodEnd};
ghost use Rattle.share_commands.specs.Generating.{PrintsSummary};

use crate::checking::parse_config;
use crate::status::Status;
use crate::texts::{parse_script, parse_trace};
use generated_run::{Summary, count_run};
use script_screen::made;
use share_base::{OutOfMemory, Sink, write_all};
use std::alloc::Global;

/// What the run of that number comes to, or how a command ends without it: as `OutOfMemory`.
fn summary_of(alloc: Global, n: u64) -> Result<Summary, Status>
    ensures { GivesSummary result n }
{
    let Ok(texts) = made(alloc, n) else {
        return Err(Status::OutOfMemory);
    };
    let config = match parse_config(alloc, texts.config.as_slice()) {
        Ok(config) => config,
        Err(end) => return Err(end),
    };
    let script = match parse_script(alloc, texts.script.as_slice(), &config) {
        Ok(script) => script,
        Err(end) => return Err(end),
    };
    let trace = match parse_trace(alloc, texts.trace.as_slice()) {
        Ok(trace) => trace,
        Err(end) => return Err(end),
    };
    match count_run(alloc, config, script, trace) {
        Ok(summary) => Ok(summary),
        Err(OutOfMemory) => Err(Status::OutOfMemory),
    }
}

fn print_summary<K: Sink>(summary: &Summary, out: &mut K) -> Status
    ensures prints { PrintsSummary result (summary_text summary.now) (K.state out.old)
        (K.state out.new) }
    ensures counts { SinkCounts result (K.state out.old).faults (K.state out.new).faults }
{
    let text = summary.text();
    if write_all(out, text.as_slice()) {
        Status::Ok
    } else {
        Status::WriteFault
    }
}

/// Makes a configuration, a script and a trace from the number, runs the server of the first two
/// over the third, and writes a summary: how many events the script has, how often a screen was
/// entered, how many frames and bytes were queued for all connections, and how many bytes these
/// took.
///
/// It ends as `Ok` where all was written; at `WriteFault` a front of the summary is. Nothing is
/// written at `OutOfMemory`. It has no other end: each of the three texts is accepted.
pub fn run_generate<K: Sink>(alloc: Global, n: u64, out: &mut K) -> Status
    ensures generates { GeneratesFrom result n (K.state out.old) (K.state out.new) }
    ensures complete { IsGoodEnd result }
    ensures causes { SinkCounts result (K.state out.old).faults (K.state out.new).faults }
{
    match summary_of(alloc, n) {
        Ok(summary) => print_summary(&summary, out),
        Err(end) => end,
    }
}
