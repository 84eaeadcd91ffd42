//! The command that reads a configuration and prints its normal form.

ghost use Rattle.std.specs.Prelude.{◌-◌, ◌<◌, ◌^◌, length};
ghost use Rattle.share_commands.specs.Causes.{SinkCounts, FilesCauses};
ghost use Rattle.share_commands.specs.Checking.{Prints, Checks, configs};
ghost use Rattle.share_commands.specs.Reading.{Gives, ReadsText, ReadsOnce, CountsOvers};

use crate::reading::read_file;
use crate::status::Status;
use config_text::{Config, ConfigFault, ConfigKind, parse, print};
use share_base::{Files, Octets, OutOfMemory, Sink, write_all};
use std::alloc::Global;

/// How many bytes a configuration has at most.
pub const CONFIG_LIMIT: u64 = 1_048_576;

/// The configuration that the text spells, or how a command ends without it.
pub(crate) fn parse_config(alloc: Global, text: &[u8]) -> Result<Config, Status>
    requires { length text.now < 2 ^ 32 - 1 }
    ensures { Gives configs result text.now }
{
    match parse(alloc, text) {
        Ok(config) => Ok(config),
        Err(ConfigFault::Refused(refusal)) => Err(Status::BadConfig {
            line: refusal.line,
            column: refusal.column,
            kind: refusal.kind,
        }),
        Err(ConfigFault::OutOfMemory) => Err(Status::OutOfMemory),
    }
}

/// The configuration in the file of that name, or how a command ends without it.
pub(crate) fn read_config<F: Files>(
    alloc: Global,
    name: &str,
    files: &mut F,
) -> Result<Config, Status>
    ensures { ReadsText configs result F.Files files.old files.new name.now }
{
    let too_big = Status::BadConfig {
        line: 0,
        column: 0,
        kind: ConfigKind::TooMany,
    };
    let text = read_file(name, CONFIG_LIMIT, too_big, files)?;
    parse_config(alloc, text.as_slice())
}

fn print_config<K: Sink>(alloc: Global, config: &Config, out: &mut K) -> Status
    ensures prints { Prints result config.now (K.state out.old) (K.state out.new) }
    ensures counts { SinkCounts result (K.state out.old).faults (K.state out.new).faults }
{
    let mut text = Octets::new(alloc);
    let Ok(()) = print(alloc, config, &mut text) else {
        return Status::OutOfMemory;
    };
    if write_all(out, text.as_slice()) {
        Status::Ok
    } else {
        Status::WriteFault
    }
}

/// Reads the configuration in the file of that name, whole and once, and writes its normal form.
///
/// It ends as `Ok` where all was written; as `BadConfig` where the text is refused, or, with line 0
/// and column 0 as `TooMany`, where the file has more than 1,048,576 bytes; as `ReadFault` where
/// the file could not be read. Nothing is written at these, nor at `OutOfMemory`; at `WriteFault` a
/// front of the normal form is.
pub fn run_check<F: Files, K: Sink>(
    alloc: Global,
    config: &str,
    files: &mut F,
    out: &mut K,
) -> Status
    ensures checks { Checks result (F.told files.old config.now) (K.state out.old)
        (K.state out.new) }
    ensures reads_once { ReadsOnce F.Files files.old files.new }
    ensures overs { CountsOvers result F.Files files.old files.new }
    ensures causes { FilesCauses result F.Files files.old files.new K.Sink out.old out.new }
{
    match read_config(alloc, config, files) {
        Ok(config) => print_config(alloc, &config, out),
        Err(end) => end,
    }
}
