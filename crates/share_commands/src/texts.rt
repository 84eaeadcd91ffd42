//! The scripts and traces that a command is given by name.

ghost use Rattle.std.specs.Prelude.{IfOk};
ghost use Rattle.script_screen.specs.Scripts.{ScreensBelow};
ghost use Rattle.script_screen.specs.Screens.{screen_count};
ghost use Rattle.share_commands.specs.Reading.{Gives, ReadsText};
ghost use Rattle.share_commands.specs.Texts.{scripts, client_scripts, traces};

use crate::reading::read_file;
use crate::status::Status;
use config_text::Config;
use script_screen::{ClientScript, Script, TextFault, TextKind, Trace};
use share_base::Files;
use std::alloc::Global;

/// How many bytes a script has at most.
pub const SCRIPT_LIMIT: u64 = 16_777_216;

/// How many bytes a trace has at most.
pub const TRACE_LIMIT: u64 = 67_108_864;

/// The script that the text spells, whose screens are those of `config`, or how a command ends
/// without it.
pub(crate) fn parse_script(alloc: Global, text: &[u8], config: &Config) -> Result<Script, Status>
    ensures spells { Gives (scripts config.now) result text.now }
    ensures known { IfOk result (ScreensBelow (screen_count config.now)) }
{
    match script_screen::read_script(alloc, text, config) {
        Ok(script) => Ok(script),
        Err(TextFault::Refused { line, kind }) => Err(Status::BadScript { line, kind }),
        Err(TextFault::OutOfMemory) => Err(Status::OutOfMemory),
    }
}

/// The script in the file of that name, whose screens are those of `config`, or how a command ends
/// without it.
pub(crate) fn read_script<F: Files>(
    alloc: Global,
    name: &str,
    config: &Config,
    files: &mut F,
) -> Result<Script, Status>
    ensures reads { ReadsText (scripts config.now) result F.Files files.old files.new name.now }
    ensures known { IfOk result (ScreensBelow (screen_count config.now)) }
{
    let too_big = Status::BadScript {
        line: 0,
        kind: TextKind::TooLong,
    };
    let text = read_file(name, SCRIPT_LIMIT, too_big, files)?;
    parse_script(alloc, text.as_slice(), config)
}

/// The client script that the text spells, or how a command ends without it.
fn parse_client_script(alloc: Global, text: &[u8]) -> Result<ClientScript, Status>
    ensures { Gives client_scripts result text.now }
{
    match script_screen::read_client_script(alloc, text) {
        Ok(script) => Ok(script),
        Err(TextFault::Refused { line, kind }) => Err(Status::BadScript { line, kind }),
        Err(TextFault::OutOfMemory) => Err(Status::OutOfMemory),
    }
}

/// The client script in the file of that name, or how a command ends without it.
pub(crate) fn read_client_script<F: Files>(
    alloc: Global,
    name: &str,
    files: &mut F,
) -> Result<ClientScript, Status>
    ensures { ReadsText client_scripts result F.Files files.old files.new name.now }
{
    let too_big = Status::BadScript {
        line: 0,
        kind: TextKind::TooLong,
    };
    let text = read_file(name, SCRIPT_LIMIT, too_big, files)?;
    parse_client_script(alloc, text.as_slice())
}

/// The trace that the text spells, or how a command ends without it.
pub(crate) fn parse_trace(alloc: Global, text: &[u8]) -> Result<Trace, Status>
    ensures { Gives traces result text.now }
{
    match script_screen::read_trace(alloc, text) {
        Ok(trace) => Ok(trace),
        Err(TextFault::Refused { line, kind }) => Err(Status::BadTrace { line, kind }),
        Err(TextFault::OutOfMemory) => Err(Status::OutOfMemory),
    }
}

/// The trace in the file of that name, or how a command ends without it.
pub(crate) fn read_trace<F: Files>(
    alloc: Global,
    name: &str,
    files: &mut F,
) -> Result<Trace, Status>
    ensures { ReadsText traces result F.Files files.old files.new name.now }
{
    let too_big = Status::BadTrace {
        line: 0,
        kind: TextKind::TooLong,
    };
    let text = read_file(name, TRACE_LIMIT, too_big, files)?;
    parse_trace(alloc, text.as_slice())
}
