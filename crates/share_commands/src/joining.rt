//! The command that joins a server.

ghost use Rattle.std.specs.Prelude.{◌≡◌};
ghost use Rattle.share_commands.specs.Causes.{FilesCauses};
ghost use Rattle.share_commands.specs.Reading.{CountsOvers};
ghost use Rattle.share_commands.specs.Joining.{JoinsFiles, LetsGo, CountsLinkFaults};
ghost use Rattle.share_commands.specs.Joining.{to_join};
ghost use Rattle.share_commands.specs.Endings.{status_of_client};

use crate::status::Status;
use crate::texts::read_client_script;
use client_core::ClientEnd;
use client_loop::join;
use hub_acts::Link;
use share_base::{Files, ScreenName, Sink};
use std::alloc::Global;

/// How the command ends where its client does.
pub(crate) fn status_of_client(end: ClientEnd) -> Status
    ensures { result ≡ status_of_client end }
{
    match end {
        ClientEnd::Bye => Status::Ok,
        ClientEnd::Refused(which) => Status::Refused(which),
        ClientEnd::BadPeer { place, reason } => Status::BadPeer { place, reason },
        ClientEnd::Lost(cause) => Status::Lost(cause),
        ClientEnd::TurnsSpent => Status::TurnsSpent,
        ClientEnd::LinkFault => Status::LinkFault,
        ClientEnd::WriteFault => Status::WriteFault,
        ClientEnd::OutOfMemory => Status::OutOfMemory,
    }
}

/// Reads a client script, whole and once; connects to that port of the host; and runs a client over
/// the link, for at most `turns` turns, whose screen has that name and that size, in pixels. Its
/// lines are written to `out`.
///
/// It ends as `BadScript` where the script is refused, with line 0 where its file is too big, and as
/// `ReadFault` where the file could not be read: then nothing is written, and the link is not
/// called. It ends as `LinkFault` where the link can't connect or a wait fails, as `Ok` where the
/// server says goodbye, as `Refused`, `BadPeer` or `Lost` as its client does, and as `TurnsSpent`
/// after the last turn. At each of these, and at `OutOfMemory`, all that went down in the lines has
/// gone up; at `WriteFault` a front of the lines is written.
pub fn run_join<F: Files, L: Link, K: Sink>(
    alloc: Global,
    name: ScreenName,
    host: &str,
    port: u16,
    w: u16,
    h: u16,
    script: &str,
    turns: u32,
    files: &mut F,
    link: &mut L,
    out: &mut K,
) -> Status
    ensures joins { JoinsFiles L.state L.leads result
        (to_join (F.told files.old) name host.now port w h script.now turns)
        (F.calls files.old) (F.calls files.new) link.old link.new (K.state out.old)
        (K.state out.new) }
    ensures released { LetsGo result (K.state out.old) (K.state out.new) }
    ensures overs { CountsOvers result F.Files files.old files.new }
    ensures causes { FilesCauses result F.Files files.old files.new K.Sink out.old out.new }
    ensures link_faults { CountsLinkFaults result L.Link link.old link.new }
{
    let script = match read_client_script(alloc, script, files) {
        Ok(script) => script,
        Err(end) => return end,
    };
    status_of_client(join(
        alloc,
        name,
        host,
        port,
        w,
        h,
        script,
        turns as u64,
        link,
        out,
    ))
}
