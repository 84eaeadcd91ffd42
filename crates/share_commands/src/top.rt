//! The top call.

ghost use Rattle.std.specs.Prelude.{◌≡◌};
ghost use Rattle.share_base.specs.Told.{NotSet};
ghost use Rattle.engine_loop.specs.Serving.{IsNewHub};
ghost use Rattle.command_words.specs.Forms.{Inject, Names, NoForm};
ghost use Rattle.share_commands.specs.Causes.{ReadCauses, SinkCounts, CountsHubFaults};
ghost use Rattle.share_commands.specs.Commands.{Releases};
ghost use Rattle.share_commands.specs.Joining.{LetsGo, CountsLinkFaults};
ghost use Rattle.share_commands.specs.Reading.{ReadsOnce, CountsOvers};
ghost use Rattle.share_commands.specs.Replaying.{IsReplayStatus};
ghost use Rattle.share_commands.specs.TopCall.{IfCheck, IfReplay, IfServe, IfJoin};
ghost use Rattle.share_commands.specs.TopCall.{DoesStream, StopsInTime, ChecksFile, Generates};
ghost use Rattle.share_commands.specs.TopCall.{Replays, ReplayShares, HasOneOutput};
ghost use Rattle.share_commands.specs.TopCall.{Serves, ServeShares, Joins};
ghost use Rattle.share_commands.specs.Words.{LeavesUnless, takes_files, takes_input, takes_hub};
ghost use Rattle.share_commands.specs.Words.{takes_link};

use crate::checking::run_check;
use crate::commands::{run_inject, run_show};
use crate::generating::run_generate;
use crate::joining::run_join;
use crate::replaying::run_replay;
use crate::serving::run_serve;
use crate::status::Status;
use command_words::{Command, form};
use hub_acts::{Hub, Link};
use share_base::{Files, Sink, Source};
use std::alloc::Global;

/// Does what the words say, those after the program's name. It answers `Usage` if they name no
/// command, and then nothing was touched; else it answers what the command's own call answers, and
/// what that call doesn't take is untouched.
pub fn run<F: Files, S: Source, H: Hub, L: Link, K: Sink>(
    alloc: Global,
    words: &[String],
    files: &mut F,
    input: &mut S,
    hub: &mut H,
    link: &mut L,
    out: &mut K,
) -> Status
    requires input { NotSet (S.state input.old).ended }
    requires new_hub { IsNewHub (H.state hub.old) }
    ensures does { DoesStream words.now result S.Source input.old input.new K.Sink out.old out.new }
    ensures stops { StopsInTime words.now (S.state input.old) (S.state input.new) }
    ensures released { Names Inject words.now
        → Releases result (K.state out.old) (K.state out.new) }
    ensures checks { ChecksFile words.now result (F.told files.old) K.Sink out.old out.new }
    ensures reads_once { IfCheck words.now (ReadsOnce F.Files files.old files.new) }
    ensures overs { IfCheck words.now (CountsOvers result F.Files files.old files.new) }
    ensures replays { Replays words.now result F.Files files.old files.new K.Sink out.old out.new }
    ensures headline { ReplayShares words.now result (F.told files.old) K.Sink out.old out.new }
    ensures one_output { HasOneOutput words.now result (F.told files.old) K.Sink out.old out.new }
    ensures replay_ends { IfReplay words.now (IsReplayStatus result) }
    ensures replay_overs { IfReplay words.now (CountsOvers result F.Files files.old files.new) }
    ensures serves { Serves words.now result F.Files files.old files.new H.Hub hub.old hub.new
        K.Sink out.old out.new }
    ensures serve_headline { ServeShares words.now result (F.told files.old) H.Hub hub.old hub.new
        K.Sink out.old out.new }
    ensures serve_overs { IfServe words.now (CountsOvers result F.Files files.old files.new) }
    ensures hub_faults { IfServe words.now (CountsHubFaults result H.Hub hub.old hub.new) }
    ensures joins { Joins words.now result F.Files files.old files.new L.Link link.old link.new
        K.Sink out.old out.new }
    ensures join_released { IfJoin words.now (LetsGo result (K.state out.old) (K.state out.new)) }
    ensures join_overs { IfJoin words.now (CountsOvers result F.Files files.old files.new) }
    ensures link_faults { IfJoin words.now (CountsLinkFaults result L.Link link.old link.new) }
    ensures generates { Generates words.now result K.Sink out.old out.new }
    ensures usage { NoForm words.now → result ≡ Status.Usage }
    ensures files_left { LeavesUnless takes_files words.now files.old files.new }
    ensures input_left { LeavesUnless takes_input words.now input.old input.new }
    ensures hub_left { LeavesUnless takes_hub words.now hub.old hub.new }
    ensures link_left { LeavesUnless takes_link words.now link.old link.new }
    ensures out_left { NoForm words.now → out.new ≡ out.old }
    ensures causes { ReadCauses result F.Files files.old files.new S.Source input.old input.new }
    ensures write_causes { SinkCounts result (K.state out.old).faults (K.state out.new).faults }
{
    match form(words) {
        Some(Command::Inject) => run_inject(alloc, input, out),
        Some(Command::Show(end)) => run_show(alloc, end, input, out),
        Some(Command::Check(config)) => run_check(alloc, config, files, out),
        Some(
            Command::Replay {
                config,
                script,
                trace,
            },
        ) => run_replay(alloc, config, script, trace, files, out),
        Some(
            Command::Serve {
                config,
                script,
                port,
                turns,
            },
        ) => run_serve(alloc, config, script, port, turns, files, hub, out),
        Some(
            Command::Join {
                name,
                host,
                port,
                w,
                h,
                script,
                turns,
            },
        ) => run_join(
            alloc, name, host, port, w, h, script, turns, files, link, out,
        ),
        Some(Command::Generate(n)) => run_generate(alloc, n, out),
        None => Status::Usage,
    }
}
