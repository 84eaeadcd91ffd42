//! The three texts of a run.

ghost use Rattle.std.specs.Prelude.{◌≡◌, ◌++◌, OnOk, IfOk};
ghost use Rattle.generated_texts.specs.Texts as spec;

use crate::down::Down;
use crate::draws::Draws;
use crate::lines::put_event;
use share_base::{Octets, OutOfMemory};
use std::alloc::Global;

/// How many events a script has.
const EVENTS: u32 = 2_000;

const CONFIG: &[u8] = b"\
section: screens\n\
\tdesk:\n\
\ts1:\n\
\ts2:\n\
\ts3:\n\
end\n\
section: aliases\n\
end\n\
section: links\n\
\tdesk:\n\
\t\tright = s1\n\
\ts1:\n\
\t\tleft = desk\n\
\t\tright = s2\n\
\ts2:\n\
\t\tleft = s1\n\
\t\tright = s3\n\
\ts3:\n\
\t\tleft = s2\n\
end\n\
section: options\n\
end\n";

const SCRIPT_START: &[u8] = b"primary desk 1920 1080\nawait s1\nawait s2\nawait s3\n";

const TRACE: &[u8] = b"\
turn 0\n\
join 1\n\
join 2\n\
join 3\n\
turn 0\n\
got 1 0000001153796e6572677900010006000000027331\n\
got 2 0000001153796e6572677900010006000000027332\n\
got 3 0000001153796e6572677900010006000000027333\n\
turn 0\n\
got 1 0000001244494e460000000004000300000002000180\n\
got 2 0000001244494e460000000004000300000002000180\n\
got 3 0000001244494e460000000004000300000002000180\n\
turn 1\n\
turn 2\n\
turn 3\n\
turn 4\n\
turn 5\n\
turn 6\n\
turn 7\n\
turn 8\n\
turn 9\n\
turn 10\n\
turn 11\n\
turn 12\n\
turn 13\n\
turn 14\n\
turn 15\n\
turn 16\n\
turn 17\n\
turn 18\n\
turn 19\n\
turn 20\n";

/// The texts of one run.
#[derive(Debug, Drop)]
pub struct Texts {
    /// The configuration, in normal form: the screens desk, s1, s2 and s3 in a row.
    pub config: Octets,
    /// The server's script: 2,000 events at the primary screen, desk, once the others have joined.
    pub script: Octets,
    /// The trace: three clients join in the turns of moment 0, and then moments 1 to 20 pass.
    pub trace: Octets,
}

fn put_events(seed: u64, out: &mut Octets) -> Result<(), OutOfMemory>
    ensures { OnOk result (out.new ≡ out.old ++ spec.event_lines seed 2000) }
{
    let mut draws = Draws::new(seed);
    let mut down = Down::new();
    for _index in 0..EVENTS {
        let event = draws.event();
        put_event(out, &down, event)?;
        down.follow(event);
    }
    Ok(())
}

/// Makes the texts of the run of a number: the same texts for the same number. The only error is
/// `OutOfMemory`.
pub fn made(alloc: Global, n: u64) -> Result<Texts, OutOfMemory>
    ensures { IfOk result (λ texts. texts ≡ spec.texts_of n) }
{
    let mut config = Octets::new(alloc);
    config.extend(CONFIG)?;
    let mut script = Octets::new(alloc);
    script.extend(SCRIPT_START)?;
    put_events(n, &mut script)?;
    script.extend(b"quit\n")?;
    let mut trace = Octets::new(alloc);
    trace.extend(TRACE)?;
    Ok(Texts {
        config,
        script,
        trace,
    })
}
