//! The marks of a turn.

ghost use Rattle.std.specs.Prelude.{◌≡◌, ◌<◌, ◌++◌, [], length};
ghost use Rattle.std.specs.List.{list_any};
ghost use Rattle.script_screen.specs.Traces.{is_join};
ghost use Rattle.hub_mem.specs.Answers.{makes_readable, makes_writable, marks_for, marks_of};

use hub_acts::{Mark, ReadyList};
use script_screen::TraceLine;

fn some_joins(turn: &[TraceLine]) -> bool
    ensures { result ≡ list_any is_join turn.now }
{
    turn.iter().any(|line| matches!(line, TraceLine::Join(_)))
}

fn gives_to_read(line: &TraceLine, serial: u64) -> bool
    ensures { result ≡ makes_readable serial line.now }
{
    match line {
        TraceLine::Got { connection, .. } => *connection == serial,
        TraceLine::End(connection) | TraceLine::Fail(connection) => *connection == serial,
        _ => false,
    }
}

fn gives_room(line: &TraceLine, serial: u64) -> bool
    ensures { result ≡ makes_writable serial line.now }
{
    match line {
        TraceLine::Fail(connection) => *connection == serial,
        TraceLine::Room { connection, .. } => *connection == serial,
        _ => false,
    }
}

/// Whether the turn has a line by which there may be something to read.
pub fn is_readable(turn: &[TraceLine], serial: u64) -> bool
    ensures { result ≡ list_any (makes_readable serial) turn.now }
{
    turn.iter().any(|line| gives_to_read(line, serial))
}

/// Whether the turn has a line by which there may be room to write.
pub fn is_writable(turn: &[TraceLine], serial: u64) -> bool
    ensures { result ≡ list_any (makes_writable serial) turn.now }
{
    turn.iter().any(|line| gives_room(line, serial))
}

/// Reports a turn to the open connections: an accept where one joins, and then a mark for each that
/// the turn has a line for.
pub(crate) fn report_turn(turn: &[TraceLine], serials: &[u64], ready: &mut ReadyList)
    requires empty { ready.old ≡ [] }
    requires few { length serials.now < 128 }
    ensures { ready.new ≡ marks_of turn.now serials.now }
{
    if some_joins(turn) {
        ready.push(Mark::Accept);
    }
    for serial in serials {
        report_one(turn, *serial, ready);
    }
}

fn report_one(turn: &[TraceLine], serial: u64, ready: &mut ReadyList)
    requires { length ready.old < 128 }
    ensures { ready.new ≡ ready.old ++ marks_for turn.now serial }
{
    let readable = is_readable(turn, serial);
    let writable = is_writable(turn, serial);
    if readable || writable {
        ready.push(Mark::Stream {
            serial,
            readable,
            writable,
        });
    }
}
