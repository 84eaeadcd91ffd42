//! A trace: what the outside of a server or a client does, turn by turn.

ghost use Rattle.std.specs.Prelude.{◌≡◌};
ghost use Rattle.script_screen.specs.Traces.{IsTrace};

use share_base::Octets;
use std::marker::Model;

/// A line of a trace. A line that names a connection belongs to the turn above it.
#[derive(Debug, Drop)]
pub enum TraceLine {
    /// The next wait is answered, and it is that moment from here on, in milliseconds. It is no
    /// lower than the moment before.
    Turn(u64),
    /// That connection waits for acceptance. Connections are numbered from 1 in the order of these
    /// lines.
    Join(u64),
    /// These bytes, at least one, can be read from the connection.
    Got {
        /// The connection.
        connection: u64,
        /// The bytes.
        bytes: Octets,
    },
    /// After the bytes before it the connection's stream ends.
    End(u64),
    /// After the bytes before it reads of the connection fail; its writes fail at once.
    Fail(u64),
    /// The connection takes at most that many bytes more, until the next such line.
    Room {
        /// The connection.
        connection: u64,
        /// How many bytes.
        room: u64,
    },
}

/// A trace. It is made by `read_trace` alone. Contracts see the list of its lines.
///
/// In every trace the first line is a turn, moments don't fall, connections join in the order of
/// their numbers, no line names a connection before it joined but for the first, and none gives
/// bytes or a further end to one that has ended.
#[derive(Debug, Drop)]
pub struct Trace {
    pub(crate) lines: Vec<TraceLine>,
}

impl Model for Trace {
    ghost use Rattle.std.specs.Prelude.{List};
    ghost use Rattle.script_screen.specs.declared.trace.TraceLine.{TraceLine};
    ghost use Rattle.script_screen.specs.Traces.{IsTrace};

    ghost Value = { List TraceLine };

    ghost view = { λ t. t.lines.items };

    ghost invariant = { λ t. IsTrace t.lines.items };
}

impl Trace {
    /// The lines, in their order: at most 1,000,000.
    pub fn lines(&self) -> &[TraceLine]
        ensures lines { result.now ≡ self.now }
        ensures sound { IsTrace self.now }
    {
        self.lines.as_slice()
    }
}
