//! What one piece of a connection's bytes brings.

ghost use Rattle.std.specs.Prelude.{◌≡◌, ◌+◌, ◌<◌, ◌^◌, [], None, length, IfOk};
ghost use Rattle.connection_table.specs.Readings.{Brings};

use message_codec::Msg;
use message_reader::{BadFrame, MessageReader, ReadStep};
use share_base::OutOfMemory;
use std::alloc::Global;

/// The messages whose frames one piece of a connection's bytes ends, and the bad frame after them.
#[derive(Debug, Drop)]
pub struct Reading {
    /// The messages, in their order.
    pub messages: Vec<Msg>,
    /// The first bad frame, where one came.
    pub bad: Option<BadFrame>,
}

impl Reading {
    // Nothing came. It takes no memory.
    pub(crate) fn nothing(alloc: Global) -> Reading
        ensures messages { result.messages.items ≡ [] }
        ensures bad { result.bad ≡ None }
    {
        Reading {
            messages: Vec::new(alloc),
            bad: None,
        }
    }
}

// Feeds a reader the next piece of its stream, which has fewer than 2^63 bytes in all, and asks it
// until no message is left.
pub(crate) fn read_piece(
    alloc: Global,
    reader: &mut MessageReader,
    piece: &[u8],
) -> Result<Reading, OutOfMemory>
    requires { reader.old.total + length piece.now < 2 ^ 63 }
    ensures { IfOk result (λ reading. Brings piece.now reading reader.old reader.new) }
{
    let mut messages = Vec::new(alloc);
    reader.feed(piece)?;
    loop {
        match reader.next()? {
            ReadStep::More => {
                return Ok(Reading {
                    messages,
                    bad: None,
                });
            }
            ReadStep::Bad(bad) => {
                return Ok(Reading {
                    messages,
                    bad: Some(bad),
                });
            }
            ReadStep::Message { place: _, msg } => messages.push(msg)?,
        }
    }
}
