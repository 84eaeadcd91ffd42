//! Hearing the messages of one piece.

ghost use Rattle.std.specs.Prelude.{◌≡◌, ◌+◌, ◌^◌, ◌<◌, ◌≤◌, IfOk, length};
ghost use Rattle.client_core.specs.Ends.{IsOfStream};
ghost use Rattle.client_core.specs.Kept.{Heeds, Takes};

use crate::client_end::ClientEnd;
use crate::hearer::Hearer;
use message_codec::Msg;
use message_reader::{BadFrame, MessageReader, ReadStep};
use share_base::OutOfMemory;

// Hears one message, or returns the end that it brings. On `OutOfMemory` it is not heard.
fn heed(hearer: &mut Hearer, msg: Msg) -> Result<Option<ClientEnd>, OutOfMemory>
    ensures heeds { Heeds msg hearer.old hearer.new result }
    ensures ends { IfOk result IsOfStream }
{
    hearer.heed(&msg)
}

/// Hears the messages of the next piece up to the first that ends the client, and returns the end.
/// On `OutOfMemory` the messages before the one for which memory ran out are heard.
pub fn hear_piece(
    reader: &mut MessageReader,
    hearer: &mut Hearer,
    piece: &[u8],
) -> Result<Option<ClientEnd>, OutOfMemory>
    requires { reader.old.total + length piece.now < 2 ^ 63 }
    ensures takes { Takes reader.old reader.new hearer.old hearer.new result piece.now }
    ensures role { reader.new.role ≡ reader.old.role }
    ensures ends { IfOk result IsOfStream }
    ensures total { reader.new.total ≤ reader.old.total + length piece.now }
{
    reader.feed(piece)?;
    loop {
        match reader.next()? {
            ReadStep::More => return Ok(None),
            ReadStep::Bad(BadFrame { place, reason }) => {
                return Ok(Some(ClientEnd::BadPeer { place, reason }));
            }
            ReadStep::Message { place: _, msg } => {
                if let Some(end) = heed(hearer, msg)? {
                    return Ok(Some(end));
                }
            }
        }
    }
}
