//! The files that a command is given by name.

ghost use Rattle.share_commands.specs.Reading.{ReadsText, NamesNoLine, bytes_within};

use crate::status::Status;
use share_base::{FileAnswer, Files, Octets};

/// The bytes of the file of that name, or how a command ends without them: as `too_big` where there
/// are more than `limit`.
pub(crate) fn read_file<F: Files>(
    name: &str,
    limit: u64,
    too_big: Status,
    files: &mut F,
) -> Result<Octets, Status>
    requires { NamesNoLine too_big }
    ensures { ReadsText (bytes_within limit too_big) result F.Files files.old files.new name.now }
{
    match files.read_all(name, limit) {
        FileAnswer::Bytes(text) => Ok(text),
        FileAnswer::TooBig => Err(too_big),
        FileAnswer::Failed => Err(Status::ReadFault),
        FileAnswer::OutOfMemory => Err(Status::OutOfMemory),
    }
}
