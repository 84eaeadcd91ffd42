//! One read and one write of a stream that does not wait.

ghost use Rattle.std.specs.Prelude.{◌≢◌, ◌<◌, length};
ghost use Rattle.hub_acts.specs.Hubs.{FitsRead, FitsWrite};
ghost use Rattle.hub_acts.specs.declared.answers.ReadAnswer.TheVariants.{OutOfMemory as ReadOutOfMemory};
ghost use Rattle.hub_acts.specs.declared.answers.WriteAnswer.TheVariants.{OutOfMemory as WriteOutOfMemory};

use hub_acts::{ReadAnswer, WriteAnswer};
use std::io::{ErrorKind, Read, Write};

/// The most reads that empty a stream before it is closed.
const MOST_LAST_READS: usize = 64;

/// Reads into the front of `buf`, which is not empty. A read that a signal interrupted is made again.
pub(crate) fn read_some<R: Read>(stream: &mut R, buf: &mut [u8]) -> ReadAnswer
    requires { 0 < length buf.old }
    ensures fits { FitsRead result (length buf.old) }
    ensures memory { result ≢ ReadOutOfMemory }
{
    for _ in 0..u64::MAX {
        match stream.read(buf) {
            Ok(0) => return ReadAnswer::End,
            Ok(n) => return ReadAnswer::Got(n),
            Err(error) => match error.kind() {
                ErrorKind::Interrupted => {}
                ErrorKind::WouldBlock => return ReadAnswer::NotNow,
                _ => return ReadAnswer::Failed,
            },
        }
    }
    ReadAnswer::Failed
}

/// Writes a front of `bytes`, which are not empty. A write that a signal interrupted is made again, and
/// one that takes nothing has failed.
pub(crate) fn write_some<W: Write>(stream: &mut W, bytes: &[u8]) -> WriteAnswer
    requires { 0 < length bytes.now }
    ensures fits { FitsWrite result (length bytes.now) }
    ensures memory { result ≢ WriteOutOfMemory }
{
    for _ in 0..u64::MAX {
        match stream.write(bytes) {
            Ok(0) => return WriteAnswer::Failed,
            Ok(n) => return WriteAnswer::Took(n),
            Err(error) => match error.kind() {
                ErrorKind::Interrupted => {}
                ErrorKind::WouldBlock => return WriteAnswer::NotNow,
                _ => return WriteAnswer::Failed,
            },
        }
    }
    WriteAnswer::Failed
}

/// Reads what has come, up to a bound, and drops it.
///
/// A socket that is closed while bytes wait in it resets the connection, and then the peer may lose the
/// last bytes that were written to it.
pub(crate) fn discard_unread<R: Read>(stream: &mut R) {
    let mut bytes = [0u8; 1024];
    for _ in 0..MOST_LAST_READS {
        match stream.read(&mut bytes) {
            Ok(n) if n > 0 => {}
            _ => return,
        }
    }
}
