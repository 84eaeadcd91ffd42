//! The commands that read a stream and print its messages.

ghost use Rattle.std.specs.Prelude.{◌≡◌, ◌<◌, [], None, length};
ghost use Rattle.share_base.specs.Told.{NotSet};
ghost use Rattle.share_base.specs.Reading.{FitsRead, Reads as ReadsOnce};
ghost use Rattle.message_codec.specs.Streams.{AreBytes};
ghost use Rattle.share_commands.specs.Ways.{showing, injecting};
ghost use Rattle.share_commands.specs.Cores.{FinishesCore};
ghost use Rattle.share_commands.specs.Commands.{Streams, Stops, Releases};
ghost use Rattle.share_commands.specs.Causes.{StreamCauses};

use crate::line_core::LineCore;
use crate::show_core::ShowCore;
use crate::status::Status;
use client_core::ClientCore;
use message_codec::End;
use share_base::{Sink, Source, SourceAnswer, write_all};
use std::alloc::Global;

/// How many bytes of input a command takes.
pub const INPUT_LIMIT: usize = 1_073_741_824;

/// Ends the command so: its last lines are written.
fn finish<C: LineCore, K: Sink>(core: &mut C, out: &mut K, end: Status) -> Status
    ensures { FinishesCore C.kept core.old end result (K.state out.old) (K.state out.new) }
{
    let lines = core.last_lines(end);
    if write_all(out, lines.as_slice()) {
        end
    } else {
        Status::WriteFault
    }
}

/// Reads once, as the source does: what stands in the buffer then are bytes.
fn read<S: Source>(input: &mut S, buf: &mut [u8]) -> SourceAnswer
    requires { 0 < length buf.old }
    ensures fits { FitsRead result (length buf.old) }
    ensures reads { ReadsOnce result buf.new (S.state input.old) (S.state input.new) }
    ensures bytes { AreBytes buf.new }
{
    input.read(buf)
}

fn run_over<C: LineCore + Drop, S: Source, K: Sink>(
    mut core: C,
    input: &mut S,
    out: &mut K,
) -> Status
    requires ended { NotSet (S.state input.old).ended }
    requires kept { C.kept core (C.way core) [] [] [] }
    requires empty { C.lines core ≡ [] }
    requires goes { C.done core ≡ None }
    ensures reads { Streams (C.way core) result S.Source input.old input.new
        K.Sink out.old out.new }
    ensures stops { Stops (C.way core) (S.state input.old) (S.state input.new) }
    ensures causes { StreamCauses result S.Source input.old input.new K.Sink out.old out.new }
{
    let mut buffer = [0u8; 4096];
    let mut total = 0;
    while total <= INPUT_LIMIT {
        match read(input, &mut buffer) {
            SourceAnswer::Failed => return finish(&mut core, out, Status::ReadFault),
            SourceAnswer::End => {
                let end = core.status_at_end();
                return finish(&mut core, out, end);
            }
            SourceAnswer::Got(n) => {
                let counted = n.min(INPUT_LIMIT - total);
                core.feed(&buffer[..counted]);
                if !write_all(out, core.printed()) {
                    return Status::WriteFault;
                }
                core.clear_printed();
                match core.status() {
                    Some(end) => return finish(&mut core, out, end),
                    None => total += n,
                }
            }
        }
    }
    finish(&mut core, out, Status::InputTooLong)
}

/// Reads frames of that end from `input`, and writes a show line for each message to `out`.
///
/// It ends as `Ok` where the input ends between frames; as `BadFrames` at the first bad frame, or
/// with the reason `cut` where the input ends inside one; as `InputTooLong` where a byte after the
/// first 1,073,741,824 was read. The lines of the messages before that are written, at `ReadFault`
/// too; at `WriteFault` a front of them is. No read is made once one answered the end, or once the
/// bytes read decide the end.
pub fn run_show<S: Source, K: Sink>(alloc: Global, end: End, input: &mut S, out: &mut K) -> Status
    requires { NotSet (S.state input.old).ended }
    ensures shows { Streams (showing end) result S.Source input.old input.new
        K.Sink out.old out.new }
    ensures stops { Stops (showing end) (S.state input.old) (S.state input.new) }
    ensures causes { StreamCauses result S.Source input.old input.new K.Sink out.old out.new }
{
    run_over(ShowCore::new(alloc, end), input, out)
}

/// Reads frames of a server from `input`, and writes the lines of a client that injects them to
/// `out`.
///
/// It ends as `Ok` at `CBYE`; as `Refused` at `EICV`, `EBSY`, `EUNK` or `EBAD`; as `BadFrames` at
/// the first bad frame, or with the reason `cut` where the input ends inside one; as `Lost(Ended)`
/// where the input ends between frames; as `InputTooLong` where a byte after the first
/// 1,073,741,824 was read. At each end, `ReadFault` and `OutOfMemory` too, the lines of the
/// messages before it are written, and then the ups of all that is down; at `WriteFault` a front of
/// these is. No read is made once one answered the end, or once the bytes read decide the end.
pub fn run_inject<S: Source, K: Sink>(alloc: Global, input: &mut S, out: &mut K) -> Status
    requires { NotSet (S.state input.old).ended }
    ensures injects { Streams injecting result S.Source input.old input.new K.Sink out.old out.new }
    ensures stops { Stops injecting (S.state input.old) (S.state input.new) }
    ensures released { Releases result (K.state out.old) (K.state out.new) }
    ensures causes { StreamCauses result S.Source input.old input.new K.Sink out.old out.new }
{
    run_over(ClientCore::injecting(alloc), input, out)
}
