//! Streams of messages, cut at each byte.

ghost use Rattle.std.specs.Prelude.{◌≡◌, ◌+◌, ◌^◌, ◌<◌, ◌≤◌, OnOk, length};

use message_codec::{End, show};
use message_reader::*;
use share_base::{Octets, OutOfMemory, Reason};
use std::alloc::Global;
use std::process::Abort;
use std::test::*;

/// A stream, and what a reader gives of it: the shown messages, the offset of a frame that is there
/// in part, and the bad frame with its reason.
#[derive(Clone, Copy, Debug)]
struct Row<'a> {
    role: Role,
    stream: &'a [u8],
    shown: &'a [u8],
    pending: Option<u64>,
    bad: Option<(u64, Reason)>,
}

fn good<'a>(role: Role, stream: &'a [u8], shown: &'a [u8]) -> Row<'a> {
    Row {
        role,
        stream,
        shown,
        pending: None,
        bad: None,
    }
}

fn partial<'a>(role: Role, stream: &'a [u8], shown: &'a [u8], place: u64) -> Row<'a> {
    Row {
        role,
        stream,
        shown,
        pending: Some(place),
        bad: None,
    }
}

fn refused<'a>(
    role: Role,
    stream: &'a [u8],
    shown: &'a [u8],
    place: u64,
    reason: Reason,
) -> Row<'a> {
    Row {
        role,
        stream,
        shown,
        pending: None,
        bad: Some((place, reason)),
    }
}

const ANSWER: &[u8] = b"\0\0\0\x12Synergy\0\x01\0\x06\0\0\0\x03pad";

const ANSWER_AND_NOOP: &[u8] = b"\0\0\0\x12Synergy\0\x01\0\x06\0\0\0\x03pad\0\0\0\x04CNOP";

const TWO_ANSWERS: &[u8] =
    b"\0\0\0\x12Synergy\0\x01\0\x06\0\0\0\x03pad\0\0\0\x12Synergy\0\x01\0\x06\0\0\0\x03pad";

const HELLO_AND_QUERY: &[u8] = b"\0\0\0\x0bSynergy\0\x01\0\x06\0\0\0\x04QINF";

const TWO_HELLOS: &[u8] =
    b"\0\0\0\x0bSynergy\0\x01\0\x06\0\0\0\x0bSynergy\0\x01\0\x06\0\0\0\x04CBYE";

fn rows() -> [Row<'static>; 16] {
    [
        good(Role::Server, ANSWER_AND_NOOP, b"Synergy 1 6 706164\nCNOP\n"),
        refused(Role::Server, b"\0\0\0\x04CNOP", b"", 0, Reason::State),
        refused(
            Role::Server,
            TWO_ANSWERS,
            b"Synergy 1 6 706164\n",
            22,
            Reason::State,
        ),
        refused(Role::Server, b"\0\0\x04\x01", b"", 0, Reason::TooLong),
        partial(Role::Server, b"\0\0\x04\0", b"", 0),
        refused(
            Role::Server,
            b"\0\0\0\x12Synergy\0\x01\0\x06\0\0\0\x03pad\0\x40\0\x01",
            b"Synergy 1 6 706164\n",
            22,
            Reason::TooLong,
        ),
        partial(
            Role::Server,
            b"\0\0\0\x12Synergy\0\x01\0\x06\0\0\0\x03pad\0\x40\0\0",
            b"Synergy 1 6 706164\n",
            22,
        ),
        good(Role::Client, HELLO_AND_QUERY, b"Synergy 1 6\nQINF\n"),
        good(Role::Client, b"\0\0\0\x04EBSY", b"EBSY\n"),
        refused(Role::Client, b"\0\0\0\x04QINF", b"", 0, Reason::State),
        refused(
            Role::Client,
            TWO_HELLOS,
            b"Synergy 1 6\n",
            15,
            Reason::State,
        ),
        refused(Role::Client, ANSWER, b"", 0, Reason::Trailing),
        good(
            Role::Observer(End::Server),
            TWO_HELLOS,
            b"Synergy 1 6\nSynergy 1 6\nCBYE\n",
        ),
        refused(
            Role::Observer(End::Client),
            b"\0\0\0\x04CNOP\0\0\0\x04COUT\0\0\0\x04CNOP",
            b"CNOP\n",
            8,
            Reason::End,
        ),
        partial(
            Role::Observer(End::Server),
            b"\0\0\0\x04COUT\0\0\0\x04CB",
            b"COUT\n",
            8,
        ),
        good(Role::Observer(End::Server), b"", b""),
    ]
}

/// Feeds one piece and asks until no message is left.
fn read_piece(
    reader: &mut MessageReader,
    piece: &[u8],
    shown: &mut Octets,
) -> Result<Option<BadFrame>, OutOfMemory>
    requires { reader.old.total + length piece.now < 2 ^ 63 }
    ensures { OnOk result (reader.new.total ≡ reader.old.total + length piece.now) }
{
    reader.feed(piece)?;
    loop {
        match reader.next()? {
            ReadStep::Message { place: _, msg } => {
                show(&msg, shown)?;
                shown.push(b'\n')?;
            }
            ReadStep::More => return Ok(None),
            ReadStep::Bad(bad) => return Ok(Some(bad)),
        }
    }
}

/// Reads the stream in two pieces.
fn reads(rt: &impl Abort, alloc: Global, row: &Row, cut: usize) -> Result<(), OutOfMemory>
    requires cut { cut ≤ length row.now.stream.now }
    requires short { length row.now.stream.now < 2 ^ 62 }
{
    let mut reader = MessageReader::new(alloc, row.role);
    let mut shown = Octets::new(alloc);
    let _ = read_piece(&mut reader, &row.stream[..cut], &mut shown)?;
    let bad = read_piece(&mut reader, &row.stream[cut..], &mut shown)?;
    let want = row.bad.map(|(place, reason)| BadFrame { place, reason });
    assert_eq!(rt; shown.as_slice(), row.shown, "{row:?} cut at {cut}");
    assert!(rt; bad == want, "{row:?} cut at {cut}");
    assert!(rt; reader.pending() == row.pending, "{row:?} cut at {cut}");
    Ok(())
}

#[test]
fn streams_have_one_reading_wherever_they_are_cut(rt: HostRuntime) -> Result<(), Fail> {
    for row in rows() {
        if row.stream.len() > 1000 {
            continue;
        }
        for cut in 0..row.stream.len() + 1 {
            reads(&rt, rt.alloc(), &row, cut)?;
        }
    }
    Ok(())
}
