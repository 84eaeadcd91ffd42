//! Streams, and what a client that only injects prints of them.

ghost use Rattle.std.specs.Prelude.{◌^◌, ◌<◌, ◌≤◌, length};

use client_core::*;
use share_base::{OutOfMemory, Reason};
use std::alloc::Global;
use std::process::Abort;
use std::test::*;

/// A stream, what is printed of it, what the end adds, how the stream ends the client, and the
/// offset of a frame that is there in part.
type Row = (
    &'static [u8],
    &'static [u8],
    &'static [u8],
    Option<ClientEnd>,
    Option<u64>,
);

const ROWS: [Row; 12] = [
    // All goes up before the cursor leaves, and at the end.
    (
        b"\0\0\0\x0eCINN\0\0\x01\x80\0\0\0\x01\0\0\0\0\0\x0aDKDN\0\x61\0\0\0\x26\0\0\0\x05DMDN\x03\0\0\0\x04COUT\0\0\0\x04CBYE",
        b"enter 0 384 1 0\nkey down 97 38 0\nbutton down 3\nkey up 97 38\nbutton up 3\nleave\n",
        b"",
        Some(ClientEnd::Bye),
        None,
    ),
    (
        b"\0\0\0\x0eCINN\0\0\x01\x80\0\0\0\x01\0\0\0\0\0\x0aDKDN\0\x61\0\0\0\x26\0\0\0\x05DMDN\x03",
        b"enter 0 384 1 0\nkey down 97 38 0\nbutton down 3\n",
        b"key up 97 38\nbutton up 3\n",
        None,
        None,
    ),
    // A key goes up wherever its last frame is cut.
    (
        b"\0\0\0\x0aDKDN\0\x61\0\0\0\x26\0",
        b"key down 97 38 0\n",
        b"key up 97 38\n",
        None,
        Some(14),
    ),
    (
        b"\0\0\0\x0aDKDN\0\x61\0\0\0\x26\0\0\0\x0aDKUP\0\x61\0\0\0",
        b"key down 97 38 0\n",
        b"key up 97 38\n",
        None,
        Some(14),
    ),
    (
        b"\0\0\0\x0aDKDN\0\x61\0\0\0\x26\0\0\0\x0aDKUP\0\x61\0\0\0\x26",
        b"key down 97 38 0\nkey up 97 38\n",
        b"",
        None,
        None,
    ),
    // A key that is down repeats, and one that is up prints nothing.
    (
        b"\0\0\0\x0aDKUP\0\x61\0\0\0\x26\0\0\0\x0aDKDN\0\x61\0\0\0\x26\0\0\0\x0aDKDN\0\x61\0\0\0\x26",
        b"key down 97 38 0\nkey rep 97 1 38 0\n",
        b"key up 97 38\n",
        None,
        None,
    ),
    // Shift counts as control.
    (
        b"\0\0\0\x04CROP\0\0\0\x10DSOP\0\0\0\x02MMFS\0\0\0\x02\0\0\0\x0aDKDN\xef\xe1\0\0\0\x32\0\0\0\x0aDKDN\0\x61\0\x01\0\x26",
        b"reset options\noption 4d4d4653 2\nkey down 61411 50 0\nkey down 97 38 2\n",
        b"key up 97 38\nkey up 61411 50\n",
        None,
        None,
    ),
    // Parts of a clipboard print nothing until it is whole.
    (
        b"\0\0\0\x09CCLP\x01\0\0\0\0\0\0\0\x0fDCLP\0\0\0\0\0\x01\0\0\0\x015\0\0\0\x04COUT",
        b"grab 1\nleave\n",
        b"",
        None,
        None,
    ),
    (
        b"\0\0\0\x04COUT\0\0\0\x05CBYE\0",
        b"leave\n",
        b"",
        Some(ClientEnd::BadPeer {
            place: 8,
            reason: Reason::Trailing,
        }),
        None,
    ),
    (
        b"\0\0\0\x04EUNK\0\0\0\x05CBYE\0",
        b"",
        b"",
        Some(ClientEnd::Refused(Which::Eunk)),
        None,
    ),
    // A hello and a question do nothing in the client of injection, wherever they stand.
    (
        b"\0\0\0\x04CIAK\0\0\0\x0bSynergy\0\x01\0\x07\0\0\0\x04QINF\0\0\0\x04CALV",
        b"",
        b"",
        None,
        None,
    ),
    (b"", b"", b"", None, None),
];

// The stream in two pieces.
fn runs(rt: &impl Abort, alloc: Global, row: &Row, cut: usize) -> Result<(), OutOfMemory>
    requires cut { cut ≤ length row.now.0.now }
    requires short { length row.now.0.now < 2 ^ 62 }
{
    let (stream, lines, last, done, pending) = *row;
    let mut core = ClientCore::injecting(alloc);
    core.bytes(&stream[..cut])?;
    core.bytes(&stream[cut..])?;
    assert_eq!(rt; core.lines(), lines, "cut at {cut}");
    assert!(rt; core.done() == done, "cut at {cut}");
    assert!(rt; core.pending() == pending, "cut at {cut}");
    let ups = core.ended(ClientEnd::Lost(LostCause::Ended));
    assert_eq!(rt; ups.as_slice(), last, "cut at {cut}");
    core.clear_lines();
    assert!(rt; core.lines().is_empty());
    Ok(())
}

#[test]
fn streams_print_the_same_wherever_they_are_cut(rt: HostRuntime) -> Result<(), Fail> {
    for row in &ROWS {
        if row.0.len() > 1000 {
            continue;
        }
        for cut in 0..row.0.len() + 1 {
            runs(&rt, rt.alloc(), row, cut)?;
        }
    }
    Ok(())
}
