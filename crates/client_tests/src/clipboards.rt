//! Clipboards that a client prints: whole ones, and no others.

ghost use Rattle.std.specs.Prelude.{◌^◌, ◌<◌, ◌≤◌, length};

use client_core::*;
use share_base::OutOfMemory;
use std::alloc::Global;
use std::process::Abort;
use std::test::*;

/// A server's stream, and what an injecting client prints of it.
const STREAMS: [(&[u8], &[u8]); 5] = [
    // A clipboard in one chunk, in two, and an empty one.
    (
        b"\0\0\0\x0fDCLP\0\0\0\0\x07\x01\0\0\0\x015\0\0\0\x13DCLP\0\0\0\0\x07\x02\0\0\0\x05Hello\0\0\0\x0eDCLP\0\0\0\0\x07\x03\0\0\0\0\0\0\0\x10DCLP\x01\0\0\0\x07\x01\0\0\0\x0205\0\0\0\x11DCLP\x01\0\0\0\x07\x02\0\0\0\x03Hel\0\0\0\x0eDCLP\x01\0\0\0\x07\x02\0\0\0\0\0\0\0\x10DCLP\x01\0\0\0\x07\x02\0\0\0\x02lo\0\0\0\x10DCLP\x01\0\0\0\x07\x03\0\0\0\x02zz\0\0\0\x0fDCLP\0\0\0\0\0\x01\0\0\0\x010\0\0\0\x0eDCLP\0\0\0\0\0\x03\0\0\0\0",
        b"clip 0 48656c6c6f\nclip 1 48656c6c6f\nclip 0 -\n",
    ),
    // Both at once: the order is that of their ends. Nothing between the parts counts.
    (
        b"\0\0\0\x0fDCLP\0\0\0\0\x01\x01\0\0\0\x011\0\0\0\x0fDCLP\x01\0\0\0\x02\x01\0\0\0\x011\0\0\0\x0fDCLP\0\0\0\0\x01\x02\0\0\0\x01a\0\0\0\x04COUT\0\0\0\x0fDCLP\x01\0\0\0\x02\x02\0\0\0\x01b\0\0\0\x09CCLP\0\0\0\0\0\0\0\0\x0eDCLP\x01\0\0\0\x02\x03\0\0\0\0\0\0\0\x04CROP\0\0\0\x0eDCLP\0\0\0\0\x01\x03\0\0\0\0",
        b"leave\ngrab 0\nclip 1 62\nreset options\nclip 0 61\n",
    ),
    // A start that is dropped: no digits, too many of them, no digit, and a size above the limit;
    // what was going is dropped with it.
    (
        b"\0\0\0\x0eDCLP\0\0\0\0\x01\x01\0\0\0\0\0\0\0\x0eDCLP\0\0\0\0\x01\x03\0\0\0\0\0\0\0\x19DCLP\0\0\0\0\x01\x01\0\0\0\x0b00000000000\0\0\0\x0eDCLP\0\0\0\0\x01\x03\0\0\0\0\0\0\0\x0fDCLP\0\0\0\0\x01\x01\0\0\0\x010\0\0\0\x10DCLP\0\0\0\0\x01\x01\0\0\0\x021x\0\0\0\x0eDCLP\0\0\0\0\x01\x03\0\0\0\0\0\0\0\x15DCLP\0\0\0\0\x01\x01\0\0\0\x074194305\0\0\0\x0eDCLP\0\0\0\0\x01\x03\0\0\0\0",
        b"",
    ),
    // A chunk and an end without a start, and a changed sequence of either.
    (
        b"\0\0\0\x0eDCLP\0\0\0\0\x01\x02\0\0\0\0\0\0\0\x0eDCLP\0\0\0\0\x01\x03\0\0\0\0\0\0\0\x0fDCLP\0\0\0\0\x01\x01\0\0\0\x011\0\0\0\x0fDCLP\0\0\0\0\x02\x02\0\0\0\x01a\0\0\0\x0eDCLP\0\0\0\0\x01\x03\0\0\0\0\0\0\0\x0fDCLP\0\0\0\0\x01\x01\0\0\0\x010\0\0\0\x0eDCLP\0\0\0\0\x02\x03\0\0\0\0\0\0\0\x0eDCLP\0\0\0\0\x01\x03\0\0\0\0",
        b"",
    ),
    // More bytes than the start said, and fewer; then a whole.
    (
        b"\0\0\0\x0fDCLP\0\0\0\0\x01\x01\0\0\0\x011\0\0\0\x10DCLP\0\0\0\0\x01\x02\0\0\0\x02ab\0\0\0\x0eDCLP\0\0\0\0\x01\x03\0\0\0\0\0\0\0\x0fDCLP\0\0\0\0\x01\x01\0\0\0\x012\0\0\0\x0fDCLP\0\0\0\0\x01\x02\0\0\0\x01a\0\0\0\x0eDCLP\0\0\0\0\x01\x03\0\0\0\0\0\0\0\x0fDCLP\0\0\0\0\x01\x01\0\0\0\x012\0\0\0\x0fDCLP\0\0\0\0\x01\x01\0\0\0\x011\0\0\0\x0fDCLP\0\0\0\0\x01\x02\0\0\0\x01c\0\0\0\x0eDCLP\0\0\0\0\x01\x03\0\0\0\0\0\0\0\x04CBYE",
        b"clip 0 63\n",
    ),
];

// The stream in two pieces.
fn prints(
    rt: &impl Abort,
    alloc: Global,
    stream: &[u8],
    lines: &[u8],
    cut: usize,
) -> Result<(), OutOfMemory>
    requires cut { cut ≤ length stream.now }
    requires short { length stream.now < 2 ^ 62 }
{
    let mut core = ClientCore::injecting(alloc);
    core.bytes(&stream[..cut])?;
    core.bytes(&stream[cut..])?;
    assert_eq!(rt; core.lines(), lines, "cut at {cut}");
    Ok(())
}

#[test]
fn only_whole_clipboards_are_printed(rt: HostRuntime) -> Result<(), Fail> {
    for (stream, lines) in &STREAMS {
        if stream.len() > 1000 {
            continue;
        }
        for cut in 0..stream.len() + 1 {
            prints(&rt, rt.alloc(), stream, lines, cut)?;
        }
    }
    Ok(())
}
