//! Clipboards: their frames, the answer to each part, and the book of who has which.

ghost use Rattle.std.specs.Prelude.{◌≤◌, ◌<◌, length};

use clip_chunks::*;
use message_codec::ClipMark::{self, Chunk, End, Start};
use share_base::{ClipId, Octets, OutOfMemory, ScreenNo, ScreenSet};
use std::process::Abort;
use std::test::*;

/// What a part is answered.
#[derive(Clone, Copy, Debug, PartialEq, Eq)]
enum Want<'a> {
    Started,
    Going,
    Whole(&'a [u8]),
    Dropped(Cause),
}

/// The parts given to one assembly of at most 100 bytes, each with its sequence and its answer.
const PARTS: [(ClipMark, u32, &[u8], Want); 48] = [
    (End, 7, b"", Want::Dropped(Cause::NoStart)),
    // Fewer bytes than said, and more.
    (Start, 7, b"10", Want::Started),
    (Chunk, 7, b"abcdefghi", Want::Going),
    (
        End,
        7,
        b"",
        Want::Dropped(Cause::Mismatch { size: 10, got: 9 }),
    ),
    (Start, 7, b"10", Want::Started),
    (
        Chunk,
        7,
        b"abcdefghijk",
        Want::Dropped(Cause::Over { size: 10, got: 11 }),
    ),
    (End, 7, b"", Want::Dropped(Cause::NoStart)),
    (Start, 7, b"3", Want::Started),
    (Chunk, 7, b"ab", Want::Going),
    (
        Chunk,
        7,
        b"cd",
        Want::Dropped(Cause::Over { size: 3, got: 4 }),
    ),
    // Sizes.
    (
        Start,
        7,
        b"101",
        Want::Dropped(Cause::TooLarge { size: 101 }),
    ),
    (
        Start,
        7,
        b"9999999999",
        Want::Dropped(Cause::TooLarge {
            size: 9_999_999_999,
        }),
    ),
    (Start, 7, b"1x", Want::Dropped(Cause::BadSize)),
    (Start, 7, b"", Want::Dropped(Cause::BadSize)),
    (Start, 7, b"+1", Want::Dropped(Cause::BadSize)),
    (Start, 7, b"00000000003", Want::Dropped(Cause::BadSize)),
    (Start, 7, b"100", Want::Started),
    (Start, 7, b"0", Want::Started),
    (End, 7, b"", Want::Whole(b"")),
    (Start, 7, b"0000000003", Want::Started),
    (Chunk, 7, b"abc", Want::Going),
    (End, 7, b"", Want::Whole(b"abc")),
    // After an end nothing is going. The bytes of an end are ignored.
    (Chunk, 7, b"", Want::Dropped(Cause::NoStart)),
    (Start, 7, b"3", Want::Started),
    (Chunk, 7, b"a", Want::Going),
    (Chunk, 7, b"", Want::Going),
    (Chunk, 7, b"bc", Want::Going),
    (End, 7, b"zz", Want::Whole(b"abc")),
    (End, 7, b"", Want::Dropped(Cause::NoStart)),
    // A start replaces what is going, a bad one too.
    (Start, 7, b"5", Want::Started),
    (Chunk, 7, b"ab", Want::Going),
    (Start, 8, b"3", Want::Started),
    (Chunk, 8, b"abc", Want::Going),
    (End, 8, b"", Want::Whole(b"abc")),
    (Start, 7, b"3", Want::Started),
    (Chunk, 7, b"abc", Want::Going),
    (Start, 7, b"x", Want::Dropped(Cause::BadSize)),
    (End, 7, b"", Want::Dropped(Cause::NoStart)),
    // Sequences; the change of one is named before a wrong size.
    (Start, 7, b"2", Want::Started),
    (
        Chunk,
        8,
        b"ab",
        Want::Dropped(Cause::SeqChanged { kept: 7, given: 8 }),
    ),
    (Chunk, 7, b"ab", Want::Dropped(Cause::NoStart)),
    (Start, 7, b"2", Want::Started),
    (Chunk, 7, b"ab", Want::Going),
    (
        End,
        6,
        b"",
        Want::Dropped(Cause::SeqChanged { kept: 7, given: 6 }),
    ),
    (Start, 7, b"1", Want::Started),
    (
        Chunk,
        8,
        b"ab",
        Want::Dropped(Cause::SeqChanged { kept: 7, given: 8 }),
    ),
    (Start, 7, b"1", Want::Started),
    (
        End,
        8,
        b"",
        Want::Dropped(Cause::SeqChanged { kept: 7, given: 8 }),
    ),
];

fn is_wanted(took: &Took, want: Want<'_>) -> bool {
    match (took, want) {
        (Took::Started, Want::Started) => true,
        (Took::Going, Want::Going) => true,
        (Took::Whole(bytes), Want::Whole(wanted)) => bytes.as_slice() == wanted,
        (Took::Dropped(cause), Want::Dropped(wanted)) => *cause == wanted,
        _ => false,
    }
}

#[test]
fn each_part_has_its_answer(rt: HostRuntime) -> Result<(), Fail> {
    let mut assembly = Assembly::new(rt.alloc(), 100);
    for (row, (mark, seq, bytes, want)) in PARTS.iter().enumerate() {
        let took = assembly.take(*seq, *mark, bytes)?;
        assert!(rt; is_wanted(&took, *want), "row {row}");
    }
    Ok(())
}

/// How many bytes, the frame of the start, and the frames of the chunks before their bytes, with
/// how many bytes each has.
const CUTS: [(usize, &[u8], &[(&[u8], usize)]); 4] = [
    (0, b"\0\0\0\x0fDCLP\x01\0\0\x01\x02\x01\0\0\0\x010", &[]),
    (
        3,
        b"\0\0\0\x0fDCLP\x01\0\0\x01\x02\x01\0\0\0\x013",
        &[(b"\0\0\0\x11DCLP\x01\0\0\x01\x02\x02\0\0\0\x03", 3)],
    ),
    (
        32_768,
        b"\0\0\0\x13DCLP\x01\0\0\x01\x02\x01\0\0\0\x0532768",
        &[(b"\0\0\x80\x0eDCLP\x01\0\0\x01\x02\x02\0\0\x80\0", 32_768)],
    ),
    (
        32_769,
        b"\0\0\0\x13DCLP\x01\0\0\x01\x02\x01\0\0\0\x0532769",
        &[
            (b"\0\0\x80\x0eDCLP\x01\0\0\x01\x02\x02\0\0\x80\0", 32_768),
            (b"\0\0\0\x0fDCLP\x01\0\0\x01\x02\x02\0\0\0\x01", 1),
        ],
    ),
];

const END: &[u8] = b"\0\0\0\x0eDCLP\x01\0\0\x01\x02\x03\0\0\0\0";

#[test]
fn bytes_are_cut_at_full_chunks(rt: HostRuntime) -> Result<(), Fail> {
    let mut all = [7; 32_769];
    all[32_767] = 8;
    all[32_768] = 9;
    for (count, start, chunks) in CUTS {
        let bytes = &all[..count.min(32_769)];
        let mut frames = Octets::new(rt.alloc());
        frames_of(ClipId::Selection, 258, bytes, &mut frames)?;
        let mut want = Octets::new(rt.alloc());
        want.extend(start)?;
        let mut rest = bytes;
        for (header, len) in chunks {
            let (chunk, later) = rest.split_at(rest.len().min(*len));
            want.extend(header)?;
            want.extend(chunk)?;
            rest = later;
        }
        want.extend(END)?;
        assert!(rt; frames.as_slice() == want.as_slice(), "{count} bytes");
    }
    Ok(())
}

/// A call on a book, and its answer.
#[derive(Clone, Copy, Debug)]
enum Step<'a> {
    Copies(&'a [u8], bool),
    Grabs(u16, u32, bool),
    Sends(u16, u32, &'a [u8], bool),
    Joins(u16),
    Leaves(u16),
    Enters(u16, Option<&'a [u8]>),
}

/// The calls on one book of at most 10 bytes, for the first clipboard. The primary is 0, the
/// screens 0 to 2 are joined, and the machine's sequence is 2.
const STEPS: [Step; 32] = [
    Step::Enters(1, None),
    Step::Sends(1, 1, b"no", false),
    Step::Grabs(1, 1, true),
    Step::Sends(2, 1, b"no", false),
    Step::Sends(1, 0, b"no", false),
    Step::Sends(1, 3, b"no", false),
    Step::Sends(1, 1, b"x", true),
    Step::Enters(1, None),
    Step::Enters(0, Some(b"x")),
    Step::Enters(0, None),
    Step::Grabs(1, 0, false),
    Step::Grabs(1, 3, false),
    // What an owner leaves is the primary's, as it was.
    Step::Leaves(1),
    Step::Sends(1, 2, b"no", false),
    Step::Enters(2, Some(b"x")),
    Step::Enters(0, None),
    Step::Joins(1),
    Step::Enters(1, Some(b"x")),
    Step::Enters(1, None),
    Step::Copies(b"ab", true),
    Step::Enters(0, None),
    Step::Enters(1, Some(b"ab")),
    // A grab makes the bytes unknown, and a screen that joins isn't dirty for them.
    Step::Grabs(1, 2, true),
    Step::Enters(2, None),
    Step::Joins(2),
    Step::Enters(2, None),
    // An empty clipboard is known.
    Step::Copies(b"01234567890", false),
    Step::Copies(b"", true),
    Step::Grabs(2, 1, false),
    Step::Enters(2, Some(b"")),
    Step::Copies(b"0123456789", true),
    Step::Enters(2, Some(b"0123456789")),
];

/// A screen of a row, which is below 64.
fn screen(no: u16) -> ScreenNo
    ensures { result.0 < 64 }
{
    ScreenNo(no % 64)
}

/// The bytes of a row, which are at most 16.
fn short(bytes: &[u8]) -> &[u8]
    ensures { length result.now ≤ 16 }
{
    &bytes[..bytes.len().min(16)]
}

fn plays(
    rt: &impl Abort,
    book: &mut ClipBook,
    joined: &ScreenSet,
    step: Step<'_>,
) -> Result<(), OutOfMemory> {
    let clip = ClipId::Clipboard;
    match step {
        Step::Copies(bytes, counts) => {
            assert!(rt; book.copied(clip, bytes, 2, joined)? == counts);
        }
        Step::Grabs(by, given, counts) => {
            assert!(rt; book.grabbed(clip, screen(by), given, 2) == counts);
        }
        Step::Sends(by, given, bytes, counts) => {
            let counted = book.whole(clip, screen(by), given, 2, short(bytes), joined)?;
            assert!(rt; counted == counts);
        }
        Step::Joins(no) => book.joined(screen(no)),
        Step::Leaves(no) => book.left(screen(no)),
        Step::Enters(no, gives) => assert!(rt; book.entered(clip, screen(no)) == gives),
    }
    Ok(())
}

#[test]
fn each_call_on_a_book_has_its_answer(rt: HostRuntime) -> Result<(), Fail> {
    let mut joined = ScreenSet::new();
    for no in 0..3u16 {
        joined.insert(ScreenNo(no));
    }
    let mut book = ClipBook::new(rt.alloc(), ScreenNo(0), 10);
    for step in STEPS {
        plays(&rt, &mut book, &joined, step)?;
    }
    assert!(rt; book.entered(ClipId::Selection, ScreenNo(1)) == None);
    Ok(())
}
