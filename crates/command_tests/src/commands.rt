//! The commands, on streams in memory.

use client_core::{LostCause, Which};
use message_codec::End;
use share_base::{MemoryFiles, MemorySink, MemorySource, OutOfMemory, Reason};
use share_commands::*;
use std::alloc::Global;
use std::test::*;

const ENTER: [u8; 18] = *b"\x00\x00\x00\x0eCINN\x00\x00\x01\x80\x00\x00\x00\x01\x00\x00";

const LEAVE: [u8; 8] = *b"\x00\x00\x00\x04COUT";

const KEY: [u8; 14] = *b"\x00\x00\x00\x0aDKDN\x00\x61\x00\x00\x00\x26";

const BUTTON: [u8; 9] = *b"\x00\x00\x00\x05DMDN\x03";

const BYE: [u8; 8] = *b"\x00\x00\x00\x04CBYE";

const CLIPBOARD: [u8; 19] = *b"\x00\x00\x00\x0fDCLP\x00\x00\x00\x00\x00\x01\x00\x00\x00\x015";

const KEY_UP: [u8; 14] = *b"\x00\x00\x00\x0aDKUP\x00\x61\x00\x00\x00\x26";

const INFO: [u8; 22] =
    *b"\x00\x00\x00\x12DINF\x00\x00\x00\x00\x04\x00\x03\x00\x00\x00\x02\x00\x01\x80";

const HELLO: [u8; 22] = *b"\x00\x00\x00\x12Synergy\x00\x01\x00\x06\x00\x00\x00\x03pad";

const TOO_LONG: [u8; 4] = *b"\x00\x40\x00\x01";

/// Whose messages are shown, or that a server's are injected; what is read; at which calls the sink
/// fails; and what must come of it.
#[derive(Drop)]
struct Row<'a> {
    shows: Option<End>,
    parts: &'a [&'a [u8]],
    failing: &'a [u64],
    lines: &'a [u8],
    status: Status,
}

fn passes(alloc: Global, row: &Row) -> Result<bool, OutOfMemory> {
    let mut bytes = Vec::new(alloc);
    for part in row.parts {
        bytes.extend_from_slice(part)?;
    }
    let mut input = MemorySource::new(alloc, &bytes, &[])?;
    let mut out = MemorySink::new(alloc, 1000, row.failing)?;
    let status = match row.shows {
        None => run_inject(alloc, &mut input, &mut out),
        Some(end) => run_show(alloc, end, &mut input, &mut out),
    };
    Ok(status == row.status && out.bytes() == row.lines)
}

#[test]
fn injection_ends_as_its_server_does(rt: HostRuntime) {
    let rows = [
        Row {
            shows: None,
            parts: &[],
            failing: &[],
            lines: b"",
            status: Status::Lost(LostCause::Ended),
        },
        Row {
            shows: None,
            parts: &[&BYE, &[255; 4]],
            failing: &[],
            lines: b"",
            status: Status::Ok,
        },
        Row {
            shows: None,
            parts: &[&ENTER, &CLIPBOARD],
            failing: &[],
            lines: b"enter 0 384 1 0\n",
            status: Status::Lost(LostCause::Ended),
        },
        Row {
            shows: None,
            parts: &[&ENTER, &[0, 0]],
            failing: &[],
            lines: b"enter 0 384 1 0\n",
            status: Status::BadFrames {
                place: 18,
                reason: Reason::Cut,
            },
        },
        Row {
            shows: None,
            parts: &[&ENTER, &TOO_LONG],
            failing: &[],
            lines: b"enter 0 384 1 0\n",
            status: Status::BadFrames {
                place: 18,
                reason: Reason::TooLong,
            },
        },
    ];
    for row in &rows {
        assert_eq!(rt; passes(rt.alloc(), row), Ok(true));
    }
}

#[test]
fn injection_lets_go_at_every_end(rt: HostRuntime) {
    let rows = [
        Row {
            shows: None,
            parts: &[&ENTER, &KEY, &BUTTON, &LEAVE, &BYE],
            failing: &[],
            lines: b"enter 0 384 1 0\nkey down 97 38 0\nbutton down 3\nkey up 97 38\nbutton up 3\n\
            leave\n",
            status: Status::Ok,
        },
        Row {
            shows: None,
            parts: &[&ENTER, &KEY, &BUTTON],
            failing: &[],
            lines: b"enter 0 384 1 0\nkey down 97 38 0\nbutton down 3\nkey up 97 38\nbutton up 3\n",
            status: Status::Lost(LostCause::Ended),
        },
        Row {
            shows: None,
            parts: &[&ENTER, &KEY, &KEY_UP[..13]],
            failing: &[],
            lines: b"enter 0 384 1 0\nkey down 97 38 0\nkey up 97 38\n",
            status: Status::BadFrames {
                place: 32,
                reason: Reason::Cut,
            },
        },
        Row {
            shows: None,
            parts: &[&ENTER, &KEY, &BUTTON],
            failing: &[1],
            lines: b"",
            status: Status::WriteFault,
        },
        Row {
            shows: None,
            parts: &[&ENTER, &KEY, &BUTTON],
            failing: &[2],
            lines: b"enter 0 384 1 0\nkey down 97 38 0\nbutton down 3\n",
            status: Status::WriteFault,
        },
    ];
    for row in &rows {
        assert_eq!(rt; passes(rt.alloc(), row), Ok(true));
    }
}

#[test]
fn injection_lets_go_at_refusals(rt: HostRuntime) {
    let rows = [
        Row {
            shows: None,
            parts: &[&KEY, b"\x00\x00\x00\x04EBSY"],
            failing: &[],
            lines: b"key down 97 38 0\nkey up 97 38\n",
            status: Status::Refused(Which::Ebsy),
        },
        Row {
            shows: None,
            parts: &[&KEY, b"\x00\x00\x00\x04EUNK"],
            failing: &[],
            lines: b"key down 97 38 0\nkey up 97 38\n",
            status: Status::Refused(Which::Eunk),
        },
        Row {
            shows: None,
            parts: &[&KEY, b"\x00\x00\x00\x04EBAD"],
            failing: &[],
            lines: b"key down 97 38 0\nkey up 97 38\n",
            status: Status::Refused(Which::Ebad),
        },
        Row {
            shows: None,
            parts: &[&KEY, b"\x00\x00\x00\x08EICV\x00\x01\x00\x06"],
            failing: &[],
            lines: b"key down 97 38 0\nkey up 97 38\n",
            status: Status::Refused(Which::Eicv),
        },
        Row {
            shows: None,
            parts: &[&KEY, &TOO_LONG],
            failing: &[],
            lines: b"key down 97 38 0\nkey up 97 38\n",
            status: Status::BadFrames {
                place: 14,
                reason: Reason::TooLong,
            },
        },
        Row {
            shows: None,
            parts: &[&KEY, b"\x00\x00\x00\x04WHAT"],
            failing: &[],
            lines: b"key down 97 38 0\nkey up 97 38\n",
            status: Status::BadFrames {
                place: 14,
                reason: Reason::Code,
            },
        },
    ];
    for row in &rows {
        assert_eq!(rt; passes(rt.alloc(), row), Ok(true));
    }
}

#[test]
fn messages_are_shown_in_order(rt: HostRuntime) {
    let rows = [
        Row {
            shows: Some(End::Server),
            parts: &[],
            failing: &[],
            lines: b"",
            status: Status::Ok,
        },
        Row {
            shows: Some(End::Client),
            parts: &[&HELLO, &TOO_LONG],
            failing: &[],
            lines: b"Synergy 1 6 706164\n",
            status: Status::BadFrames {
                place: 22,
                reason: Reason::TooLong,
            },
        },
        Row {
            shows: Some(End::Client),
            parts: &[&HELLO, &INFO],
            failing: &[],
            lines: b"Synergy 1 6 706164\nDINF 0 0 1024 768 0 512 384\n",
            status: Status::Ok,
        },
        Row {
            shows: Some(End::Server),
            parts: &[&LEAVE, &BYE, &LEAVE],
            failing: &[],
            lines: b"COUT\nCBYE\nCOUT\n",
            status: Status::Ok,
        },
        Row {
            shows: Some(End::Server),
            parts: &[&LEAVE, &[0, 0, 0, 4, b'C']],
            failing: &[],
            lines: b"COUT\n",
            status: Status::BadFrames {
                place: 8,
                reason: Reason::Cut,
            },
        },
        Row {
            shows: Some(End::Client),
            parts: &[&ENTER],
            failing: &[],
            lines: b"",
            status: Status::BadFrames {
                place: 0,
                reason: Reason::End,
            },
        },
        Row {
            shows: Some(End::Server),
            parts: &[&LEAVE],
            failing: &[1],
            lines: b"",
            status: Status::WriteFault,
        },
    ];
    for row in &rows {
        assert_eq!(rt; passes(rt.alloc(), row), Ok(true));
    }
}

#[test]
fn a_failed_read_keeps_the_lines(rt: HostRuntime) -> Result<(), Fail> {
    let mut input = MemorySource::new(rt.alloc(), &KEY, &[2])?;
    let mut out = MemorySink::new(rt.alloc(), 1000, &[])?;
    let status = run_inject(rt.alloc(), &mut input, &mut out);
    assert_eq!(rt; status, Status::ReadFault);
    assert_eq!(rt; out.bytes(), b"key down 97 38 0\nkey up 97 38\n".as_slice());
    Ok(())
}

#[test]
fn statuses_have_a_code_and_a_line(rt: HostRuntime) {
    let bad = Status::BadFrames {
        place: 22,
        reason: Reason::TooLong,
    };
    assert_eq!(rt; bad.code(), 1);
    assert_eq!(rt; bad.report().as_slice(), b"frames 22 toolong\n".as_slice());
    let lost = Status::Lost(LostCause::Ended);
    assert_eq!(rt; lost.code(), 9);
    assert_eq!(rt; lost.report().as_slice(), b"lost ended\n".as_slice());
    assert_eq!(rt; Status::Ok.report().as_slice(), b"".as_slice());
}
