//! The command `check`, on files in memory.

use config_text::ConfigKind;
use share_base::{MemoryFiles, MemorySink, MemorySource, OutOfMemory};
use share_commands::*;
use std::alloc::Global;
use std::test::*;

/// The normal form of no configuration, but for its last line.
const NOTHING: &[u8] =
    b"section: screens\nend\nsection: aliases\nend\nsection: links\nend\nsection: options\n";

const END: &[u8] = b"end\n";

/// Three desks, of which the last has an alias, in the order of their lines. Links name the alias,
/// and the normal form names the screen.
const SCREENS: &[u8] = b"section: screens\n\tdesk:\n\t\thalfDuplexCapsLock = false\n\
    \t\tswitchCorners = none +top-left\n\t\tswitchCornerSize = 20\n\tpad:\n\t\tshift = ctrl\n\
    \tlap.local:\nend\n";

const ALIASES: &[u8] = b"section: aliases\n\tlap.local:\n\t\tlap\nend\n";

const FIRST_LINK: &[u8] = b"section: links\n\tdesk:\n\t\tright(0,50) = pad\n";

const LINKS: &[u8] =
    b"\t\tright(50,100) = lap   # lower half\n\tpad:\n\t\tleft = desk(0,50)\n\tlap:\n\
    \t\tleft = desk(50,100)\nend\n";

const NORMAL_LINKS: &[u8] =
    b"\t\tright(50,100) = lap.local\n\tpad:\n\t\tleft = desk(0,50)\n\tlap.local:\n\
    \t\tleft = desk(50,100)\nend\n";

const OPTIONS: &[u8] = b"section: options\n\theartbeat = 5000\n\tswitchDelay = 250\n";

const HOTKEY: &[u8] = b"\tkeystroke(Control+Alt+Right) = switchInDirection(right)\n";

/// The parts of a text, how `check` ends on it, and the parts of what it writes.
#[derive(Drop)]
struct Row<'a> {
    text: &'a [&'a [u8]],
    status: Status,
    written: &'a [&'a [u8]],
}

fn refused(line: u32, column: u32, kind: ConfigKind) -> Status {
    Status::BadConfig { line, column, kind }
}

fn joined(alloc: Global, parts: &[&[u8]]) -> Result<Vec<u8>, OutOfMemory> {
    let mut bytes = Vec::new(alloc);
    for part in parts {
        bytes.extend_from_slice(part)?;
    }
    Ok(bytes)
}

fn passes(alloc: Global, row: &Row) -> Result<bool, OutOfMemory> {
    let text = joined(alloc, row.text)?;
    let written = joined(alloc, row.written)?;
    let mut files = MemoryFiles::new(alloc, &[])?;
    files.add("desks", &text)?;
    let mut out = MemorySink::new(alloc, 1000, &[])?;
    let status = run_check(alloc, "desks", &mut files, &mut out);
    Ok(status == row.status && out.bytes() == written.as_slice())
}

#[test]
fn accepted_texts_are_printed(rt: HostRuntime) {
    let rows = [
        Row {
            text: &[],
            status: Status::Ok,
            written: &[NOTHING, END],
        },
        Row {
            text: &[b"section: options\nprotocol = barrier\nend"],
            status: Status::Ok,
            written: &[NOTHING, b"\tprotocol = barrier\n", END],
        },
        Row {
            text: &[
                b"# three desks\n",
                SCREENS,
                ALIASES,
                FIRST_LINK,
                LINKS,
                OPTIONS,
                END,
            ],
            status: Status::Ok,
            written: &[SCREENS, ALIASES, FIRST_LINK, NORMAL_LINKS, OPTIONS, END],
        },
        Row {
            text: &[
                b"# three desks\n",
                SCREENS,
                ALIASES,
                FIRST_LINK,
                LINKS,
                OPTIONS,
                HOTKEY,
                END,
            ],
            status: Status::Ok,
            written: &[
                SCREENS,
                ALIASES,
                FIRST_LINK,
                NORMAL_LINKS,
                OPTIONS,
                HOTKEY,
                END,
            ],
        },
    ];
    for row in &rows {
        assert_eq!(rt; passes(rt.alloc(), row), Ok(true));
    }
}

#[test]
fn refused_texts_print_nothing(rt: HostRuntime) {
    let rows: [(&[&[u8]], Status); 8] = [
        (
            &[b"section: screens\n\t-a:\n"],
            refused(2, 2, ConfigKind::BadName),
        ),
        (
            &[b"section: screens\n\tdesk:\n\tDESK:\n"],
            refused(3, 2, ConfigKind::DuplicateScreen),
        ),
        (
            &[
                b"section: screens\n\tdesk:\nend\nsection: links\n\tdesk:\n\t\tright(0,60) = desk\n\
                \t\tright(50,100) = desk\n",
            ],
            refused(7, 3, ConfigKind::Overlap),
        ),
        (
            &[b"section: screens"],
            refused(1, 1, ConfigKind::UnclosedSection),
        ),
        (
            &[
                b"# three desks\n",
                SCREENS,
                ALIASES,
                FIRST_LINK,
                b"\t\tright(50,100) = lap\n\tpad:\n\t\tleft desk\n",
            ],
            refused(20, 8, ConfigKind::BadLine),
        ),
        (
            &[b"section: options\n\tkeystroke(Control+Nope) = lockCursorToScreen(on)\nend\n"],
            refused(2, 20, ConfigKind::UnknownKey),
        ),
        (
            &[b"section: options\n\tkeystroke(F1) =\nend\n"],
            refused(2, 17, ConfigKind::BadValue),
        ),
        (
            &[b"section: screens\nend\nsection: doors\n"],
            refused(3, 10, ConfigKind::UnknownSection),
        ),
    ];
    for (text, status) in rows {
        let row = Row {
            text,
            status,
            written: &[],
        };
        assert_eq!(rt; passes(rt.alloc(), &row), Ok(true));
    }
}

#[test]
fn a_file_that_fails_is_a_read_fault(rt: HostRuntime) -> Result<(), Fail> {
    for (name, failing) in [("chairs", 0), ("desks", 1)] {
        let mut files = MemoryFiles::new(rt.alloc(), &[failing])?;
        files.add("desks", SCREENS)?;
        let mut out = MemorySink::new(rt.alloc(), 1000, &[])?;
        let status = run_check(rt.alloc(), name, &mut files, &mut out);
        assert_eq!(rt; status, Status::ReadFault);
        assert_eq!(rt; out.bytes(), b"".as_slice());
    }
    Ok(())
}

#[test]
fn a_failed_write_is_a_write_fault(rt: HostRuntime) -> Result<(), Fail> {
    for (room, failing, written) in [(1000, 1, b"".as_slice()), (9, 0, b"section: ".as_slice())] {
        let mut files = MemoryFiles::new(rt.alloc(), &[])?;
        files.add("desks", SCREENS)?;
        let mut out = MemorySink::new(rt.alloc(), room, &[failing])?;
        let status = run_check(rt.alloc(), "desks", &mut files, &mut out);
        assert_eq!(rt; status, Status::WriteFault);
        assert_eq!(rt; out.bytes(), written);
    }
    Ok(())
}

#[test]
fn a_file_has_a_mebibyte_at_most(rt: HostRuntime) -> Result<(), Fail> {
    let too_many = refused(0, 0, ConfigKind::TooMany);
    for (size, status) in [(1_048_576, Status::Ok), (1_048_577, too_many)] {
        let mut files = MemoryFiles::new(rt.alloc(), &[])?;
        let comment = vec![in rt.alloc(); b'#'; size]?;
        files.add("desks", &comment)?;
        let mut out = MemorySink::new(rt.alloc(), 1000, &[])?;
        assert_eq!(rt;
            run_check(rt.alloc(), "desks", &mut files, &mut out),
            status
        );
    }
    Ok(())
}

#[test]
fn a_refusal_has_a_code_and_a_line(rt: HostRuntime) {
    let status = refused(27, 11, ConfigKind::BadLine);
    assert_eq!(rt; status.code(), 1);
    assert_eq!(rt;
        status.report().as_slice(),
        b"config 27 11 BadLine\n".as_slice()
    );
    let status = refused(0, 0, ConfigKind::TooMany);
    assert_eq!(rt;
        status.report().as_slice(),
        b"config 0 0 TooMany\n".as_slice()
    );
}
