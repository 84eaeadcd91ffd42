//! Texts that are refused, each at its line and column.

use crate::configurations::refusal;
use config_text::ConfigKind::{
    BadLine, BadName, BadRange, BadValue, DuplicateAlias, DuplicateScreen, Overlap,
    UnclosedSection, UnknownOption, UnknownScreen, UnknownSection,
};
use config_text::*;
use share_base::Octets;
use std::alloc::Global;
use std::process::Abort;
use std::test::*;

/// A text that is refused, with its line, column and kind.
#[derive(Clone, Copy)]
pub(crate) struct Refused(
    pub(crate) &'static [u8],
    pub(crate) u32,
    pub(crate) u32,
    pub(crate) ConfigKind,
);

// Rows stand in functions, whose results no proof looks into.
fn refused_texts() -> [Refused; 24] {
    [
        Refused(b"section: screens\n\t-a:", 2, 2, BadName),
        Refused(b"section: screens\n\t:", 2, 2, BadName),
        Refused(b"section: screens\n\tdesk:\n\tDESK:", 3, 2, DuplicateScreen),
        Refused(b"section: screens", 1, 1, UnclosedSection),
        Refused(b"section: screen", 1, 10, UnknownSection),
        Refused(b"section: aliases\n\tdesk:", 2, 2, UnknownScreen),
        Refused(
            b"section: screens\na:\nend\nsection: aliases\na:\nA",
            6,
            1,
            DuplicateAlias,
        ),
        Refused(
            b"section: screens\na:\nend\nsection: links\na:\nleft(50,50)=a",
            6,
            5,
            BadRange,
        ),
        Refused(b"section: options\nshift = ctrl", 2, 1, UnknownOption),
        Refused(b"section: options\nheartbeat = \nend", 2, 12, BadValue),
        Refused(b"section: options\nheartbeat = 05", 2, 13, BadValue),
        Refused(b"sections: x", 1, 8, BadLine),
        Refused(b"screens:", 1, 2, BadLine),
        Refused(b"section:", 1, 9, BadLine),
        Refused(b"section: options\na:", 2, 1, BadLine),
        Refused(b"section: screens\nshift = none", 2, 1, BadLine),
        Refused(b"section: options\nkeystroke (a) = ", 2, 16, BadValue),
        Refused(
            b"section: screens\na:\nend\nsection: links\na:\nleft(007,9)=a",
            6,
            7,
            BadLine,
        ),
        Refused(b"section: screens\n\ta\x01:", 2, 3, BadLine),
        Refused(b"section: screens\nend\r", 2, 4, BadLine),
        Refused(
            b"section: screens\na:\nend\nsection: links\na:\nleft(9,1) = -x",
            6,
            13,
            BadName,
        ),
        Refused(
            b"section: screens\na:\nend\nsection: links\na:\nleft(9,1) = x",
            6,
            13,
            UnknownScreen,
        ),
        Refused(
            b"section: screens\n\tdesk:\nend\nsection: links\n\tdesk:\n\t\tright(0,60) = desk\n\
            \t\tright(50,100) = desk\nend",
            7,
            3,
            Overlap,
        ),
        Refused(
            b"section: screens\n\tdesk:\nend\nsection: links\n\tdesk:\n\t\tright(0,60) = desk\n\
            \t\tright(50,100) = desk(5,5)\nend",
            7,
            23,
            BadRange,
        ),
    ]
}

fn lines_and_bytes_refused() -> [Refused; 7] {
    [
        Refused(b"section: screens\r\n\ta\r:\r\nend", 2, 3, BadLine),
        Refused(b"section: screens\n\ta\x7f:", 2, 3, BadLine),
        Refused(b"section: screens # \x80\n\ta:\n\xc3:", 3, 1, BadLine),
        Refused(b"\t\x00", 1, 2, BadLine),
        Refused(b"-- \x01", 1, 4, BadLine),
        Refused(b"  sect # ion: screens", 1, 7, BadLine),
        Refused(b"section: options\nheartbeat = ~", 2, 13, BadValue),
    ]
}

fn sections_refused() -> [Refused; 7] {
    [
        Refused(b"end", 1, 1, BadLine),
        Refused(b"section screens", 1, 9, BadLine),
        Refused(b"section: Screens", 1, 10, UnknownSection),
        Refused(b"section: screens x", 1, 18, BadLine),
        Refused(b"section: screens\nsection: links", 2, 1, BadLine),
        Refused(b"section: screens\na:\nsection: links", 3, 8, BadLine),
        Refused(b"section: screens\na:\nend x", 3, 5, BadLine),
    ]
}

fn names_refused() -> [Refused; 12] {
    [
        Refused(b"a=:", 9, 1, BadLine),
        Refused(b"c d:", 9, 3, BadLine),
        Refused(b"c,d:", 9, 2, BadLine),
        Refused(b"\t\tc..d:", 9, 3, BadName),
        Refused(b"c-:", 9, 1, BadName),
        Refused(b".:", 9, 1, BadName),
        Refused(b"B:", 9, 1, DuplicateScreen),
        Refused(b"end\nsection: aliases\nc", 11, 1, BadLine),
        Refused(b"end\nsection: aliases\nb:\nB", 12, 1, DuplicateAlias),
        Refused(b"end\nsection: aliases\nb:\nc d", 12, 3, BadLine),
        Refused(b"end\nsection: aliases\nb:\n-c", 12, 1, BadName),
        Refused(b"end\nsection: aliases\nc:", 11, 1, UnknownScreen),
    ]
}

fn links_refused() -> [Refused; 12] {
    [
        Refused(b"lefty = a", 6, 1, BadLine),
        Refused(b"left", 6, 5, BadLine),
        Refused(b"left = ", 6, 7, BadLine),
        Refused(b"left(1234,5)=a", 6, 9, BadLine),
        Refused(b"left(,5)=a", 6, 6, BadLine),
        Refused(b"left(1,2 = a", 6, 10, BadLine),
        Refused(b"left = a b", 6, 10, BadLine),
        Refused(b"left = b", 6, 8, UnknownScreen),
        Refused(b"left(0,101)=a", 6, 5, BadRange),
        Refused(b"left(60,50)=a", 6, 5, BadRange),
        Refused(b"left = a(0,0)", 6, 9, BadRange),
        Refused(b"left(9,1) = a(5,5)", 6, 5, BadRange),
    ]
}

fn options_refused() -> [Refused; 13] {
    [
        Refused(b"nothing = ", 5, 1, UnknownOption),
        Refused(b"heartbeat = 3600001", 5, 13, BadValue),
        Refused(b"switchDelay = 60001", 5, 15, BadValue),
        Refused(b"switchCornerSize = 32768", 5, 20, BadValue),
        Refused(b"clipboardSharingSize = 4097", 5, 24, BadValue),
        Refused(b"protocol = Barrier", 5, 12, BadValue),
        Refused(b"heartbeat == 5", 5, 12, BadValue),
        Refused(b"switchCorners = middle", 5, 17, BadValue),
        Refused(b"heart-beat = 5", 5, 6, BadLine),
        Refused(b"= 5", 5, 1, BadLine),
        Refused(b"heartbeat", 5, 10, BadLine),
        Refused(
            b"end\nsection: screens\nc:\nheartbeat = 1",
            8,
            1,
            UnknownOption,
        ),
        Refused(b"end\nsection: screens\nc:\nshift = hyper", 8, 9, BadValue),
    ]
}

fn no_header_refused() -> [Refused; 4] {
    [
        Refused(b"end\nsection: aliases\n-- a", 11, 1, BadLine),
        Refused(b"end\nsection: links\n  left(9,1) = (", 11, 3, BadLine),
        Refused(b"end\nsection: links\nnothing", 11, 1, BadLine),
        Refused(b"end\nsection: screens\n\t = x", 11, 3, BadLine),
    ]
}

pub(crate) fn expect_refused(
    rt: &impl Abort,
    alloc: Global,
    before: &[u8],
    rows: &[Refused],
) -> Result<(), Fail> {
    for row in rows {
        let mut text = Octets::new(alloc);
        text.extend(before)?;
        text.extend(row.0)?;
        let wanted = ConfigRefusal {
            line: row.1,
            column: row.2,
            kind: row.3,
        };
        assert_eq!(rt; refusal(alloc, text.as_slice()), Some(wanted));
    }
    Ok(())
}

const TWO_SCREENS: &[u8] =
    b"section: screens\na:\nend\nsection: aliases\na:\nb\nend\nsection: screens\n";

const LINKS: &[u8] = b"section: screens\na:\nend\nsection: links\na:\n";

const OPTIONS: &[u8] = b"section: screens\na:\nend\nsection: options\n";

#[test]
fn each_text_is_refused_at_its_place(rt: HostRuntime) -> Result<(), Fail> {
    expect_refused(&rt, rt.alloc(), b"", &refused_texts())?;
    expect_refused(&rt, rt.alloc(), b"", &lines_and_bytes_refused())?;
    expect_refused(&rt, rt.alloc(), b"", &sections_refused())?;
    expect_refused(&rt, rt.alloc(), TWO_SCREENS, &names_refused())?;
    expect_refused(&rt, rt.alloc(), TWO_SCREENS, &no_header_refused())?;
    expect_refused(&rt, rt.alloc(), LINKS, &links_refused())?;
    expect_refused(&rt, rt.alloc(), OPTIONS, &options_refused())
}
