//! The calls of a link in memory, and what its trace answers.

use crate::links::Step::{Closes, Connects, Now, Reads, Waits, Writes};
use hub_acts::{CallFault, Link, LinkWaited, ReadAnswer, WriteAnswer};
use link_mem::MemoryLink;
use script_screen::read_trace;
use std::test::*;

/// A call, with what it answers.
#[derive(Clone, Copy)]
enum Step {
    Connects(Result<(), CallFault>),
    Waits(LinkWaited),
    Now(u64),
    /// The length of the buffer, and the bytes that come.
    Reads(usize, ReadAnswer, &'static [u8]),
    /// The number of bytes offered.
    Writes(usize, WriteAnswer),
    Closes,
}

const IDLE: LinkWaited = LinkWaited::Ready {
    readable: false,
    writable: false,
};

const READABLE: LinkWaited = LinkWaited::Ready {
    readable: true,
    writable: false,
};

const WRITABLE: LinkWaited = LinkWaited::Ready {
    readable: false,
    writable: true,
};

const BOTH: LinkWaited = LinkWaited::Ready {
    readable: true,
    writable: true,
};

/// A server's hello, its question for information and its goodbye, a turn each.
const SERVER: &[u8] = b"turn 0\ngot 1 0000000b53796e6572677900010006\n\
    turn 0\ngot 1 0000000451494e46\nturn 0\ngot 1 0000000443425945";

const PIECES: &[u8] = b"turn 5\nroom 1 5\nturn 6\ngot 1 0102\ngot 1 03\nturn 7\nroom 1 1\nend 1";

const JOINS: &[u8] =
    b"turn 0\ngot 1 0a\njoin 1\njoin 2\ngot 2 bb\nroom 2 0\nturn 1\nend 2\nturn 2\nend 1";

/// Traces, the calls that fail, and calls with what they answer.
const ROWS: [(&[u8], &[u64], &[Step]); 7] = [
    (
        b"",
        &[],
        &[
            Now(0),
            Connects(Ok(())),
            Waits(LinkWaited::Over),
            Waits(LinkWaited::Over),
            Now(0),
            Reads(4, ReadAnswer::NotNow, &[]),
            Writes(3, WriteAnswer::Took(3)),
        ],
    ),
    (
        SERVER,
        &[],
        &[
            Connects(Ok(())),
            Now(0),
            Reads(32, ReadAnswer::NotNow, &[]),
            Waits(READABLE),
            Reads(32, ReadAnswer::Got(15), b"\0\0\0\x0bSynergy\0\x01\0\x06"),
            Reads(32, ReadAnswer::NotNow, &[]),
            Writes(22, WriteAnswer::Took(22)),
            Waits(READABLE),
            Reads(32, ReadAnswer::Got(8), b"\0\0\0\x04QINF"),
            Writes(22, WriteAnswer::Took(22)),
            Waits(READABLE),
            Reads(32, ReadAnswer::Got(8), b"\0\0\0\x04CBYE"),
            Waits(LinkWaited::Over),
            Closes,
        ],
    ),
    (
        PIECES,
        &[],
        &[
            Waits(WRITABLE),
            Now(5),
            Reads(2, ReadAnswer::NotNow, &[]),
            Writes(3, WriteAnswer::Took(3)),
            Writes(3, WriteAnswer::Took(2)),
            Writes(1, WriteAnswer::NotNow),
            Waits(READABLE),
            Now(6),
            Reads(2, ReadAnswer::Got(2), &[1, 2]),
            Reads(2, ReadAnswer::Got(1), &[3]),
            Reads(2, ReadAnswer::NotNow, &[]),
            Waits(BOTH),
            Writes(4, WriteAnswer::Took(1)),
            Writes(1, WriteAnswer::NotNow),
            Reads(2, ReadAnswer::End, &[]),
            Waits(LinkWaited::Over),
            Now(7),
            Closes,
        ],
    ),
    (
        b"turn 0\ngot 1 ff\nfail 1",
        &[],
        &[
            Writes(2, WriteAnswer::Took(2)),
            Waits(BOTH),
            Writes(1, WriteAnswer::Failed),
            Reads(4, ReadAnswer::Got(1), &[255]),
            Reads(4, ReadAnswer::Failed, &[]),
        ],
    ),
    (
        b"turn 3\ngot 1 aa\nturn 4",
        &[1, 3, 5, 7],
        &[
            Connects(Err(CallFault::Failed)),
            Connects(Ok(())),
            Waits(LinkWaited::Failed),
            Now(0),
            Waits(READABLE),
            Reads(1, ReadAnswer::Failed, &[]),
            Reads(1, ReadAnswer::Got(1), &[170]),
            Writes(2, WriteAnswer::Failed),
            Now(3),
            Writes(2, WriteAnswer::Took(2)),
            Waits(IDLE),
            Waits(LinkWaited::Over),
        ],
    ),
    (
        JOINS,
        &[],
        &[
            Waits(READABLE),
            Reads(8, ReadAnswer::Got(1), &[10]),
            Writes(8, WriteAnswer::Took(8)),
            Waits(IDLE),
            Reads(8, ReadAnswer::NotNow, &[]),
            Waits(READABLE),
            Reads(8, ReadAnswer::End, &[]),
        ],
    ),
    (
        b"turn 0\ngot 1 0a\nturn 1\ngot 1 0b\nroom 1 0\nfail 1",
        &[],
        &[
            Waits(READABLE),
            Closes,
            Waits(IDLE),
            Now(1),
            Reads(8, ReadAnswer::Got(1), &[10]),
            Reads(8, ReadAnswer::NotNow, &[]),
            Writes(2, WriteAnswer::Took(2)),
        ],
    ),
];

/// Whether the call answers what it is to.
fn answers(link: &mut MemoryLink, step: Step) -> bool {
    let bytes = [7; 32];
    let mut buf = [0; 32];
    match step {
        Connects(answer) => link.connect("desk.example", 24800) == answer,
        Waits(answer) => link.wait(9) == answer,
        Now(moment) => link.now() == Ok(moment),
        Reads(room, answer, given) => {
            if room == 0 || room > 32 || given.len() > 32 {
                return false;
            }
            link.read(&mut buf[..room]) == answer && &buf[..given.len()] == given
        }
        Writes(offered, answer) => {
            if offered == 0 || offered > 32 {
                return false;
            }
            link.write(&bytes[..offered]) == answer
        }
        Closes => link.close() == Ok(()),
    }
}

#[test]
fn each_call_answers_by_the_trace(rt: HostRuntime) -> Result<(), Fail> {
    for (text, failing, steps) in ROWS {
        let Ok(trace) = read_trace(rt.alloc(), text) else {
            return Err(Fail::new("a trace was refused"));
        };
        let mut link = MemoryLink::of_trace(rt.alloc(), trace, failing)?;
        for step in steps {
            assert!(rt; answers(&mut link, *step));
        }
        assert_eq!(rt; link.acts().len(), steps.len());
    }
    Ok(())
}
