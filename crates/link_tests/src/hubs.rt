//! The calls of a hub in memory, and what its trace answers.

use crate::hubs::Step::{Accepts, Closes, Listens, Now, Reads, Waits, Writes};
use hub_acts::{AcceptAnswer, CallFault, Hub, Mark, ReadAnswer, ReadyList, Waited, WriteAnswer};
use hub_mem::MemoryHub;
use script_screen::read_trace;
use std::test::*;

/// A call, with what it answers.
#[derive(Clone, Copy)]
enum Step {
    Listens(Result<(), CallFault>),
    Waits(Waited, &'static [Mark]),
    Now(u64),
    Accepts(AcceptAnswer),
    /// A serial, the length of the buffer, and the bytes that come.
    Reads(u64, usize, ReadAnswer, &'static [u8]),
    /// A serial, and the number of bytes offered.
    Writes(u64, usize, WriteAnswer),
    Closes(u64),
}

const READABLE: Mark = Mark::Stream {
    serial: 1,
    readable: true,
    writable: false,
};

const WRITABLE: Mark = Mark::Stream {
    serial: 1,
    readable: false,
    writable: true,
};

const BOTH: Mark = Mark::Stream {
    serial: 1,
    readable: true,
    writable: true,
};

const SECOND: Mark = Mark::Stream {
    serial: 2,
    readable: true,
    writable: false,
};

const PIECES: &[u8] =
    b"turn 5\njoin 1\nroom 1 5\nturn 6\ngot 1 0102\ngot 1 03\nturn 7\nroom 1 1\nend 1";

const FAILS: &[u8] = b"turn 0\njoin 1\nturn 0\ngot 1 ff\nfail 1";

const EARLY: &[u8] = b"turn 0\nend 1\nturn 0\njoin 1\njoin 2\ngot 2 aa\nturn 0\nroom 1 3\ngot 2 cc";

/// Traces, the calls that fail, and calls with what they answer.
const ROWS: [(&[u8], &[u64], &[Step]); 5] = [
    (
        b"",
        &[],
        &[Waits(Waited::Over, &[]), Waits(Waited::Over, &[]), Now(0)],
    ),
    (
        PIECES,
        &[],
        &[
            Now(0),
            Accepts(AcceptAnswer::NotNow),
            Waits(Waited::Ready, &[Mark::Accept]),
            Now(5),
            Accepts(AcceptAnswer::New(1)),
            Accepts(AcceptAnswer::NotNow),
            Reads(1, 2, ReadAnswer::NotNow, &[]),
            Writes(1, 3, WriteAnswer::Took(3)),
            Writes(1, 3, WriteAnswer::Took(2)),
            Writes(1, 1, WriteAnswer::NotNow),
            Waits(Waited::Ready, &[READABLE]),
            Now(6),
            Reads(1, 2, ReadAnswer::Got(2), &[1, 2]),
            Reads(1, 2, ReadAnswer::Got(1), &[3]),
            Reads(1, 2, ReadAnswer::NotNow, &[]),
            Waits(Waited::Ready, &[BOTH]),
            Writes(1, 4, WriteAnswer::Took(1)),
            Writes(1, 1, WriteAnswer::NotNow),
            Reads(1, 2, ReadAnswer::End, &[]),
            Waits(Waited::Over, &[]),
            Now(7),
            Closes(1),
        ],
    ),
    (
        FAILS,
        &[],
        &[
            Waits(Waited::Ready, &[Mark::Accept]),
            Accepts(AcceptAnswer::New(1)),
            Writes(1, 2, WriteAnswer::Took(2)),
            Waits(Waited::Ready, &[BOTH]),
            Writes(1, 1, WriteAnswer::Failed),
            Reads(1, 4, ReadAnswer::Got(1), &[255]),
            Reads(1, 4, ReadAnswer::Failed, &[]),
        ],
    ),
    (
        b"turn 0\njoin 1",
        &[1, 3, 5],
        &[
            Listens(Err(CallFault::Failed)),
            Waits(Waited::Ready, &[Mark::Accept]),
            Accepts(AcceptAnswer::Failed),
            Now(0),
            Accepts(AcceptAnswer::New(1)),
            Reads(1, 1, ReadAnswer::Failed, &[]),
            Reads(1, 1, ReadAnswer::NotNow, &[]),
            Closes(1),
            Listens(Ok(())),
            Waits(Waited::Over, &[]),
        ],
    ),
    (
        EARLY,
        &[],
        &[
            Waits(Waited::Ready, &[]),
            Accepts(AcceptAnswer::NotNow),
            Waits(Waited::Ready, &[Mark::Accept]),
            Accepts(AcceptAnswer::New(1)),
            Accepts(AcceptAnswer::New(2)),
            Reads(1, 8, ReadAnswer::NotNow, &[]),
            Waits(Waited::Ready, &[WRITABLE, SECOND]),
            Reads(2, 8, ReadAnswer::Got(2), &[0xaa, 0xcc]),
            Writes(1, 8, WriteAnswer::Took(3)),
            Writes(2, 8, WriteAnswer::Took(8)),
        ],
    ),
];

/// Whether the call answers what it is to, on connections that are open.
fn answers(hub: &mut MemoryHub, step: Step) -> bool {
    let bytes = [7; 8];
    let mut buf = [0; 8];
    let mut ready = ReadyList::new();
    match step {
        Listens(answer) => hub.listen(0) == answer,
        Waits(answer, marks) => {
            hub.open_serials().len() < 128
                && hub.wait(9, &mut ready) == answer
                && ready.as_slice() == marks
        }
        Now(moment) => hub.now() == Ok(moment),
        Accepts(answer) => hub.accept() == answer,
        Reads(serial, room, answer, given) => {
            if room == 0 || room > 8 || given.len() > 8 || !hub.open_serials().contains(&serial) {
                return false;
            }
            hub.read(serial, &mut buf[..room]) == answer && &buf[..given.len()] == given
        }
        Writes(serial, offered, answer) => {
            if offered == 0 || offered > 8 || !hub.open_serials().contains(&serial) {
                return false;
            }
            hub.write(serial, &bytes[..offered]) == answer
        }
        Closes(serial) => {
            if !hub.open_serials().contains(&serial) {
                return false;
            }
            hub.close(serial) == Ok(())
        }
    }
}

#[test]
fn each_call_answers_by_the_trace(rt: HostRuntime) -> Result<(), Fail> {
    for (text, failing, steps) in ROWS {
        let Ok(trace) = read_trace(rt.alloc(), text) else {
            return Err(Fail::new("a trace was refused"));
        };
        let mut hub = MemoryHub::of_trace(rt.alloc(), trace, failing)?;
        for step in steps {
            assert!(rt; answers(&mut hub, *step));
        }
        assert_eq!(rt; hub.acts().len(), steps.len());
    }
    Ok(())
}
