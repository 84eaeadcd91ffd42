//! A client that joins over a link in memory: what it sends, what it prints, and how it ends.

ghost use Rattle.std.specs.Prelude.{◌<◌, ◌^◌};

use client_core::{ClientEnd, LostCause};
use client_loop::join;
use hub_acts::{Act, WriteAnswer};
use link_mem::MemoryLink;
use script_screen::{read_client_script, read_trace};
use share_base::{MemorySink, Octets, ScreenName};
use std::test::*;

const LINK_FAULT: ClientEnd = ClientEnd::LinkFault;

const LOST: ClientEnd = ClientEnd::Lost(LostCause::Failed);

/// A server's hello, its question for information and its goodbye, a turn each.
const SERVER: &[u8] = b"turn 0\ngot 1 0000000b53796e6572677900010006\n\
    turn 0\ngot 1 0000000451494e46\nturn 0\ngot 1 0000000443425945";

/// The same, and before the goodbye a turn in which the cursor enters, a key and a button go down.
const PRESSES: &[u8] = b"turn 0\ngot 1 0000000b53796e6572677900010006\n\
    turn 0\ngot 1 0000000451494e46\n\
    turn 0\ngot 1 0000000e43494e4e00000180000000010000\n\
    got 1 0000000a444b444e006100000026\ngot 1 00000005444d444e01\n\
    turn 0\ngot 1 0000000443425945";

/// The hello answer of `pad`.
const HELLO: &[u8] = b"\x00\x00\x00\x12Synergy\x00\x01\x00\x06\x00\x00\x00\x03pad";

/// The hello answer, and the information on a screen of 1024 x 768.
const BOTH: &[u8] = b"\x00\x00\x00\x12Synergy\x00\x01\x00\x06\x00\x00\x00\x03pad\
    \x00\x00\x00\x12DINF\x00\x00\x00\x00\x04\x00\x03\x00\x00\x00\x02\x00\x01\x80";

const DOWNS: &str = "enter 0 384 1 0\nkey down 97 38 0\nbutton down 1\n";

const DOWNS_AND_UPS: &str =
    "enter 0 384 1 0\nkey down 97 38 0\nbutton down 1\nkey up 97 38\nbutton up 1\n";

/// How a client of the screen `pad` joins.
#[derive(Clone, Copy)]
struct Case {
    trace: &'static [u8],
    /// The link's calls that fail.
    failing: &'static [u64],
    /// The sink's writes that fail.
    broken: &'static [u64],
    /// The most bytes that the sink takes.
    room: usize,
    turns: u64,
}

/// A case in which nothing fails.
const fn playing(trace: &'static [u8]) -> Case
    ensures { result.turns < 2 ^ 32 }
{
    Case {
        trace,
        failing: &[],
        broken: &[],
        room: 1000,
        turns: 9,
    }
}

/// What a client that joined did.
#[derive(Drop)]
struct Joined {
    end: ClientEnd,
    sent: Octets,
    printed: MemorySink,
    acts: usize,
}

/// The bytes that the link took, one write after another.
fn taken(rt: &HostRuntime, acts: &[Act]) -> Result<Octets, Fail> {
    let mut sent = Octets::new(rt.alloc());
    for act in acts {
        if let Act::LinkWrite {
            bytes,
            answer: WriteAnswer::Took(count),
        } = act
        {
            for byte in bytes.as_slice().iter().take(*count) {
                sent.push(*byte)?;
            }
        }
    }
    Ok(sent)
}

fn joins(rt: &HostRuntime, case: Case) -> Result<Joined, Fail>
    requires { case.turns < 2 ^ 32 }
{
    let Ok(trace) = read_trace(rt.alloc(), case.trace) else {
        return Err(Fail::new("the trace was refused"));
    };
    let Ok(script) = read_client_script(rt.alloc(), b"") else {
        return Err(Fail::new("the script was refused"));
    };
    let Some(name) = ScreenName::read(b"pad") else {
        return Err(Fail::new("the name was refused"));
    };
    let mut link = MemoryLink::of_trace(rt.alloc(), trace, case.failing)?;
    let mut out = MemorySink::new(rt.alloc(), case.room, case.broken)?;
    let end = join(
        rt.alloc(),
        name,
        "desk.example",
        24800,
        1024,
        768,
        script,
        case.turns,
        &mut link,
        &mut out,
    );
    Ok(Joined {
        end,
        sent: taken(rt, link.acts())?,
        printed: out,
        acts: link.acts().len(),
    })
}

#[test]
fn a_client_answers_and_leaves_with_its_server(rt: HostRuntime) -> Result<(), Fail> {
    let joined = joins(&rt, playing(SERVER))?;
    assert_eq!(rt; joined.end, ClientEnd::Bye);
    assert_eq!(rt; joined.sent.as_slice(), BOTH);
    assert_eq!(rt; joined.printed.bytes(), b"".as_slice());
    Ok(())
}

/// The link's call that fails, and what the client does then: its end, what it sent, and its lines.
/// The calls are `connect`; then `wait`, `read` and `write` of the hello; the same of the information;
/// and `wait` and `read` of the presses, and of the goodbye.
const FAILING: [(&[u64], ClientEnd, &[u8], &str); 12] = [
    (&[1], LINK_FAULT, b"", ""),
    (&[2], LINK_FAULT, b"", ""),
    (&[3], LOST, b"", ""),
    (&[4], LOST, b"", ""),
    (&[5], LINK_FAULT, HELLO, ""),
    (&[6], LOST, HELLO, ""),
    (&[7], LOST, HELLO, ""),
    (&[8], LINK_FAULT, BOTH, ""),
    (&[9], LOST, BOTH, ""),
    (&[10], LINK_FAULT, BOTH, DOWNS_AND_UPS),
    (&[11], LOST, BOTH, DOWNS_AND_UPS),
    (&[12], ClientEnd::Bye, BOTH, DOWNS_AND_UPS),
];

#[test]
fn what_went_down_goes_up_whichever_call_fails(rt: HostRuntime) -> Result<(), Fail> {
    for (failing, end, sent, lines) in FAILING {
        let joined = joins(
            &rt,
            Case {
                failing,
                ..playing(PRESSES)
            },
        )?;
        assert_eq!(rt; joined.end, end);
        assert_eq!(rt; joined.sent.as_slice(), sent);
        assert_eq!(rt; joined.printed.bytes(), lines.as_bytes());
    }
    Ok(())
}

/// The link's call and the sink's writes that fail, the sink's room, and the lines: the releases are
/// the second write. After a failed write nothing more is written.
const BROKEN: [(&[u64], &[u64], usize, ClientEnd, &str); 5] = [
    (&[], &[1], 1000, ClientEnd::WriteFault, ""),
    (&[], &[2], 1000, ClientEnd::WriteFault, DOWNS),
    (&[10], &[2], 1000, ClientEnd::WriteFault, DOWNS),
    (&[], &[], 6, ClientEnd::WriteFault, "enter "),
    (&[11], &[3], 1000, LOST, DOWNS_AND_UPS),
];

#[test]
fn a_failed_write_stops_the_lines(rt: HostRuntime) -> Result<(), Fail> {
    for (failing, broken, room, end, lines) in BROKEN {
        let joined = joins(
            &rt,
            Case {
                failing,
                broken,
                room,
                ..playing(PRESSES)
            },
        )?;
        assert_eq!(rt; joined.end, end);
        assert_eq!(rt; joined.sent.as_slice(), BOTH);
        assert_eq!(rt; joined.printed.bytes(), lines.as_bytes());
    }
    Ok(())
}

/// The turns that a client has, its end, and how many calls it made: the link's connect and close,
/// the first moment, and the calls of its turns.
const TURNS: [(u64, ClientEnd, usize); 4] = [
    (0, ClientEnd::TurnsSpent, 3),
    (1, ClientEnd::TurnsSpent, 7),
    (3, ClientEnd::TurnsSpent, 14),
    (4, ClientEnd::Bye, 17),
];

#[test]
fn a_client_has_the_turns_that_it_is_given(rt: HostRuntime) -> Result<(), Fail> {
    for (turns, end, acts) in TURNS {
        let joined = joins(
            &rt,
            Case {
                turns,
                ..playing(PRESSES)
            },
        )?;
        assert_eq!(rt; joined.end, end);
        assert_eq!(rt; joined.acts, acts);
    }
    Ok(())
}
