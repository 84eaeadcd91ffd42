//! What a client answers its server, and how it ends.

ghost use Rattle.std.specs.Prelude.{◌≡◌, ◌^◌, ◌<◌, ◌≤◌, IfOk, length};

use client_core::*;
use script_screen::read_client_script;
use share_base::{OutOfMemory, Reason, ScreenName};
use std::alloc::Global;
use std::process::Abort;
use std::test::*;

/// The script of a client `pad` of 1024 x 768 that is made at 0; two pieces of the server's stream,
/// with a moment after each; and then what it printed, what it sent, how it ended, and when
/// something is due.
type Talk = (
    &'static [u8],
    &'static [u8],
    u64,
    &'static [u8],
    u64,
    &'static [u8],
    &'static [u8],
    Option<ClientEnd>,
    u64,
);

const NEVER: u64 = 18_446_744_073_709_551_615;

const TALKS: [Talk; 19] = [
    (b"", b"", 0, b"", 0, b"", b"", None, 9000),
    (
        b"",
        b"\0\0\0\x0bSynergy\0\x01\0\x06",
        0,
        b"",
        0,
        b"",
        b"\0\0\0\x12Synergy\0\x01\0\x06\0\0\0\x03pad",
        None,
        9000,
    ),
    (
        b"",
        b"\0\0\0\x0bSynergy\0\x01\0\x06\0\0\0\x04QINF",
        0,
        b"",
        0,
        b"",
        b"\0\0\0\x12Synergy\0\x01\0\x06\0\0\0\x03pad\0\0\0\x12DINF\0\0\0\0\x04\0\x03\0\0\0\x02\0\x01\x80",
        None,
        9000,
    ),
    // Later minors are joined too.
    (
        b"",
        b"\0\0\0\x0bSynergy\0\x01\xff\xff",
        0,
        b"",
        0,
        b"",
        b"\0\0\0\x12Synergy\0\x01\0\x06\0\0\0\x03pad",
        None,
        9000,
    ),
    // A second hello.
    (
        b"",
        b"\0\0\0\x0bSynergy\0\x01\0\x06\0\0\0\x0bSynergy\0\x01\0\x06",
        0,
        b"",
        0,
        b"",
        b"\0\0\0\x12Synergy\0\x01\0\x06\0\0\0\x03pad",
        Some(ClientEnd::BadPeer {
            place: 15,
            reason: Reason::State,
        }),
        NEVER,
    ),
    (
        b"",
        b"\0\0\0\x0bSynergy\0\x01\0\x06\0\0\0\x04CALV\0\0\0\x04CBYE\0\0\0\x04QINF",
        0,
        b"",
        0,
        b"",
        b"\0\0\0\x12Synergy\0\x01\0\x06\0\0\0\x03pad\0\0\0\x04CALV",
        Some(ClientEnd::Bye),
        NEVER,
    ),
    // The server is dead three rates after its last whole message.
    (b"", b"", 8999, b"", 0, b"", b"", None, 9000),
    (
        b"",
        b"",
        9000,
        b"",
        0,
        b"",
        b"",
        Some(ClientEnd::Lost(LostCause::Dead)),
        NEVER,
    ),
    (
        b"",
        b"\0\0\0\x0bSynergy\0\x01\0\x06",
        5000,
        b"\0\0\0\x04CIA",
        8999,
        b"",
        b"\0\0\0\x12Synergy\0\x01\0\x06\0\0\0\x03pad",
        None,
        9000,
    ),
    (
        b"",
        b"\0\0\0\x0bSynergy\0\x01\0\x06",
        5000,
        b"\0\0\0\x04CIAK",
        13999,
        b"",
        b"\0\0\0\x12Synergy\0\x01\0\x06\0\0\0\x03pad",
        None,
        14000,
    ),
    // At a heartbeat of 0 there is no death; a reset takes the heartbeat back.
    (
        b"",
        b"\0\0\0\x0bSynergy\0\x01\0\x06",
        0,
        b"\0\0\0\x10DSOP\0\0\0\x02HART\0\0\0\0",
        4000000000,
        b"option 48415254 0\n",
        b"\0\0\0\x12Synergy\0\x01\0\x06\0\0\0\x03pad",
        None,
        NEVER,
    ),
    (
        b"",
        b"\0\0\0\x0bSynergy\0\x01\0\x06",
        0,
        b"\0\0\0\x10DSOP\0\0\0\x02HART\0\0\x03\xe8",
        3000,
        b"option 48415254 1000\n",
        b"\0\0\0\x12Synergy\0\x01\0\x06\0\0\0\x03pad",
        Some(ClientEnd::Lost(LostCause::Dead)),
        NEVER,
    ),
    (
        b"",
        b"\0\0\0\x0bSynergy\0\x01\0\x06",
        0,
        b"\0\0\0\x10DSOP\0\0\0\x02HART\0\0\x03\xe8\0\0\0\x04CROP",
        8999,
        b"option 48415254 1000\nreset options\n",
        b"\0\0\0\x12Synergy\0\x01\0\x06\0\0\0\x03pad",
        None,
        9000,
    ),
    // The script runs at a moment, from the first `CIAK` on; moves print nothing until the next
    // one.
    (
        b"resize 800 600",
        b"\0\0\0\x0bSynergy\0\x01\0\x06\0\0\0\x04CIAK\0\0\0\x08DMMV\0\x01\0\x02",
        1,
        b"\0\0\0\x08DMMV\0\x03\0\x04\0\0\0\x08DMRM\0\x05\0\x06\0\0\0\x04CIAK\0\0\0\x08DMMV\0\x07\0\x08",
        1,
        b"move 1 2\nmoveby 5 6\nmove 7 8\n",
        b"\0\0\0\x12Synergy\0\x01\0\x06\0\0\0\x03pad\0\0\0\x12DINF\0\0\0\0\x03\x20\x02\x58\0\0\x01\x90\x01\x2c",
        None,
        9001,
    ),
    (
        b"sleep 100\nresize 800 600",
        b"\0\0\0\x0bSynergy\0\x01\0\x06",
        50,
        b"\0\0\0\x04CIAK",
        60,
        b"",
        b"\0\0\0\x12Synergy\0\x01\0\x06\0\0\0\x03pad",
        None,
        160,
    ),
    (
        b"copy 0 61\nsleep 100\nresize 800 600",
        b"\0\0\0\x0bSynergy\0\x01\0\x06\0\0\0\x04CIAK",
        60,
        b"\0\0\0\x04QINF",
        160,
        b"",
        b"\0\0\0\x12Synergy\0\x01\0\x06\0\0\0\x03pad\0\0\0\x09CCLP\0\0\0\0\0\0\0\0\x12DINF\0\0\0\0\x04\0\x03\0\0\0\x02\0\x01\x80\0\0\0\x12DINF\0\0\0\0\x03\x20\x02\x58\0\0\x01\x90\x01\x2c",
        None,
        9060,
    ),
    // A copy grabs at once, and is sent at the next leaving, once, with the sequence of the latest
    // entering.
    (
        b"copy 0 6869",
        b"\0\0\0\x0bSynergy\0\x01\0\x06\0\0\0\x04CIAK",
        1,
        b"\0\0\0\x0eCINN\0\0\0\0\0\0\0\x05\0\0\0\0\0\x04COUT\0\0\0\x04COUT",
        1,
        b"enter 0 0 5 0\nleave\nleave\n",
        b"\0\0\0\x12Synergy\0\x01\0\x06\0\0\0\x03pad\0\0\0\x09CCLP\0\0\0\0\0\0\0\0\x0fDCLP\0\0\0\0\x05\x01\0\0\0\x012\0\0\0\x10DCLP\0\0\0\0\x05\x02\0\0\0\x02hi\0\0\0\x0eDCLP\0\0\0\0\x05\x03\0\0\0\0",
        None,
        9001,
    ),
    // Both are sent, the clipboard first; of two copies of one the later one is.
    (
        b"copy 1 61\ncopy 0 -\ncopy 1 62",
        b"\0\0\0\x0bSynergy\0\x01\0\x06\0\0\0\x04CIAK\0\0\0\x0eCINN\0\0\0\0\0\0\0\x07\0\0",
        1,
        b"\0\0\0\x04COUT",
        1,
        b"enter 0 0 7 0\nleave\n",
        b"\0\0\0\x12Synergy\0\x01\0\x06\0\0\0\x03pad\0\0\0\x09CCLP\x01\0\0\0\x07\0\0\0\x09CCLP\0\0\0\0\x07\0\0\0\x09CCLP\x01\0\0\0\x07\0\0\0\x0fDCLP\0\0\0\0\x07\x01\0\0\0\x010\0\0\0\x0eDCLP\0\0\0\0\x07\x03\0\0\0\0\0\0\0\x0fDCLP\x01\0\0\0\x07\x01\0\0\0\x011\0\0\0\x0fDCLP\x01\0\0\0\x07\x02\0\0\0\x01b\0\0\0\x0eDCLP\x01\0\0\0\x07\x03\0\0\0\0",
        None,
        9001,
    ),
    // A clipboard that another screen took is not sent.
    (
        b"copy 0 61\ncopy 1 62",
        b"\0\0\0\x0bSynergy\0\x01\0\x06\0\0\0\x04CIAK",
        1,
        b"\0\0\0\x09CCLP\0\0\0\0\0\0\0\0\x04COUT",
        1,
        b"grab 0\nleave\n",
        b"\0\0\0\x12Synergy\0\x01\0\x06\0\0\0\x03pad\0\0\0\x09CCLP\0\0\0\0\0\0\0\0\x09CCLP\x01\0\0\0\0\0\0\0\x0fDCLP\x01\0\0\0\0\x01\0\0\0\x011\0\0\0\x0fDCLP\x01\0\0\0\0\x02\0\0\0\x01b\0\0\0\x0eDCLP\x01\0\0\0\0\x03\0\0\0\0",
        None,
        9001,
    ),
];

/// First messages that end the client at once, with nothing printed and nothing sent; and how.
const FIRSTS: [(&[u8], ClientEnd); 8] = [
    // Only version 1.6 and later minors are joined.
    (
        b"\0\0\0\x0bSynergy\0\x01\0\x05\0\0\0\x04QINF",
        ClientEnd::Refused(Which::Version),
    ),
    (
        b"\0\0\0\x0bSynergy\0\x02\0\x06",
        ClientEnd::Refused(Which::Version),
    ),
    // Neither a hello nor a refusal.
    (
        b"\0\0\0\x04CIAK",
        ClientEnd::BadPeer {
            place: 0,
            reason: Reason::State,
        },
    ),
    (
        b"\0\0\0\x04CBYE",
        ClientEnd::BadPeer {
            place: 0,
            reason: Reason::State,
        },
    ),
    // Refusals.
    (
        b"\0\0\0\x08EICV\0\x01\0\x06",
        ClientEnd::Refused(Which::Eicv),
    ),
    (b"\0\0\0\x04EBSY", ClientEnd::Refused(Which::Ebsy)),
    (b"\0\0\0\x04EUNK", ClientEnd::Refused(Which::Eunk)),
    (b"\0\0\0\x04EBAD", ClientEnd::Refused(Which::Ebad)),
];

// A client `pad` of 1024 x 768 that is made at 0.
fn pad(alloc: Global, script: &[u8]) -> Result<ClientCore, OutOfMemory>
    ensures { IfOk result (λ core. core.reader.total ≡ 0) }
{
    let Some(name) = ScreenName::read(b"pad") else {
        return Err(OutOfMemory);
    };
    let Ok(script) = read_client_script(alloc, script) else {
        return Err(OutOfMemory);
    };
    Ok(ClientCore::new(alloc, name, 1024, 768, script, 0))
}

// The first piece in two.
fn talks(rt: &impl Abort, alloc: Global, row: &Talk, cut: usize) -> Result<(), OutOfMemory>
    requires cut { cut ≤ length row.now.1.now }
    requires short { length row.now.1.now < 2 ^ 61 }
    requires second { length row.now.3.now < 2 ^ 61 }
{
    let (script, first, moment, second, later, lines, queued, done, due) = *row;
    let mut core = pad(alloc, script)?;
    core.bytes(&first[..cut])?;
    core.bytes(&first[cut..])?;
    core.moment(moment)?;
    core.bytes(second)?;
    core.moment(later)?;
    assert_eq!(rt; core.lines(), lines, "cut at {cut}");
    assert_eq!(rt; core.queued(), queued, "cut at {cut}");
    assert!(rt; core.done() == done, "cut at {cut}");
    assert_eq!(rt; core.due(), due, "cut at {cut}");
    assert_eq!(rt; core.at(), moment.max(later));
    Ok(())
}

#[test]
fn conversations(rt: HostRuntime) -> Result<(), Fail> {
    for row in &TALKS {
        if row.1.len() > 1000 || row.3.len() > 1000 {
            continue;
        }
        for cut in 0..row.1.len() + 1 {
            talks(&rt, rt.alloc(), row, cut)?;
        }
    }
    Ok(())
}

#[test]
fn first_messages_that_end_it(rt: HostRuntime) -> Result<(), Fail> {
    for (first, end) in FIRSTS {
        if first.len() > 1000 {
            continue;
        }
        let row: Talk = (b"", first, 0, b"", 0, b"", b"", Some(end), NEVER);
        for cut in 0..first.len() + 1 {
            talks(&rt, rt.alloc(), &row, cut)?;
        }
    }
    Ok(())
}
