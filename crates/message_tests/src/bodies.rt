//! Bodies of messages: read, shown and written again, and the first fault of each bad one.

use message_codec::*;
use share_base::Octets;
use std::alloc::Global;
use std::test::*;

/// Who sends a body, the body, where the parts of its fields begin, and the line that it is shown
/// as.
type Row = (End, &'static [u8], &'static [u32], &'static [u8]);

/// Every message, by the letters and the fields of the protocol.
const ROWS: [(End, &[u8], &[u32], &[u8]); 30] = [
    (
        End::Server,
        b"Synergy\x00\x01\x00\x06",
        &[7, 9],
        b"Synergy 1 6",
    ),
    (End::Server, b"QINF", &[], b"QINF"),
    (End::Server, b"CIAK", &[], b"CIAK"),
    (End::Server, b"CROP", &[], b"CROP"),
    (End::Server, b"CBYE", &[], b"CBYE"),
    (
        End::Server,
        b"CINN\xff\xff\x80\x00\xff\xff\xff\xff\x10\x00",
        &[4, 6, 8, 12],
        b"CINN -1 -32768 4294967295 4096",
    ),
    (End::Server, b"COUT", &[], b"COUT"),
    (End::Server, b"CSEC\x01", &[4], b"CSEC 1"),
    (
        End::Server,
        b"DSOP\x00\x00\x00\x02HART\x00\x00\x03\xe8",
        &[4, 8, 12],
        b"DSOP 2 1212240468 1000",
    ),
    (
        End::Server,
        b"DKDN\x00\x61\x00\x00\x00\x26",
        &[4, 6, 8],
        b"DKDN 97 0 38",
    ),
    (
        End::Server,
        b"DKRP\x00\x61\x00\x01\x00\x02\x00\x26",
        &[4, 6, 8, 10],
        b"DKRP 97 1 2 38",
    ),
    (
        End::Server,
        b"DKUP\x00\x61\x00\x00\x00\x26",
        &[4, 6, 8],
        b"DKUP 97 0 38",
    ),
    (End::Server, b"DMDN\x01", &[4], b"DMDN 1"),
    (End::Server, b"DMUP\xff", &[4], b"DMUP 255"),
    (End::Server, b"DMMV\x00\x05\xff\xfe", &[4, 6], b"DMMV 5 -2"),
    (
        End::Server,
        b"DMRM\xff\xf6\x00\x0a",
        &[4, 6],
        b"DMRM -10 10",
    ),
    (
        End::Server,
        b"DMWM\x00\x00\xff\x88",
        &[4, 6],
        b"DMWM 0 -120",
    ),
    (End::Server, b"EICV\x00\x01\x00\x06", &[4, 6], b"EICV 1 6"),
    (End::Server, b"EBSY", &[], b"EBSY"),
    (End::Server, b"EUNK", &[], b"EUNK"),
    (End::Server, b"EBAD", &[], b"EBAD"),
    (
        End::Client,
        b"Synergy\x00\x01\x00\x06\x00\x00\x00\x03pad",
        &[7, 9, 11, 15],
        b"Synergy 1 6 706164",
    ),
    (End::Client, b"CNOP", &[], b"CNOP"),
    (
        End::Client,
        b"DINF\x00\x00\x00\x00\x04\x00\x03\x00\x00\x00\x02\x00\x01\x80",
        &[4, 6, 8, 10, 12, 14, 16],
        b"DINF 0 0 1024 768 0 512 384",
    ),
    (End::Client, b"CALV", &[], b"CALV"),
    (
        End::Client,
        b"CCLP\x01\x00\x00\x00\x03",
        &[4, 5],
        b"CCLP 1 3",
    ),
    (
        End::Client,
        b"DCLP\x00\x00\x00\x00\x00\x02\x00\x00\x00\x02\x4f\xc0",
        &[4, 5, 9, 10, 14],
        b"DCLP 0 0 2 4fc0",
    ),
    (
        End::Server,
        b"DCLP\x01\x00\x00\x00\x00\x03\x00\x00\x00\x00",
        &[4, 5, 9, 10],
        b"DCLP 1 0 3 -",
    ),
    (
        End::Server,
        b"DFTR\x09\x00\x00\x00\x01\xff",
        &[4, 5, 9],
        b"DFTR 9 ff",
    ),
    (
        End::Client,
        b"DDRG\x00\x02\x00\x00\x00\x00",
        &[4, 6],
        b"DDRG 2 -",
    ),
];

/// Bodies that are refused.
const FAULTS: [(End, &[u8], BadBody); 9] = [
    (
        End::Server,
        b"DKDN\x00\x61\x00\x00\x00",
        BadBody::Short { at: 8 },
    ),
    (
        End::Server,
        b"DKDN\x00\x61\x00\x00\x00\x26\x00",
        BadBody::Trailing { at: 10 },
    ),
    (
        End::Server,
        b"DCLP\x00\x00\x00\x00\x00\x04\x00\x00\x00\x00",
        BadBody::BadMark { at: 9 },
    ),
    (
        End::Server,
        b"CCLP\x02\x00\x00\x00\x00",
        BadBody::BadClip { at: 4 },
    ),
    (End::Server, b"DN", BadBody::UnknownCode),
    (End::Client, b"COUT", BadBody::WrongEnd),
    (
        End::Server,
        b"DSOP\xff\xff\xff\xff\x00\x00\x00\x01\x00",
        BadBody::Short { at: 12 },
    ),
    (
        End::Client,
        b"DCLP\x02\x00\x00\x00\x00\x04\x00\x00\x00\x00!",
        BadBody::Trailing { at: 14 },
    ),
    (
        End::Client,
        b"Synergy\x00\x01\x00\x06",
        BadBody::Short { at: 11 },
    ),
];

/// The fault of a body that was cut after that many bytes: its code is not there, or the last part
/// that begins there is short.
fn fault_of_cut(parts: &[u32], cut: u32) -> BadBody {
    let mut fault = BadBody::UnknownCode;
    for part in parts {
        if *part <= cut {
            fault = BadBody::Short { at: *part };
        }
    }
    fault
}

/// Whether the body is decoded, shown and encoded as it should be, and each cut of it is refused.
fn passes(alloc: Global, row: Row) -> Result<bool, Fail> {
    let (from, whole, parts, shown) = row;
    if whole.len() > 100 {
        return Ok(false);
    }
    for cut in 0..whole.len() {
        let fault = DecodeFault::Bad(fault_of_cut(parts, cut as u32));
        if decode(alloc, from, &whole[..cut]).err() != Some(fault) {
            return Ok(false);
        }
    }
    let msg = decode(alloc, from, whole)?;
    let mut line = Octets::new(alloc);
    show(&msg, &mut line)?;
    let len = body_len(&msg);
    if len > 100 {
        return Ok(false);
    }
    let mut body = Octets::new(alloc);
    encode(&msg, &mut body)?;
    Ok(len == whole.len() as u64 && line.as_slice() == shown && body.as_slice() == whole)
}

#[test]
fn each_message_is_read_shown_and_written(rt: HostRuntime) -> Result<(), Fail> {
    for row in &ROWS {
        assert!(rt; passes(rt.alloc(), *row)?, "{:?}", row.1);
    }
    Ok(())
}

#[test]
fn the_first_fault_is_answered(rt: HostRuntime) {
    for (from, body, fault) in &FAULTS {
        if body.len() <= 100 {
            let found = decode(rt.alloc(), *from, body).err();
            assert_eq!(rt; found, Some(DecodeFault::Bad(*fault)));
        }
    }
}

/// A body that ends with a count and then that many bytes.
fn long_body(alloc: Global, front: &[u8], count: u32, bytes: usize) -> Result<Octets, Fail> {
    let mut body = Octets::new(alloc);
    body.extend(front)?;
    body.extend_u32(count)?;
    for i in 0..bytes {
        body.push((i % 251) as u8)?;
    }
    Ok(body)
}

#[test]
fn long_lists_are_read_whole(rt: HostRuntime) -> Result<(), Fail> {
    let bodies = [
        long_body(rt.alloc(), b"DSOP", 2_000, 8_000)?,
        long_body(rt.alloc(), b"DCLP\0\0\0\0\0\x02", 8_000, 8_000)?,
    ];
    for body in &bodies {
        if body.len() <= 10_000 {
            let msg = decode(rt.alloc(), End::Server, body.as_slice())?;
            let mut again = Octets::new(rt.alloc());
            if body_len(&msg) <= 10_000 {
                encode(&msg, &mut again)?;
            }
            assert!(rt; again.as_slice() == body.as_slice());
        }
    }
    Ok(())
}
