//! Phases of a connection.

use crate::screens::{DESK, PAD, desk_and_pad};
use hello_states::*;
use message_codec::encode;
use share_base::{Octets, Reason, ScreenSet, Shape, ShortLine};
use std::alloc::Global;
use std::test::*;

/// The moment of a bad shape, and of a bad answer.
const NOW: u64 = 50;

/// The connection 7, accepted at 40 and asked as pad.
fn asked_pad(alloc: Global) -> Result<Asked, Fail> {
    let config = desk_and_pad(alloc)?;
    let greeting = Greeting::begin(7, 40);
    match greeting.answer(1, 6, b"pad", &config, &ScreenSet::new(), NOW) {
        Answered::Asked(asked) => Ok(asked),
        Answered::Parting(_) => Err(Fail::new("an admitted screen parts")),
    }
}

/// A version, a name, and why they are refused where desk is used; no cause where they are admitted
/// as pad.
#[derive(Clone, Copy)]
struct Hello(u16, u16, &'static [u8], Option<PartCause>);

// Rows stand in functions, whose results no proof looks into.
fn hellos() -> [Hello; 13] {
    [
        Hello(1, 6, b"pad", None),
        Hello(1, 6, b"PAD", None),
        Hello(1, 7, b"pad", Some(PartCause::Version)),
        Hello(1, 5, b"pad", Some(PartCause::Version)),
        Hello(1, 0, b"pad", Some(PartCause::Version)),
        Hello(0, 6, b"pad", Some(PartCause::Version)),
        Hello(2, 0, b"pad", Some(PartCause::Version)),
        Hello(2, 6, b"pad", Some(PartCause::Version)),
        Hello(1, 7, b"nobody", Some(PartCause::Version)),
        Hello(1, 7, b"desk", Some(PartCause::Version)),
        Hello(1, 6, b"nobody", Some(PartCause::Unknown)),
        Hello(1, 6, b"", Some(PartCause::Unknown)),
        Hello(1, 6, b"Desk", Some(PartCause::Busy)),
    ]
}

#[test]
fn an_answer_is_refused_or_admitted(rt: HostRuntime) -> Result<(), Fail> {
    let config = desk_and_pad(rt.alloc())?;
    let mut used = ScreenSet::new();
    used.insert(DESK);
    for Hello(major, minor, name, refused) in hellos() {
        let greeting = Greeting::begin(7, 40);
        match greeting.answer(major, minor, name, &config, &used, NOW) {
            Answered::Asked(asked) => {
                assert_eq!(rt; refused, None);
                assert_eq!(rt; asked.screen(), PAD);
                assert_eq!(rt; (asked.serial(), asked.accepted()), (7, 40));
            }
            Answered::Parting(parting) => {
                assert_eq!(rt; refused, Some(parting.cause()));
                assert_eq!(rt; (parting.serial(), parting.moment()), (7, NOW));
            }
        }
    }
    Ok(())
}

/// A first column and row, a width and a height, and whether a screen can have them.
fn shapes() -> [(i16, i16, u16, u16, bool); 13] {
    [
        (0, 0, 1024, 768, true),
        (0, 0, 1, 1, true),
        (0, 0, 0, 1, false),
        (0, 0, 1, 0, false),
        (0, 0, 32_767, 32_767, true),
        (-1, 0, 32_768, 1, false),
        (0, -1, 1, 32_768, false),
        (1, 1, 32_767, 32_767, true),
        (2, 0, 32_767, 1, false),
        (0, 2, 1, 32_767, false),
        (-32_768, -32_768, 65_535, 1, false),
        (32_767, 32_767, 1, 1, true),
        (32_767, 0, 2, 1, false),
    ]
}

#[test]
fn a_shape_is_taken_or_refused(rt: HostRuntime) -> Result<(), Fail> {
    for (x, y, w, h, fits) in shapes() {
        let info = InfoFields {
            x,
            y,
            w,
            h,
            warp: 0,
            mx: 0,
            my: 0,
        };
        match asked_pad(rt.alloc())?.info(&info, NOW) {
            Informed::Joined(joined) => {
                assert!(rt; fits, "{x} {y} {w} {h}");
                let shape = Shape {
                    x: x as i32,
                    y: y as i32,
                    w: w as i32,
                    h: h as i32,
                };
                assert_eq!(rt; joined.shape(), shape);
            }
            Informed::Parting(parting) => {
                assert!(rt; !fits, "{x} {y} {w} {h}");
                assert_eq!(rt; parting.cause(), PartCause::Size);
                assert_eq!(rt; (parting.serial(), parting.moment()), (7, NOW));
            }
        }
    }
    Ok(())
}

fn joined_pad(alloc: Global, info: &InfoFields, now: u64) -> Result<Joined, Fail> {
    match asked_pad(alloc)?.info(info, now) {
        Informed::Joined(joined) => Ok(joined),
        Informed::Parting(_) => Err(Fail::new("a screen with a shape parts")),
    }
}

/// The keep-alive of a screen that joined at 0: it is dead at 9,000 and not at 8,999, unless a
/// further information was heard.
#[test]
fn a_joined_screen_has_its_keep_alive(rt: HostRuntime) -> Result<(), Fail> {
    let mut info = InfoFields {
        x: 0,
        y: 0,
        w: 1024,
        h: 768,
        warp: 0,
        mx: 512,
        my: 384,
    };
    let mut joined = joined_pad(rt.alloc(), &info, 0)?;
    assert_eq!(rt; (joined.serial(), joined.screen()), (7, PAD));
    assert!(rt; !joined.alive().dead(8999));
    assert!(rt; joined.alive().dead(9000));
    assert!(rt; joined.alive_mut().beat(3000));
    assert_eq!(rt; joined.alive().due(), Some(6000));
    info.w = 800;
    let Informed::Joined(joined) = joined.info(&info, 1) else {
        return Err(Fail::new("a screen with another shape parts"));
    };
    assert_eq!(rt; joined.shape().w, 800);
    assert!(rt; !joined.alive().dead(9000));
    assert_eq!(rt; joined.alive().due(), Some(6000));
    info.w = 0;
    let Informed::Parting(parting) = joined.info(&info, NOW) else {
        return Err(Fail::new("a screen with no width goes on"));
    };
    assert_eq!(rt; parting.cause(), PartCause::Size);
    Ok(())
}

/// A cause, its text in the log, whether what is queued is dropped, and the body of its farewell.
#[derive(Clone, Copy)]
struct Cause(PartCause, &'static [u8], bool, &'static [u8]);

fn causes() -> [Cause; 12] {
    let bad = PartCause::Bad {
        place: 44,
        reason: Reason::TooLong,
    };
    [
        Cause(PartCause::Bye, b"bye", false, b"CBYE"),
        Cause(PartCause::Version, b"version", false, b"EICV\0\x01\0\x06"),
        Cause(PartCause::Unknown, b"unknown", false, b"EUNK"),
        Cause(PartCause::Busy, b"busy", false, b"EBSY"),
        Cause(PartCause::Size, b"size", false, b"EBAD"),
        Cause(bad, b"bad 44 toolong", false, b"EBAD"),
        Cause(PartCause::Dead, b"dead", true, b""),
        Cause(PartCause::Silent, b"silent", true, b""),
        Cause(PartCause::Slow, b"slow", true, b""),
        Cause(PartCause::Full, b"full", true, b""),
        Cause(PartCause::Ended, b"ended", true, b""),
        Cause(PartCause::Failed, b"failed", true, b""),
    ]
}

#[test]
fn each_cause_has_its_row(rt: HostRuntime) -> Result<(), Fail> {
    for Cause(cause, text, is_dropped, farewell) in causes() {
        let mut line = ShortLine::new();
        cause.put_text(&mut line);
        assert_eq!(rt; line.as_slice(), text);
        assert_eq!(rt; cause.drops_queue(), is_dropped);
        let mut body = Octets::new(rt.alloc());
        if let Some(message) = cause.farewell() {
            encode(&message, &mut body)?;
        }
        assert_eq!(rt; body.as_slice(), farewell);
    }
    Ok(())
}

/// Each phase that is still to part parts for any cause, at its moment. A moment above the last one
/// counts as 4,611,686,018,427,387,904.
#[test]
fn each_phase_parts(rt: HostRuntime) -> Result<(), Fail> {
    let greeting = Greeting::begin(3, u64::MAX);
    assert_eq!(rt;
        (greeting.serial(), greeting.accepted()),
        (3, 4_611_686_018_427_387_904)
    );
    let info = InfoFields {
        x: 0,
        y: 0,
        w: 1,
        h: 1,
        warp: 0,
        mx: 0,
        my: 0,
    };
    let partings = [
        greeting.part(PartCause::Full, u64::MAX),
        asked_pad(rt.alloc())?.part(PartCause::Silent, u64::MAX),
        joined_pad(rt.alloc(), &info, 0)?.part(PartCause::Dead, u64::MAX),
    ];
    for parting in partings {
        assert_eq!(rt; parting.moment(), 4_611_686_018_427_387_904);
        assert!(rt; parting.cause().drops_queue());
    }
    Ok(())
}
