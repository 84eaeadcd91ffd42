//! Frames of a stream that comes in pieces.

use share_base::Octets;
use std::test::*;
use wire_frames::*;

const HELLO: [u8; 15] = *b"\0\0\0\x0bSynergy\0\x01\0\x06";

#[test]
fn a_frame_comes_however_it_is_cut(rt: HostRuntime) -> Result<(), Fail> {
    let stream = [0, 0, 0, 2, 7, 8, 0, 0, 0, 0, 0, 0];
    for cut in 0..12usize {
        let mut framer = Framer::new(rt.alloc(), 2);
        framer.feed(&stream[..cut])?;
        framer.feed(&stream[cut..])?;
        let body = [7, 8].as_slice();
        assert!(rt;
            framer.next() == FrameStep::Frame { place: 0, body },
            "cut at {cut}"
        );
        assert!(rt; matches!(framer.next(), FrameStep::Frame { place: 6, body: [] }));
        assert!(rt; matches!(framer.next(), FrameStep::More));
    }
    Ok(())
}

#[test]
fn a_frame_comes_at_its_last_byte(rt: HostRuntime) -> Result<(), Fail> {
    for cut in 0..15usize {
        let mut framer = Framer::new(rt.alloc(), 11);
        framer.feed(&HELLO[..cut])?;
        assert!(rt; matches!(framer.next(), FrameStep::More), "cut at {cut}");
        framer.feed(&HELLO[cut..])?;
        let body = &HELLO[4..];
        assert!(rt;
            framer.next() == FrameStep::Frame { place: 0, body },
            "cut at {cut}"
        );
        assert!(rt; matches!(framer.next(), FrameStep::More));
    }
    Ok(())
}

#[test]
fn a_length_above_the_limit_is_kept(rt: HostRuntime) -> Result<(), Fail> {
    let mut framer = Framer::new(rt.alloc(), 2);
    framer.feed(&[0, 0, 0, 3])?;
    assert!(rt; matches!(framer.next(), FrameStep::TooLong { place: 0, len: 3 }));
    framer.feed(&[1, 2, 3])?;
    assert!(rt; matches!(framer.next(), FrameStep::TooLong { place: 0, len: 3 }));
    Ok(())
}

#[test]
fn a_raised_limit_lets_longer_bodies_through(rt: HostRuntime) -> Result<(), Fail> {
    let mut framer = Framer::new(rt.alloc(), 2);
    framer.feed(&[0, 0, 0, 3, 7, 8, 9])?;
    framer.raise_limit(3);
    let body = [7, 8, 9].as_slice();
    assert!(rt; framer.next() == FrameStep::Frame { place: 0, body });
    Ok(())
}

#[test]
fn a_frame_is_put_at_the_end(rt: HostRuntime) -> Result<(), Fail> {
    let mut out = Octets::new(rt.alloc());
    put_frame(&HELLO[4..], &mut out)?;
    put_frame(&[], &mut out)?;
    assert!(rt; out.as_slice() == b"\0\0\0\x0bSynergy\0\x01\0\x06\0\0\0\0".as_slice());
    Ok(())
}
