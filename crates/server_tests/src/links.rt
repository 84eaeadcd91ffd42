//! Places on a side, and where links lead.

use screen_links::*;
use share_base::{ScreenNo, ScreenSet, Side};
use std::test::Fail;

const WHOLE: Range = Range { a: 0, b: 100 };

const DESK: ScreenNo = ScreenNo(0);

const GONE: ScreenNo = ScreenNo(1);

const PAD: ScreenNo = ScreenNo(2);

fn at(screen: ScreenNo, t: u32) -> Option<Landing> {
    Some(Landing { screen, t })
}

#[test]
fn pixels_have_places(rt: HostRuntime) {
    assert_eq!(rt; place(0, 32_767), 15);
    assert_eq!(rt; pixel(15, 32_767), 0);
    assert_eq!(rt; place(32_766, 32_767), 999_984);
    assert_eq!(rt; pixel(999_984, 32_767), 32_766);
    assert_eq!(rt; place(540, 1080), 500_462);
    assert_eq!(rt; pixel(500_462, 768), 384);
}

#[test]
fn an_empty_range_is_refused(rt: HostRuntime) -> Result<(), Fail> {
    let mut links = Links::new(rt.alloc());
    links.add(DESK, Side::Right, WHOLE, PAD, WHOLE)?;
    let refused = links.add(DESK, Side::Left, Range { a: 50, b: 50 }, PAD, WHOLE);
    assert_eq!(rt; refused, Err(LinkFault::BadRange));
    assert_eq!(rt; links.as_slice().len(), 1);
    Ok(())
}

/// The worked row of two ranges on one side.
#[test]
fn a_side_is_shared(rt: HostRuntime) -> Result<(), Fail> {
    let a = GONE;
    let b = PAD;
    let mut links = Links::new(rt.alloc());
    links.add(DESK, Side::Right, Range { a: 0, b: 50 }, a, WHOLE)?;
    links.add(DESK, Side::Right, Range { a: 50, b: 100 }, b, WHOLE)?;
    let mut joined = ScreenSet::new();
    joined.insert(DESK);
    joined.insert(a);
    joined.insert(b);
    assert_eq!(rt;
        links.across(&joined, DESK, Side::Right, 499_537),
        at(a, 999_074)
    );
    assert_eq!(rt;
        links.across(&joined, DESK, Side::Right, 500_462),
        at(b, 924)
    );
    assert_eq!(rt;
        links.across(&joined, DESK, Side::Right, 499_999),
        at(a, 999_998)
    );
    assert_eq!(rt; links.across(&joined, DESK, Side::Right, 500_000), at(b, 0));
    assert_eq!(rt; links.across(&joined, DESK, Side::Left, 500_000), None);
    Ok(())
}

/// The worked row of a screen that isn't joined: the walk goes over it, and not back.
#[test]
fn a_screen_is_walked_over(rt: HostRuntime) -> Result<(), Fail> {
    let mut joined = ScreenSet::new();
    joined.insert(DESK);
    joined.insert(PAD);
    let mut links = Links::new(rt.alloc());
    links.add(DESK, Side::Right, WHOLE, GONE, WHOLE)?;
    links.add(GONE, Side::Right, WHOLE, PAD, WHOLE)?;
    assert_eq!(rt;
        links.across(&joined, DESK, Side::Right, 500_462),
        at(PAD, 500_462)
    );
    let mut back = Links::new(rt.alloc());
    back.add(DESK, Side::Right, WHOLE, GONE, WHOLE)?;
    back.add(GONE, Side::Right, WHOLE, DESK, WHOLE)?;
    assert_eq!(rt; back.across(&joined, DESK, Side::Right, 500_462), None);
    Ok(())
}

#[test]
fn a_chain_of_all_screens_is_walked(rt: HostRuntime) -> Result<(), Fail> {
    let mut links = Links::new(rt.alloc());
    for screen in 0..63 {
        links.add(
            ScreenNo(screen),
            Side::Right,
            WHOLE,
            ScreenNo(screen + 1),
            WHOLE,
        )?;
    }
    let mut joined = ScreenSet::new();
    assert_eq!(rt; links.across(&joined, DESK, Side::Right, 7), None);
    joined.insert(ScreenNo(63));
    assert_eq!(rt;
        links.across(&joined, DESK, Side::Right, 7),
        at(ScreenNo(63), 7)
    );
    Ok(())
}
