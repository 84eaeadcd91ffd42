//! Where the cursor crosses, and when.

ghost use Rattle.screen_crossing.specs.Showing.{IsPlaced};

use crate::screens::{DESK, PAD, desk_and_pad};
use edge_cross::Waiting;
use option_table::OptionName;
use screen_config::Config;
use screen_crossing::*;
use screen_links::{Link, Range};
use share_base::{LAST_MOMENT, Mask, ScreenSet, Shape, Side};
use std::alloc::Global;
use std::test::*;

const DESK_SHAPE: Shape = Shape {
    x: 0,
    y: 0,
    w: 1920,
    h: 1080,
};

const PAD_SHAPE: Shape = Shape {
    x: -10,
    y: 20,
    w: 1024,
    h: 768,
};

/// The right side of desk leads to the left side of pad.
fn link(config: &mut Config) -> Result<(), Fail> {
    if config.count() != 2 {
        return Err(Fail::new("not two screens"));
    }
    let whole = Range { a: 0, b: 100 };
    let link = Link {
        from: DESK,
        side: Side::Right,
        range: whole,
        to: PAD,
        onto: whole,
    };
    match config.add_link(link) {
        Ok(()) => Ok(()),
        Err(_) => Err(Fail::new("no link")),
    }
}

/// An edge is passed only while shift is held.
#[tactic(auto, unfolding(option_table::specs::Table::row_of))]
fn need_shift(config: &mut Config) {
    config.set_global(OptionName::SwitchNeedsShift, 1);
}

fn linked_screens(alloc: Global) -> Result<Config, Fail> {
    let mut config = desk_and_pad(alloc)?;
    link(&mut config)?;
    need_shift(&mut config);
    Ok(config)
}

fn both() -> ScreenSet {
    let mut joined = ScreenSet::new();
    joined.insert(DESK);
    joined.insert(PAD);
    joined
}

/// A motion on desk to a point, what may block it, and where on pad it leads.
#[derive(Clone, Copy)]
struct Row(i32, i32, bool, u32, bool, u16, Option<u32>);

const ROWS: [Row; 9] = [
    Row(1920, 540, false, 0, false, 1, Some(500_462)),
    Row(2500, -7, false, 4_294_967_294, false, 1, Some(462)),
    Row(1919, 540, false, 0, false, 1, None),
    Row(-1, 540, false, 0, false, 1, None),
    Row(500, 1080, false, 0, false, 1, None),
    Row(1920, 540, true, 0, false, 1, None),
    Row(1920, 540, false, 4_294_967_295, false, 1, None),
    Row(1920, 540, false, 0, true, 1, None),
    Row(1920, 540, false, 0, false, 6, None),
];

/// The cursor is at the middle of the right side of desk.
fn around(row: Row) -> Surroundings
    ensures { IsPlaced result }
{
    Surroundings {
        screen: DESK,
        shape: DESK_SHAPE,
        cursor: Point { x: 1919, y: 540 },
        joined: both(),
        is_locked: row.2,
        sequence: row.3,
        has_mouse_down: row.4,
        mods: Mask(row.5),
    }
}

fn place_of_way(config: &Config, row: Row) -> Option<u32> {
    match around(row).first_way(config, Point { x: row.0, y: row.1 }) {
        Some(way) => Some(way.landing.t),
        None => None,
    }
}

fn place_beside(config: &Config, row: Row, side: Side) -> Option<u32> {
    match around(row).landing_at_cursor(config, side) {
        Some(landing) => Some(landing.t),
        None => None,
    }
}

#[test]
fn motions_leave_on_open_edges(rt: HostRuntime) -> Result<(), Fail> {
    let config = linked_screens(rt.alloc())?;
    for row in ROWS {
        assert_eq!(rt; place_of_way(&config, row), row.6);
        assert_eq!(rt; place_beside(&config, row, Side::Right), Some(500_462));
        assert_eq!(rt; place_beside(&config, row, Side::Up), None);
    }
    Ok(())
}

fn entry(side: Side, t: u32) -> Option<Point> {
    if t >= 1_000_000 {
        return None;
    }
    Some(entry_point(side, &PAD_SHAPE, t))
}

fn at(x: i32, y: i32) -> Option<Point> {
    Some(Point { x, y })
}

#[test]
fn the_cursor_enters_on_the_facing_side(rt: HostRuntime) {
    assert_eq!(rt; entry(Side::Right, 500_462), at(-10, 404));
    assert_eq!(rt; entry(Side::Left, 999_999), at(1013, 787));
    assert_eq!(rt; entry(Side::Down, 0), at(-10, 20));
    assert_eq!(rt; entry(Side::Up, 999_999), at(1013, 787));
}

#[test]
fn points_lie_on_their_shape(rt: HostRuntime) {
    assert_eq!(rt; Point { x: 3, y: 4 }.moved(-5, 6), Point { x: -2, y: 10 });
    assert_eq!(rt;
        clamped(&PAD_SHAPE, Point { x: -11, y: 900 }),
        Point { x: -10, y: 787 }
    );
    assert_eq!(rt; middle(&PAD_SHAPE), Point { x: 502, y: 404 });
}

#[tactic(auto, unfolding(option_table::specs::Table::row_of))]
fn waiting_gate(alloc: Global) -> SwitchGate {
    let mut config = Config::new(alloc);
    config.set_global(OptionName::SwitchDelay, 250);
    SwitchGate::new(&config)
}

#[tactic(auto, unfolding(option_table::specs::Table::row_of))]
fn tapped_gate(alloc: Global) -> SwitchGate {
    let mut config = Config::new(alloc);
    config.set_global(OptionName::SwitchDoubleTap, 500);
    SwitchGate::new(&config)
}

fn passes(gate: &mut SwitchGate, now: u64, side: Side) -> bool {
    now <= LAST_MOMENT && gate.ask(now, side)
}

#[test]
fn a_gate_waits_at_one_side(rt: HostRuntime) {
    let mut gate = waiting_gate(rt.alloc());
    let side = Side::Right;
    assert!(rt; !passes(&mut gate, 1000, side));
    assert_eq!(rt; gate.waiting(), Some(Waiting { side, due: 1250 }));
    assert!(rt; !passes(&mut gate, 1200, Side::Left));
    assert!(rt; !passes(&mut gate, 1250, side));
    assert!(rt; passes(&mut gate, 1500, side));
    gate.reset();
    assert_eq!(rt; gate.waiting(), None);
}

#[test]
fn a_gate_counts_taps_on_one_side(rt: HostRuntime) {
    let mut gate = tapped_gate(rt.alloc());
    assert!(rt; !passes(&mut gate, 0, Side::Right));
    gate.away();
    assert!(rt; !passes(&mut gate, 200, Side::Left));
    assert!(rt; !passes(&mut gate, 300, Side::Right));
    gate.away();
    assert!(rt; passes(&mut gate, 800, Side::Right));
}
