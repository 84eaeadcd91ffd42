//! Corners, edges that a motion passes, and gates.

use edge_cross::*;
use share_base::{Shape, Side};

const DESK: Shape = Shape {
    x: 0,
    y: 0,
    w: 1920,
    h: 1080,
};

#[test]
fn corners_block_the_ends_of_a_side(rt: HostRuntime) {
    let all = Corners { set: 15, size: 20 };
    assert!(rt; in_corner(all, Side::Right, 19, 1080));
    assert!(rt; in_corner(all, Side::Right, 1060, 1080));
    assert!(rt; !in_corner(all, Side::Right, 20, 1080));
    assert!(rt; !in_corner(all, Side::Right, 1059, 1080));
}

#[test]
fn an_edge_is_passed_at_its_pixel(rt: HostRuntime) {
    let right = Edge {
        side: Side::Right,
        p: 540,
    };
    assert_eq!(rt; leaves(&DESK, 1920, 540, Axis::Horizontal), Some(right));
    assert_eq!(rt; leaves(&DESK, 1919, 540, Axis::Horizontal), None);
    let corner = Edge {
        side: Side::Up,
        p: 1919,
    };
    assert_eq!(rt; leaves(&DESK, 2500, -1, Axis::Vertical), Some(corner));
}

#[test]
fn a_second_tap_passes(rt: HostRuntime) {
    let mut gate = Gate::new(0, 500);
    assert_eq!(rt; gate.ask(0, Side::Right), GateAnswer::Stay);
    gate.away();
    assert_eq!(rt; gate.ask(200, Side::Right), GateAnswer::Pass);
    gate.reset();
    assert_eq!(rt; gate.ask(0, Side::Right), GateAnswer::Stay);
    gate.away();
    assert_eq!(rt; gate.ask(501, Side::Right), GateAnswer::Stay);
    gate.reset();
    assert_eq!(rt; gate.ask(0, Side::Right), GateAnswer::Stay);
    assert_eq!(rt; gate.ask(100, Side::Right), GateAnswer::Stay);
}

#[test]
fn a_wait_passes_when_it_is_due(rt: HostRuntime) {
    let mut gate = Gate::new(250, 0);
    assert_eq!(rt; gate.ask(0, Side::Right), GateAnswer::Wait { due: 250 });
    assert_eq!(rt; gate.ask(249, Side::Right), GateAnswer::Wait { due: 250 });
    let side = Side::Right;
    assert_eq!(rt; gate.due(), Some(Waiting { side, due: 250 }));
    assert_eq!(rt; gate.ask(250, side), GateAnswer::Pass);
    gate.away();
    assert_eq!(rt; gate.due(), None);
}

#[test]
fn a_moment_past_the_last_counts_as_the_last(rt: HostRuntime) {
    let side = Side::Right;
    let mut gate = Gate::new(250, 0);
    let due = 4_611_686_018_427_388_154;
    assert_eq!(rt; gate.ask(u64::MAX, side), GateAnswer::Wait { due });
    assert_eq!(rt; gate.ask(u64::MAX, side), GateAnswer::Wait { due });
    let mut taps = Gate::new(0, 500);
    assert_eq!(rt; taps.ask(4_611_686_018_427_387_904, side), GateAnswer::Stay);
    taps.away();
    assert_eq!(rt; taps.ask(u64::MAX, side), GateAnswer::Pass);
}
