//! Corners that block an edge.

ghost use Rattle.std.specs.Prelude.{◌≡◌, ◌↔◌, IsTrue};
ghost use Rattle.edge_cross.specs.InCorners as spec;
ghost use Rattle.edge_cross.specs.InCorners.{InCorner};

use share_base::{Corners, Side};

const TOP_LEFT: u8 = 1;

const TOP_RIGHT: u8 = 2;

const BOTTOM_LEFT: u8 = 4;

const BOTTOM_RIGHT: u8 = 8;

/// Returns whether pixel `p` of a side of `n` pixels lies in a listed corner. The near corner of
/// the left and the right side is the top one; that of the upper and the lower side is the left
/// one. `p` and `n` are in pixels, and so is the corners' size; at size 0 no pixel lies in a
/// corner. Does not allocate.
pub fn in_corner(corners: Corners, side: Side, p: u32, n: u32) -> bool
    ensures { IsTrue result ↔ InCorner corners side p n }
{
    let size = corners.size as u64;
    let near = (p as u64) < size && corners.set & near_corner(side) != 0;
    let far = p as u64 + size >= n as u64 && corners.set & far_corner(side) != 0;
    size > 0 && (near || far)
}

fn near_corner(side: Side) -> u8
    ensures { result ≡ spec.near_corner side }
{
    match side {
        Side::Left => TOP_LEFT,
        Side::Right => TOP_RIGHT,
        Side::Up => TOP_LEFT,
        Side::Down => BOTTOM_LEFT,
    }
}

fn far_corner(side: Side) -> u8
    ensures { result ≡ spec.far_corner side }
{
    match side {
        Side::Left => BOTTOM_LEFT,
        Side::Right => BOTTOM_RIGHT,
        Side::Up => TOP_RIGHT,
        Side::Down => BOTTOM_RIGHT,
    }
}
