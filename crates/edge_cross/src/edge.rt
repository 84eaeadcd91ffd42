//! The edge of a screen that a motion passes.

ghost use Rattle.std.specs.Prelude.{◌≡◌, pos, negsuc, ◌+ℤ◌, ◌<ℤ◌, ◌≤ℤ◌, IfSome};
ghost use Rattle.share_base.specs.Shapes.{IsScreenShape};
ghost use Rattle.edge_cross.specs.Edges as spec;
ghost use Rattle.edge_cross.specs.Edges.{Leaves, side_length};

use share_base::{Shape, Side};

/// The direction of a motion past an edge.
#[derive(Clone, Copy, Debug, PartialEq, Eq)]
pub enum Axis {
    /// Towards the left and the right side.
    Horizontal,
    /// Towards the upper and the lower side.
    Vertical,
}

/// The side that a motion passes, and the pixel at which it does.
#[derive(Clone, Copy, Debug, PartialEq, Eq)]
pub struct Edge {
    /// The side.
    pub side: Side,
    /// The pixel of that side, counted from 0; below the side's length.
    pub p: u32,
}

/// Returns the edge of a screen that a point has passed on one axis, or `None` if the point's
/// coordinate on that axis is inside the shape. The pixel is the other coordinate, clamped into the
/// shape and counted from its first pixel. Does not allocate.
pub fn leaves(shape: &Shape, x: i32, y: i32, across: Axis) -> Option<Edge>
    requires { IsScreenShape shape.now }
    ensures leaves { Leaves result across shape.now x y }
    ensures within { IfSome result (λ edge. pos edge.p <ℤ side_length across shape.now) }
{
    match across {
        Axis::Horizontal => {
            let p = along(y, shape.y, shape.h);
            if x < shape.x {
                Some(Edge {
                    side: Side::Left,
                    p,
                })
            } else if x >= shape.x + shape.w {
                Some(Edge {
                    side: Side::Right,
                    p,
                })
            } else {
                None
            }
        }
        Axis::Vertical => {
            let p = along(x, shape.x, shape.w);
            if y < shape.y {
                Some(Edge { side: Side::Up, p })
            } else if y >= shape.y + shape.h {
                Some(Edge {
                    side: Side::Down,
                    p,
                })
            } else {
                None
            }
        }
    }
}

/// Returns the pixel nearest to `at` among `size` pixels from `first` on, counted from `first`.
fn along(at: i32, first: i32, size: i32) -> u32
    requires some { pos 1 ≤ℤ size }
    requires small { size ≤ℤ pos 32767 }
    requires from { negsuc 32767 ≤ℤ first }
    requires upto { (first +ℤ size) ≤ℤ pos 32768 }
    ensures value { pos result ≡ spec.along at first size }
    ensures within { pos result <ℤ size }
{
    (at.clamp(first, first + size - 1) - first) as u32
}
