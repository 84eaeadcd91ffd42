//! Points of screens, in pixels.

ghost use Rattle.std.specs.Prelude.{◌≡◌, ◌<◌, ◌≤◌, pos, negsuc, ◌+ℤ◌, ◌-ℤ◌, ◌<ℤ◌, ◌≤ℤ◌, nat_abs};
ghost use Rattle.std.specs.Int.{int_min, int_max};
ghost use Rattle.share_base.specs.Shapes.{IsScreenShape};
ghost use Rattle.screen_links.specs.Places.{pixel_of};
ghost use Rattle.edge_cross.specs.Edges as edge_spec;
ghost use Rattle.edge_cross.specs.PassedEdges as edges;
ghost use Rattle.machine.specs.States.{State};
ghost use Rattle.machine.specs.Screens as screens;
ghost use Rattle.machine.specs.Crossing as crossing;
ghost use Rattle.screen_crossing.specs.Points.{point_of, IsPixel};

use edge_cross::{Axis, Edge};
use screen_links::pixel;
use share_base::{Shape, Side};

/// A point, in pixels.
#[derive(Clone, Copy, Debug, PartialEq, Eq)]
pub struct Point {
    /// The column.
    pub x: i32,
    /// The row.
    pub y: i32,
}

impl Point {
    /// Returns the point `dx` columns to the right and `dy` rows down. It may lie outside every
    /// screen.
    pub fn moved(self, dx: i16, dy: i16) -> Point
        requires { IsPixel self }
        ensures { (s : State) → s.cursor ≡ point_of self
            → point_of result ≡ crossing.moved_point s dx dy }
    {
        Point {
            x: self.x + dx as i32,
            y: self.y + dy as i32,
        }
    }
}

/// Returns the point of a shape that is nearest to `point`.
pub fn clamped(shape: &Shape, point: Point) -> Point
    requires { IsScreenShape shape.now }
    ensures value { point_of result ≡ screens.clamped shape.now (point_of point) }
    ensures pixel { IsPixel result }
{
    Point {
        x: nearest(point.x, shape.x, shape.w),
        y: nearest(point.y, shape.y, shape.h),
    }
}

/// Returns the middle of a shape. Where it lies between two pixels, it is the later one.
pub fn middle(shape: &Shape) -> Point
    requires { IsScreenShape shape.now }
    ensures value { point_of result ≡ screens.middle shape.now }
    ensures pixel { IsPixel result }
{
    Point {
        x: shape.x + shape.w / 2,
        y: shape.y + shape.h / 2,
    }
}

/// Returns the point at which the cursor enters a shape when it has left the other screen on
/// `side`: on the facing side, at `t` millionths of it. `t` is below 1,000,000.
pub fn entry_point(side: Side, shape: &Shape, t: u32) -> Point
    requires shape { IsScreenShape shape.now }
    requires in_the_side { t < 1000000 }
    ensures value { point_of result ≡ crossing.entry_point side shape.now t }
    ensures pixel { IsPixel result }
{
    match side {
        Side::Right => Point {
            x: shape.x,
            y: at_place(t, shape.y, shape.h),
        },
        Side::Left => Point {
            x: last(shape.x, shape.w),
            y: at_place(t, shape.y, shape.h),
        },
        Side::Down => Point {
            x: at_place(t, shape.x, shape.w),
            y: shape.y,
        },
        Side::Up => Point {
            x: at_place(t, shape.x, shape.w),
            y: last(shape.y, shape.h),
        },
    }
}

/// Returns the edge of a shape on `side` at the pixel nearest to `point`.
pub fn edge_at(shape: &Shape, point: Point, side: Side) -> Edge
    requires { IsScreenShape shape.now }
    ensures edge { result ≡ edges.edge_at (edge_spec.axis_of side) shape.now point.x point.y side }
    ensures within { pos result.p <ℤ edge_spec.side_length (edge_spec.axis_of side) shape.now }
{
    Edge {
        side,
        p: pixel_beside(shape, point, axis_of(side)),
    }
}

fn axis_of(side: Side) -> Axis
    ensures { result ≡ edge_spec.axis_of side }
{
    match side {
        Side::Left => Axis::Horizontal,
        Side::Right => Axis::Horizontal,
        Side::Up => Axis::Vertical,
        Side::Down => Axis::Vertical,
    }
}

/// Returns the pixel nearest to `point` on a side of an axis, counted from the side's first pixel.
fn pixel_beside(shape: &Shape, point: Point, axis: Axis) -> u32
    requires { IsScreenShape shape.now }
    ensures value { pos result ≡ edge_spec.pixel_along axis shape.now point.x point.y }
    ensures within { pos result <ℤ edge_spec.side_length axis shape.now }
{
    match axis {
        Axis::Horizontal => along(point.y, shape.y, shape.h),
        Axis::Vertical => along(point.x, shape.x, shape.w),
    }
}

/// Returns the nearest to `at` of `size` pixels from `first` on, counted from `first`.
fn along(at: i32, first: i32, size: i32) -> u32
    requires some { pos 1 ≤ℤ size }
    requires small { size ≤ℤ pos 32767 }
    requires from { negsuc 32767 ≤ℤ first }
    requires upto { (first +ℤ size) ≤ℤ pos 32768 }
    ensures value { pos result ≡ edge_spec.along at first size }
    ensures within { pos result <ℤ size }
{
    (at.clamp(first, first + size - 1) - first) as u32
}

/// Returns how many pixels a side of a shape has.
pub(crate) fn side_pixels(shape: &Shape, side: Side) -> u32
    requires { IsScreenShape shape.now }
    ensures value { result ≡ nat_abs (edge_spec.side_length (edge_spec.axis_of side) shape.now) }
    ensures counted { pos result ≡ edge_spec.side_length (edge_spec.axis_of side) shape.now }
    ensures few { result ≤ 32767 }
{
    match side {
        Side::Left | Side::Right => shape.h as u32,
        Side::Up | Side::Down => shape.w as u32,
    }
}

/// Returns the nearest to `at` of `size` pixels from `first` on.
fn nearest(at: i32, first: i32, size: i32) -> i32
    requires some { pos 1 ≤ℤ size }
    requires small { size ≤ℤ pos 32767 }
    requires from { negsuc 32767 ≤ℤ first }
    requires upto { (first +ℤ size) ≤ℤ pos 32768 }
    ensures value { result ≡ int_max first (int_min at ((first +ℤ size) -ℤ pos 1)) }
    ensures low { first ≤ℤ result }
    ensures high { result <ℤ (first +ℤ size) }
{
    at.clamp(first, first + size - 1)
}

/// Returns the last of `size` pixels from `first` on.
fn last(first: i32, size: i32) -> i32
    requires some { pos 1 ≤ℤ size }
    requires small { size ≤ℤ pos 32767 }
    requires from { negsuc 32767 ≤ℤ first }
    requires upto { (first +ℤ size) ≤ℤ pos 32768 }
    ensures { result ≡ (first +ℤ size) -ℤ pos 1 }
{
    first + size - 1
}

/// Returns the pixel at `t` millionths of `size` pixels from `first` on.
fn at_place(t: u32, first: i32, size: i32) -> i32
    requires in_the_side { t < 1000000 }
    requires some { pos 1 ≤ℤ size }
    requires small { size ≤ℤ pos 32767 }
    requires from { negsuc 32767 ≤ℤ first }
    requires upto { (first +ℤ size) ≤ℤ pos 32768 }
    ensures value { result ≡ (first +ℤ pos (pixel_of t (nat_abs size))) }
    ensures low { first ≤ℤ result }
    ensures high { result <ℤ (first +ℤ size) }
{
    first + pixel(t, size as u32) as i32
}
