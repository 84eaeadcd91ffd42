//! Where the cursor is.

ghost use Rattle.std.specs.Prelude.{◌≡◌};
ghost use Rattle.screen_crossing.specs.Points.{IsPixel};

use screen_crossing::Point;
use std::marker::Model;

/// The cursor, at a point whose coordinates are of two bytes. Contracts see the point.
#[derive(Drop)]
pub struct Cursor {
    point: Point,
}

impl Model for Cursor {
    ghost use Rattle.screen_crossing.specs.declared.point.Point.{Point as OnePoint};
    ghost use Rattle.screen_crossing.specs.Points.{IsPixel};

    ghost Value = { OnePoint };

    ghost view = { λ c. c.point };

    ghost invariant = { λ c. IsPixel c.point };
}

impl Cursor {
    /// The cursor at a pixel.
    pub fn new(point: Point) -> Cursor
        requires { IsPixel point }
        ensures { result ≡ point }
    {
        Cursor { point }
    }

    /// The point, which is a pixel.
    pub fn point(&self) -> Point
        ensures point { result ≡ self.now }
        ensures pixel { IsPixel result }
    {
        self.point
    }
}
