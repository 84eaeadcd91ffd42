//! What a screen tells of itself.

ghost use Rattle.std.specs.Prelude.{◌≡◌, IfSome};
ghost use Rattle.std.specs.Bool.{OnTrue};
ghost use Rattle.share_base.specs.Shapes.{IsScreenShape};
ghost use Rattle.hello_states.specs.Handshake.{is_span};
ghost use Rattle.hello_states.specs.Information.{shape_in, IsSpan};

use share_base::Shape;

/// The greatest width and height of a screen, in pixels.
const MOST_PIXELS: u16 = 32_767;

/// The end of the coordinates: one more than the greatest.
const COORDINATES_END: i32 = 32_768;

/// The fields of a screen's information (`DINF`), as they came.
#[derive(Clone, Copy, Debug, PartialEq, Eq)]
pub struct InfoFields {
    /// The screen's first column, in pixels.
    pub x: i16,
    /// The screen's first row, in pixels.
    pub y: i16,
    /// The screen's width, in pixels.
    pub w: u16,
    /// The screen's height, in pixels.
    pub h: u16,
    /// Obsolete.
    pub warp: u16,
    /// The cursor's column, in pixels. The server doesn't use it.
    pub mx: i16,
    /// The cursor's row, in pixels. The server doesn't use it.
    pub my: i16,
}

impl InfoFields {
    /// Returns the shape of the screen. `None` if no screen has such a shape: its width and its
    /// height are 1 to 32,767, and its last column and its last row are at most 32,767.
    pub fn shape(&self) -> Option<Shape>
        ensures told { result ≡ shape_in self.now }
        ensures screen { IfSome result IsScreenShape }
    {
        if !is_span(self.x, self.w) || !is_span(self.y, self.h) {
            return None;
        }
        Some(Shape {
            x: self.x as i32,
            y: self.y as i32,
            w: self.w as i32,
            h: self.h as i32,
        })
    }
}

/// Tells whether a screen may have that many pixels from the first one on.
fn is_span(first: i16, count: u16) -> bool
    ensures answer { result ≡ is_span first count }
    ensures span { OnTrue result (IsSpan first count) }
{
    count >= 1 && count <= MOST_PIXELS && first as i32 + count as i32 <= COORDINATES_END
}
