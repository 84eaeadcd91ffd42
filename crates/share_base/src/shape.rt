//! Places on screens.

/// A side of a screen, and the direction towards it.
#[derive(Clone, Copy, Debug, PartialEq, Eq)]
pub enum Side {
    /// The left side.
    Left,
    /// The right side.
    Right,
    /// The upper side.
    Up,
    /// The lower side.
    Down,
}

/// A screen's place and size, in pixels: its first column and row, its width and its height.
#[derive(Clone, Copy, Debug, PartialEq, Eq)]
pub struct Shape {
    /// The first column, at least -32,768.
    pub x: i32,
    /// The first row, at least -32,768.
    pub y: i32,
    /// The width, 1 to 32,767. `x + w` is at most 32,768.
    pub w: i32,
    /// The height, 1 to 32,767. `y + h` is at most 32,768.
    pub h: i32,
}
