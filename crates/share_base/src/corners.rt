//! Corners of a screen that block its edges.

/// The corners of a screen at which its edges are blocked, and how far they reach.
#[derive(Clone, Copy, Debug, PartialEq, Eq)]
pub struct Corners {
    /// Which corners: top-left 1, top-right 2, bottom-left 4, bottom-right 8, added up.
    pub set: u8,
    /// How many pixels they reach along a side. At 0 no edge is blocked.
    pub size: u32,
}
