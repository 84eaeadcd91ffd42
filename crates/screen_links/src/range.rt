//! Parts of a side.

ghost use Rattle.std.specs.Prelude.{◌↔◌, IsTrue};
ghost use Rattle.screen_links.specs.Ranges.{IsGood, Meet};

/// Where a side ends, in hundredths of it.
pub const SIDE_END: u8 = 100;

/// A part of a screen's side, in hundredths of the side: from `a` on, and before `b`.
#[derive(Clone, Copy, Debug, PartialEq, Eq)]
pub struct Range {
    /// Where it begins.
    pub a: u8,
    /// The first hundredth after it, at most 100.
    pub b: u8,
}

impl Range {
    /// Whether it lies within a side and isn't empty: `a < b <= 100`.
    pub fn is_good(self) -> bool
        ensures { IsTrue result ↔ IsGood self }
    {
        self.a < self.b && self.b <= SIDE_END
    }

    /// Whether some hundredth lies in both.
    pub fn meets(self, other: Range) -> bool
        ensures { IsTrue result ↔ Meet self other }
    {
        self.a.max(other.a) < self.b.min(other.b)
    }
}
