//! One link, and where it leads.

ghost use Rattle.std.specs.Prelude.{◌≡◌, ◌<◌, ◌↔◌, IsTrue};
ghost use Rattle.screen_links.specs.Adding.{Blocks, HasGoodRanges};
ghost use Rattle.screen_links.specs.Walks.{Holds, Leaves, landing_of};

use crate::range::Range;
use share_base::{ScreenNo, Side};

/// A part of one screen's side that leads to a part of another screen's facing side.
#[derive(Clone, Copy, Debug, PartialEq, Eq)]
pub struct Link {
    /// The screen that is left.
    pub from: ScreenNo,
    /// The side on which it is left.
    pub side: Side,
    /// The part of that side.
    pub range: Range,
    /// The screen that is entered.
    pub to: ScreenNo,
    /// The part of its facing side.
    pub onto: Range,
}

/// A place on the facing side of a screen.
#[derive(Clone, Copy, Debug, PartialEq, Eq)]
pub struct Landing {
    /// The screen.
    pub screen: ScreenNo,
    /// How far along the side, in millionths of it: below 1,000,000.
    pub t: u32,
}

impl Link {
    /// Whether it stands on that side of that screen with a hundredth of that range.
    pub fn blocks(&self, from: ScreenNo, side: Side, range: Range) -> bool
        ensures { IsTrue result ↔ Blocks self.now from side range }
    {
        self.from == from && self.side == side && self.range.meets(range)
    }

    /// Whether it stands on that side of that screen, and its range has that place of it.
    pub fn leaves(&self, side: Side, at: Landing) -> bool
        ensures { IsTrue result ↔ Leaves self.now side at }
    {
        self.from == at.screen
            && self.side == side
            && 10_000 * self.range.a as u32 <= at.t
            && at.t < 10_000 * self.range.b as u32
    }

    /// Where it leads from a place in its range: as far along the one range as the place is along
    /// the other.
    pub fn landing(&self, t: u32) -> Landing
        requires good { HasGoodRanges self.now }
        requires holds { Holds self.now t }
        ensures lands { result ≡ landing_of self.now t }
        ensures bound { result.t < 1000000 }
    {
        let Range { a, b } = self.range;
        let onto = self.onto;
        let along = t - 10_000 * a as u32;
        let moved = along * (onto.b - onto.a) as u32 / (b - a) as u32;
        Landing {
            screen: self.to,
            t: 10_000 * onto.a as u32 + moved,
        }
    }
}
