//! Laws of walks and places. The calls do nothing: their contracts are the laws.

ghost use Rattle.std.specs.Prelude.{◌≡◌, ◌<◌, ◌≤◌, List, ℕ};
ghost use Rattle.share_base.specs.declared.shape.Side.{Side as OneSide};
ghost use Rattle.screen_links.specs.declared.link.Link.{Link as OneLink};
ghost use Rattle.screen_links.specs.declared.link.Landing.{Landing as Place};
ghost use Rattle.screen_links.specs.Apart.{AreApart, AreSound};
ghost use Rattle.screen_links.specs.Places.{place_of, pixel_of};
ghost use Rattle.screen_links.specs.Walks.{Across, Lands};
ghost use Rattle.screen_links.specs.Landings.{landing_across};
ghost use Rattle.share_base.specs.Screens.{has};

/// A walk over links that are apart has at most one landing.
pub fn one_landing()
    ensures { (links : List OneLink) (joined : ℕ) (side : OneSide) (at one other : Place)
        → AreApart links
        → Across links joined side at one → Across links joined side at other → one ≡ other }
{}

/// The pixel of a pixel's place is that pixel.
pub fn pixel_again()
    ensures { (p n : ℕ) → p < n → n ≤ 32767 → pixel_of (place_of p n) n ≡ p }
{}

/// The landing that is computed is that of the walk, and none is computed if no walk has one.
pub fn landing_is_across()
    ensures { (links : List OneLink) (joined : ℕ) (side : OneSide) (at : Place) → AreSound links
        → at.screen.0 < 64
        → Lands links joined side at (landing_across links (has joined) side at) }
{}
