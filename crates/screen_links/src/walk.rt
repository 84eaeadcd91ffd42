//! The walk over links.

ghost use Rattle.std.specs.Prelude.{IfSome, IfNone, Contains};
ghost use Rattle.screen_links.specs.Apart.{AreSound};
ghost use Rattle.screen_links.specs.Walks.{Lands, IsPlace, Leaves};
ghost use Rattle.screen_links.specs.declared.link.Link.{Link as OneLink};

use crate::link::{Landing, Link};
use share_base::{ScreenSet, Side};

/// The landing of the walk from a place on a side. Each screen on the way is kept, and the walk
/// gives up where it comes to one again, so it follows at most 64 links.
pub(crate) fn walk(links: &[Link], joined: &ScreenSet, side: Side, from: Landing) -> Option<Landing>
    requires sound { AreSound links.now }
    requires place { IsPlace from }
    ensures walks { Lands links.now joined.now side from result }
    ensures within { IfSome result IsPlace }
{
    let mut seen = ScreenSet::new();
    seen.insert(from.screen);
    let mut at = from;
    while let Some(link) = link_at(links, side, at) {
        if seen.has(link.to) {
            return None;
        }
        at = link.landing(at.t);
        if joined.has(link.to) {
            return Some(at);
        }
        seen.insert(link.to);
    }
    None
}

/// The first link of that side that holds at a place.
fn link_at(links: &[Link], side: Side, at: Landing) -> Option<Link>
    ensures found { IfSome result (λ link. Contains links.now link × Leaves link side at) }
    ensures none { IfNone result
        ((link : OneLink) → Contains links.now link → Leaves link side at → ⊥) }
{
    links.iter().find(|link| link.leaves(side, at)).copied()
}
