//! All links, in the order in which they were added.

ghost use Rattle.std.specs.Prelude.{◌≡◌, ◌<◌, ◌↔◌, IsTrue, IfSome, []};
ghost use Rattle.screen_links.specs.Adding.{Overlaps, Adds, link_of};
ghost use Rattle.screen_links.specs.Walks.{Lands, IsPlace};

use crate::link::{Landing, Link};
use crate::range::Range;
use crate::walk::walk;
use share_base::{MOST_SCREENS, ScreenNo, ScreenSet, Side};
use std::alloc::Global;
use std::marker::Model;

/// How many links are held at most.
pub const MOST_LINKS: usize = 1024;

/// Why a link was not added. The variants stand in the order in which they are looked for.
#[derive(Clone, Copy, Debug, PartialEq, Eq)]
pub enum LinkFault {
    /// `a < b <= 100` doesn't hold in one of the ranges.
    BadRange,
    /// A link of that side of that screen has a hundredth of that range.
    Overlap,
    /// 1,024 links are held.
    Full,
    /// Memory could not be had.
    OutOfMemory,
}

/// Links between screens, at most 1,024. Contracts see them as a list, in the order in which they
/// were added. On one side of a screen their ranges have no hundredth in common.
#[derive(Debug, Drop)]
pub struct Links {
    links: Vec<Link>,
}

impl Model for Links {
    ghost use Rattle.std.specs.Prelude.{List};
    ghost use Rattle.screen_links.specs.declared.link.Link.{Link as OneLink};
    ghost use Rattle.screen_links.specs.Apart.{AreSound};

    ghost Value = { List OneLink };

    ghost view = { λ l. l.links.items };

    ghost invariant = { λ l. AreSound l.links.items };
}

impl Links {
    /// No links. Later calls take their memory from `alloc`; this one takes none.
    pub fn new(alloc: Global) -> Links
        ensures { result ≡ [] }
    {
        Links {
            links: Vec::new(alloc),
        }
    }

    /// Adds a link after the others. The numbers of the screens are below 64. After a fault the
    /// links are unchanged.
    pub fn add(
        &mut self,
        from: ScreenNo,
        side: Side,
        range: Range,
        to: ScreenNo,
        onto: Range,
    ) -> Result<(), LinkFault>
        requires leaves_a_screen { from.0 < MOST_SCREENS }
        requires enters_a_screen { to.0 < MOST_SCREENS }
        ensures { Adds result self.old (link_of from side range to onto) self.new }
    {
        if !range.is_good() || !onto.is_good() {
            return Err(LinkFault::BadRange);
        }
        if overlaps(self.links.as_slice(), from, side, range) {
            return Err(LinkFault::Overlap);
        }
        if self.links.len() >= MOST_LINKS {
            return Err(LinkFault::Full);
        }
        let link = Link {
            from,
            side,
            range,
            to,
            onto,
        };
        match self.links.push(link) {
            Ok(()) => Ok(()),
            Err(_) => Err(LinkFault::OutOfMemory),
        }
    }

    /// The landing of a walk: the place on the first joined screen that a chain of links of that
    /// side leads to, from the place `t` of that side of a screen. The screen's number and those in
    /// `joined` are below 64, and `t` is below 1,000,000. `None` if no chain leads to a joined
    /// screen. It takes no memory and follows at most 64 links.
    pub fn across(&self, joined: &ScreenSet, from: ScreenNo, side: Side, t: u32) -> Option<Landing>
        requires from_a_screen { from.0 < MOST_SCREENS }
        requires in_the_side { t < 1000000 }
        ensures walks { Lands self.now joined.now side (record { screen = from; t = t }) result }
        ensures within { IfSome result IsPlace }
    {
        let at = Landing { screen: from, t };
        walk(self.links.as_slice(), joined, side, at)
    }

    /// The links, in the order in which they were added.
    pub fn as_slice(&self) -> &[Link]
        ensures { result.now ≡ self.now }
    {
        self.links.as_slice()
    }
}

fn overlaps(links: &[Link], from: ScreenNo, side: Side, range: Range) -> bool
    ensures { IsTrue result ↔ Overlaps links.now from side range }
{
    links.iter().any(|link| link.blocks(from, side, range))
}
