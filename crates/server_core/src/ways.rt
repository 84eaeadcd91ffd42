//! The ways out of the active screen, and where they lead.

ghost use Rattle.std.specs.Prelude.{◌<◌, IfSome, OnOk};
ghost use Rattle.screen_links.specs.Walks.{IsPlace};
ghost use Rattle.machine.specs.Targets.{Origin};
ghost use Rattle.machine.specs.Screens.{shape_of};
ghost use Rattle.machine.specs.Edges as edges;
ghost use Rattle.machine.specs.Crossing as crossing;
ghost use Rattle.screen_crossing.specs.Points.{point_of, IsPixel};
ghost use Rattle.screen_crossing.specs.Ways.{way_of, ways_of};
ghost use Rattle.screen_crossing.specs.Showing.{IsPlaced};
ghost use Rattle.server_core.specs.Targets.{meant};
ghost use Rattle.server_core.specs.Leading.{Leads, Reads};
ghost use Rattle.server_core.specs.Around.{AreAround};
ghost use Rattle.server_core.specs.Passing.{holder, goes_through};

use crate::server::ServerCore;
use crate::target::Target;
use screen_crossing::{Point, Surroundings, Way, entry_point};
use screen_links::Landing;
use share_base::{OutOfMemory, ScreenNo, Side};

impl ServerCore {
    /// Returns what decides whether a motion leaves the active screen.
    fn surroundings(&self) -> Surroundings
        ensures around { AreAround self.now result }
        ensures placed { IsPlaced result }
    {
        Surroundings {
            screen: self.screen_of(self.active),
            shape: self.shape_of(self.active),
            cursor: self.cursor.point(),
            joined: self.joined_screens(),
            is_locked: self.is_locked,
            sequence: self.sequence,
            has_mouse_down: self.pressed.has_mouse_down(),
            mods: self.pressed.mods(),
        }
    }

    /// Returns the first way out that leads to `point`. `None` if none does.
    pub(crate) fn first_way(&self, point: Point) -> Option<Way>
        ensures way { Reads self.now (ways_of result) (λ s. edges.first_way s (point_of point)) }
        ensures within { IfSome result (λ w. IsPlace w.landing) }
    {
        self.surroundings().first_way(&self.config, point)
    }

    /// Returns the way out on `side` at the cursor. `None` if the edge is blocked or leads to no
    /// joined screen.
    pub(crate) fn way_at_cursor(&self, side: Side) -> Option<Way>
        ensures way { Reads self.now (ways_of result)
            (λ s. edges.way s (edges.edge_at_cursor s side)) }
        ensures within { IfSome result (λ w. IsPlace w.landing) }
    {
        self.surroundings().way_at_cursor(&self.config, side)
    }

    /// Returns where the edge on `side` at the cursor leads, even where it is blocked. `None` if it
    /// leads to no joined screen.
    pub(crate) fn landing_at(&self, side: Side) -> Option<Landing>
        ensures landing { Reads self.now result
            (λ s. edges.landing s (edges.edge_at_cursor s side)) }
        ensures within { IfSome result IsPlace }
    {
        self.surroundings().landing_at_cursor(&self.config, side)
    }

    /// Returns the point at which the cursor enters a target's screen when it has left another one
    /// on `side`, at `t` millionths of the facing side. `t` is below 1,000,000.
    pub(crate) fn entry_at(&self, side: Side, target: Target, t: u32) -> Point
        requires { t < 1000000 }
        ensures point { Reads self.now (point_of result)
            (λ s. crossing.entry_point side (shape_of s (meant target)) t) }
        ensures pixel { IsPixel result }
    {
        let shape = self.shape_of(target);
        entry_point(side, &shape, t)
    }

    /// Returns who has a screen; the primary if nobody is joined as it.
    fn holder(&self, screen: ScreenNo) -> Target
        ensures { Reads self.now (meant result) (λ s. holder s screen.0) }
    {
        match self.target_of(screen) {
            Some(target) => target,
            None => Target::Primary,
        }
    }

    /// Leaves the active screen through a way out, whose place is below 1,000,000.
    pub(crate) fn go_through(&mut self, way: Way) -> Result<(), OutOfMemory>
        requires { IsPlace way.landing }
        ensures { OnOk result ((o : Origin) → Leads self.old self.new
            (goes_through o (way_of way))) }
    {
        let to = self.holder(way.landing.screen);
        let point = self.entry_at(way.side, to, way.landing.t);
        self.switch(to, point)?;
        Ok(())
    }
}
