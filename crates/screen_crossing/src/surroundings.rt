//! The surroundings of the cursor, and the ways out of its screen.

ghost use Rattle.std.specs.Prelude.{◌≡◌, pos, ◌<ℤ◌, IfSome};
ghost use Rattle.screen_links.specs.Walks.{IsPlace};
ghost use Rattle.edge_cross.specs.Edges.{axis_of, side_length};
ghost use Rattle.screen_config.specs.Globals.{corners_of};
ghost use Rattle.machine.specs.States.{State};
ghost use Rattle.machine.specs.Edges as edges;
ghost use Rattle.machine.specs.Edges.{edge_at_cursor};
ghost use Rattle.screen_crossing.specs.Points.{point_of};
ghost use Rattle.screen_crossing.specs.Ways.{ways_of};
ghost use Rattle.screen_crossing.specs.Showing.{Shows, IsPlaced};

use crate::point::{Point, edge_at, side_pixels};
use crate::way::Way;
use edge_cross::{Axis, Edge, in_corner, leaves};
use modifier_map::ModClass;
use option_table::OptionName;
use screen_config::Config;
use screen_links::{Landing, place};
use share_base::{Corners, Mask, ScreenNo, ScreenSet, Shape, Side};

/// No edge is crossed at this sequence number, so that it never has to rise.
const LAST_SEQUENCE: u32 = 4_294_967_295;

/// What decides whether a motion leaves the active screen, beside the configuration. No method
/// allocates.
#[derive(Clone, Copy, Debug, PartialEq, Eq)]
pub struct Surroundings {
    /// The active screen.
    pub screen: ScreenNo,
    /// Its shape.
    pub shape: Shape,
    /// The cursor, on the active screen.
    pub cursor: Point,
    /// The screens that are joined, the primary one among them.
    pub joined: ScreenSet,
    /// Whether the cursor is locked to the active screen.
    pub is_locked: bool,
    /// The sequence number of the latest switch.
    pub sequence: u32,
    /// Whether a button of the mouse is down.
    pub has_mouse_down: bool,
    /// The modifiers of the keys that are down.
    pub mods: Mask,
}

impl Surroundings {
    /// Returns the first way out that leads to `point`: past the left or right side, or else past
    /// the upper or lower one. `None` if the point lies inside the screen, or if no side that it
    /// has passed is open and leads to a joined screen.
    pub fn first_way(&self, config: &Config, point: Point) -> Option<Way>
        requires { IsPlaced self.now }
        ensures way { (s : State) → Shows self.now config.now s
            → ways_of result ≡ edges.first_way s (point_of point) }
        ensures within { IfSome result (λ w. IsPlace w.landing) }
    {
        match self.way_on(config, point, Axis::Horizontal) {
            Some(way) => Some(way),
            None => self.way_on(config, point, Axis::Vertical),
        }
    }

    /// Returns the way out on `side` at the cursor. `None` if the edge is blocked or leads to no
    /// joined screen.
    pub fn way_at_cursor(&self, config: &Config, side: Side) -> Option<Way>
        requires { IsPlaced self.now }
        ensures way { (s : State) → Shows self.now config.now s
            → ways_of result ≡ edges.way s (edge_at_cursor s side) }
        ensures within { IfSome result (λ w. IsPlace w.landing) }
    {
        self.way_at(config, edge_at(&self.shape, self.cursor, side))
    }

    /// Returns the way out at an edge, whose pixel is below the side's length. `None` if the edge
    /// is blocked or leads to no joined screen.
    pub fn way_at(&self, config: &Config, edge: Edge) -> Option<Way>
        requires placed { IsPlaced self.now }
        requires within { pos edge.p <ℤ side_length (axis_of edge.side) self.now.shape }
        ensures way { (s : State) → Shows self.now config.now s
            → ways_of result ≡ edges.way s edge }
        ensures within { IfSome result (λ w. IsPlace w.landing) }
    {
        if self.is_blocked(config, edge) {
            return None;
        }
        match self.landing(config, edge) {
            Some(landing) => Some(Way {
                side: edge.side,
                landing,
            }),
            None => None,
        }
    }

    /// Returns where the edge on `side` at the cursor leads, past screens that aren't joined, even
    /// where it is blocked. `None` if it leads to no joined screen.
    pub fn landing_at_cursor(&self, config: &Config, side: Side) -> Option<Landing>
        requires { IsPlaced self.now }
        ensures landing { (s : State) → Shows self.now config.now s
            → result ≡ edges.landing s (edge_at_cursor s side) }
        ensures within { IfSome result IsPlace }
    {
        self.landing(config, edge_at(&self.shape, self.cursor, side))
    }

    /// Returns whether an edge is blocked: by the lock, at the last sequence number, by a button of
    /// the mouse that is down, by a corner, or by a modifier that isn't held.
    pub fn is_blocked(&self, config: &Config, edge: Edge) -> bool
        requires { IsPlaced self.now }
        ensures { (s : State) → Shows self.now config.now s
            → result ≡ edges.is_blocked s edge }
    {
        let is_last = self.sequence == LAST_SEQUENCE;
        let at_corner = self.is_at_corner(config, edge);
        let lacks_modifier = self.lacks_modifier(config);
        self.is_locked || is_last || self.has_mouse_down || at_corner || lacks_modifier
    }

    fn way_on(&self, config: &Config, point: Point, axis: Axis) -> Option<Way>
        requires { IsPlaced self.now }
        ensures way { (s : State) → Shows self.now config.now s
            → ways_of result ≡ edges.way_on s (point_of point) axis }
        ensures within { IfSome result (λ w. IsPlace w.landing) }
    {
        match leaves(&self.shape, point.x, point.y, axis) {
            Some(edge) => self.way_at(config, edge),
            None => None,
        }
    }

    fn is_at_corner(&self, config: &Config, edge: Edge) -> bool
        requires { IsPlaced self.now }
        ensures { (s : State) → Shows self.now config.now s
            → result ≡ edges.is_at_corner s edge }
    {
        in_corner(
            self.corners(config),
            edge.side,
            edge.p,
            side_pixels(&self.shape, edge.side),
        )
    }

    /// Returns the corners of the screen; of one that the configuration doesn't have, those for all
    /// screens.
    fn corners(&self, config: &Config) -> Corners
        ensures { result ≡ corners_of config.now self.now.screen.0 }
    {
        if self.screen.0 < config.count() {
            return config.corners(self.screen);
        }
        let globals = config.globals();
        Corners {
            set: globals.switch_corners,
            size: globals.switch_corner_size,
        }
    }

    fn lacks_modifier(&self, config: &Config) -> bool
        ensures { (s : State) → Shows self.now config.now s → result ≡ edges.lacks_modifier s }
    {
        let shift = self.lacks(config, OptionName::SwitchNeedsShift, ModClass::Shift);
        let control = self.lacks(config, OptionName::SwitchNeedsControl, ModClass::Control);
        let alt = self.lacks(config, OptionName::SwitchNeedsAlt, ModClass::Alt);
        shift || control || alt
    }

    /// Returns whether an option asks for a modifier that isn't held.
    fn lacks(&self, config: &Config, option: OptionName, class: ModClass) -> bool
        ensures { (s : State) → Shows self.now config.now s → result ≡ edges.lacks s option class }
    {
        let is_needed = config.settings().value(option) == 1;
        let is_held = self.mods.0 & class.row().bit != 0;
        is_needed && !is_held
    }

    /// Returns where an edge leads, past screens that aren't joined.
    fn landing(&self, config: &Config, edge: Edge) -> Option<Landing>
        requires placed { IsPlaced self.now }
        requires within { pos edge.p <ℤ side_length (axis_of edge.side) self.now.shape }
        ensures landing { (s : State) → Shows self.now config.now s
            → result ≡ edges.landing s edge }
        ensures within { IfSome result IsPlace }
    {
        config.assure_sound();
        let t = place(edge.p, side_pixels(&self.shape, edge.side));
        config
            .links()
            .across(&self.joined, self.screen, edge.side, t)
    }
}
