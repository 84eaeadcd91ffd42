//! Motions of the mouse: the cursor moves on its screen, or goes to another one.

ghost use Rattle.std.specs.Prelude.{ℕ, OnOk};
ghost use Rattle.machine.specs.Routes as routes;
ghost use Rattle.machine.specs.Events as events;
ghost use Rattle.screen_crossing.specs.Points.{point_of};
ghost use Rattle.server_core.specs.Leading.{Leads, Reads};
ghost use Rattle.server_core.specs.Passing.{stays_near};

use crate::server::ServerCore;
use crate::switching::coordinate;
use crate::target::Target;
use message_codec::Msg;
use screen_crossing::{Point, clamped};
use share_base::OutOfMemory;

impl ServerCore {
    /// The mouse moves by `dx` columns to the right and `dy` rows down. A client with the cursor
    /// locked to it may be told only that; else the cursor moves.
    pub(crate) fn motion(&mut self, dx: i16, dy: i16) -> Result<(), OutOfMemory>
        ensures { OnOk result ((number : ℕ) → Leads self.old self.new
            (events.motion number dx dy)) }
    {
        if self.moves_by() {
            self.move_by(dx, dy)?;
            return Ok(());
        }
        self.move_cursor(dx, dy)?;
        Ok(())
    }

    /// Tells whether the active screen is told only how far the mouse moves: a client with the
    /// cursor locked to it, where the configuration asks for that.
    fn moves_by(&self) -> bool
        ensures { Reads self.now result routes.moves_by }
    {
        let is_asked_for = self.config.globals().relative_mouse_moves;
        let is_client = matches!(self.active, Target::Client(_));
        is_client && self.is_locked && is_asked_for
    }

    /// Tells the active screen how far the mouse moves. The cursor stays where it is.
    fn move_by(&mut self, dx: i16, dy: i16) -> Result<(), OutOfMemory>
        ensures { OnOk result ((number : ℕ) → Leads self.old self.new
            (events.move_by number dx dy)) }
    {
        self.hear_away();
        self.route(self.active, &Msg::MoveBy { dx, dy })?;
        Ok(())
    }

    /// Moves the cursor: through the first way out that leads to its new point if the gate lets it
    /// pass, and else as near to that point as it may go on its screen.
    fn move_cursor(&mut self, dx: i16, dy: i16) -> Result<(), OutOfMemory>
        ensures { OnOk result ((number : ℕ) → Leads self.old self.new (events.move number dx dy)) }
    {
        let point = self.cursor.point().moved(dx, dy);
        let Some(way) = self.first_way(point) else {
            self.hear_away();
            self.stay_near(point)?;
            return Ok(());
        };
        if self.ask_gate(way.side) {
            self.go_through(way)?;
            return Ok(());
        }
        self.stay_near(point)?;
        Ok(())
    }

    /// Moves the cursor to the pixel of the active screen that is nearest to a point, and tells
    /// that screen so.
    fn stay_near(&mut self, point: Point) -> Result<(), OutOfMemory>
        ensures { OnOk result ((number : ℕ) → Leads self.old self.new
            (stays_near number (point_of point))) }
    {
        let shape = self.shape_of(self.active);
        let pixel = clamped(&shape, point);
        self.put_cursor(pixel);
        let message = Msg::MoveTo {
            x: coordinate(pixel.x),
            y: coordinate(pixel.y),
        };
        self.route(self.active, &message)?;
        Ok(())
    }
}
