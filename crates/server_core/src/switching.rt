//! A switch from one screen to another, and the fall back to the primary.

ghost use Rattle.std.specs.Prelude.{◌≡◌, ◌≤ℤ◌, pos, negsuc, OnOk};
ghost use Rattle.machine.specs.Targets.{Origin};
ghost use Rattle.machine.specs.Switching as switching;
ghost use Rattle.screen_crossing.specs.Points.{point_of, IsPixel};
ghost use Rattle.server_core.specs.Targets.{meant};
ghost use Rattle.server_core.specs.Leading.{Leads, LeadsAt};

use crate::cursor::Cursor;
use crate::server::ServerCore;
use crate::target::Target;
use message_codec::Msg;
use screen_crossing::{Point, middle};
use share_base::OutOfMemory;

// A coordinate of a pixel, as a message has it.
pub(crate) fn coordinate(n: i32) -> i16
    requires low { negsuc 32767 ≤ℤ n }
    requires high { n ≤ℤ pos 32767 }
    ensures { result ≡ n }
{
    n as i16
}

impl ServerCore {
    /// Tells the active screen that the cursor leaves it.
    pub(crate) fn tell_leaving(&mut self) -> Result<(), OutOfMemory>
        ensures { OnOk result (Leads self.old self.new switching.tell_leaving) }
    {
        self.route(self.active, &Msg::Leave)?;
        Ok(())
    }

    /// Makes a target that is there the active one, with the cursor at that point of its screen,
    /// and tells it so.
    pub(crate) fn tell_entering(&mut self, to: Target, point: Point) -> Result<(), OutOfMemory>
        requires { IsPixel point }
        ensures { OnOk result ((o : Origin) → LeadsAt (meant to)
            self.old self.new (switching.tell_entering o (meant to) (point_of point))) }
    {
        let message = Msg::Enter {
            x: coordinate(point.x),
            y: coordinate(point.y),
            seq: self.sequence.saturating_add(1),
            mask: self.pressed.toggles().0,
        };
        self.move_to(to, point);
        self.route(to, &message)?;
        Ok(())
    }

    /// Makes a target that is there the active one, with the cursor at that point of its screen,
    /// and resets the gate.
    pub(crate) fn move_to(&mut self, to: Target, point: Point)
        requires { IsPixel point }
        ensures { LeadsAt (meant to) self.old self.new
            (switching.at_screen (meant to) (point_of point)) }
    {
        self.active = to;
        self.cursor = Cursor::new(point);
        self.sequence = self.sequence.saturating_add(1);
        self.gate.reset();
    }

    /// Makes a target that is there the active one, with the cursor at that point of its screen. It
    /// is told so, and then sent the clipboards for which it is dirty.
    pub(crate) fn enter(&mut self, to: Target, point: Point) -> Result<(), OutOfMemory>
        requires { IsPixel point }
        ensures { OnOk result ((o : Origin) → LeadsAt (meant to)
            self.old self.new (switching.enter o (meant to) (point_of point))) }
    {
        self.tell_entering(to, point)?;
        self.refresh_both()?;
        Ok(())
    }

    /// Leaves the active screen for another target that is there, with the cursor at that point of
    /// its screen.
    pub(crate) fn switch(&mut self, to: Target, point: Point) -> Result<(), OutOfMemory>
        requires { IsPixel point }
        ensures { OnOk result ((o : Origin) → LeadsAt (meant to)
            self.old self.new (switching.switch o (meant to) (point_of point))) }
    {
        self.tell_leaving()?;
        self.enter(to, point)?;
        Ok(())
    }

    /// Makes the primary active, with the cursor at its middle. The screen that was active is lost
    /// and told nothing.
    pub(crate) fn fall_back(&mut self) -> Result<(), OutOfMemory>
        ensures { OnOk result (Leads self.old self.new switching.fall_back) }
    {
        let primary = self.primary_shape.shape();
        let point = middle(&primary);
        self.enter(Target::Primary, point)?;
        Ok(())
    }
}
