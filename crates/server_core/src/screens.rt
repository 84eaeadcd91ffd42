//! Which connections are there, which screens are joined, who has them, and what shape they have.

ghost use Rattle.std.specs.Prelude.{◌<◌, IfSome};
ghost use Rattle.std.specs.Option.{option_map};
ghost use Rattle.share_base.specs.Shapes.{IsScreenShape};
ghost use Rattle.machine.specs.Targets.{Client, same_target};
ghost use Rattle.machine.specs.Screens as screens;
ghost use Rattle.machine.specs.Partings as partings;
ghost use Rattle.server_core.specs.Targets.{meant};
ghost use Rattle.server_core.specs.Shapes.{shape_joined};
ghost use Rattle.server_core.specs.Leading.{Reads};

use crate::server::ServerCore;
use crate::target::Target;
use share_base::{ScreenNo, Shape};

impl ServerCore {
    /// Tells whether the connection of that serial is there and isn't parting.
    pub(crate) fn lives(&self, serial: u64) -> bool
        ensures { Reads self.now result (λ s. screens.lives s serial) }
    {
        match self.table.get(serial) {
            Some(connection) => connection.is_live(),
            None => false,
        }
    }

    /// Returns the number of the primary screen, which is below 64.
    pub(crate) fn primary_screen(&self) -> ScreenNo
        ensures screen { Reads self.now result.0 (λ s. s.primary) }
        ensures bound { result.0 < 64 }
    {
        self.script.screen()
    }

    /// Returns the screen as which the connection of that serial is joined, a number below 64.
    pub(crate) fn screen_joined(&self, serial: u64) -> Option<ScreenNo>
        ensures screen { Reads self.now (option_map (λ n. n.0) result)
            (λ s. partings.screen_joined s serial) }
        ensures bound { IfSome result (λ n. n.0 < 64) }
    {
        match self.table.get(serial) {
            Some(connection) => connection.phase().joined_screen(),
            None => None,
        }
    }

    /// Returns the screen of a connection, a number below 64; if it isn't joined, the primary.
    pub(crate) fn client_screen(&self, serial: u64) -> ScreenNo
        ensures screen { Reads self.now result.0 (λ s. screens.screen_of s (Client serial)) }
        ensures bound { result.0 < 64 }
    {
        let Some(screen) = self.screen_joined(serial) else {
            return self.primary_screen();
        };
        screen
    }

    /// Returns the screen of a target, a number below 64; of a connection that isn't joined, the
    /// primary.
    pub(crate) fn screen_of(&self, target: Target) -> ScreenNo
        ensures screen { Reads self.now result.0 (λ s. screens.screen_of s (meant target)) }
        ensures bound { result.0 < 64 }
    {
        match target {
            Target::Primary => self.primary_screen(),
            Target::Client(serial) => self.client_screen(serial),
        }
    }

    /// Returns the shape of the screen as which the connection of that serial is joined.
    pub(crate) fn shape_joined(&self, serial: u64) -> Option<Shape>
        ensures shape { Reads self.now result (λ s. shape_joined s serial) }
        ensures screen { IfSome result IsScreenShape }
    {
        match self.table.get(serial) {
            Some(connection) => connection.phase().joined_shape(),
            None => None,
        }
    }

    /// Returns the shape of a connection's screen; if it isn't joined, that of the primary.
    pub(crate) fn client_shape(&self, serial: u64) -> Shape
        ensures shape { Reads self.now result (λ s. screens.shape_of s (Client serial)) }
        ensures screen { IsScreenShape result }
    {
        let Some(shape) = self.shape_joined(serial) else {
            return self.primary_shape.shape();
        };
        shape
    }

    /// Returns the shape of a target's screen; of a connection that isn't joined, that of the
    /// primary.
    pub(crate) fn shape_of(&self, target: Target) -> Shape
        ensures shape { Reads self.now result (λ s. screens.shape_of s (meant target)) }
        ensures screen { IsScreenShape result }
    {
        match target {
            Target::Primary => self.primary_shape.shape(),
            Target::Client(serial) => self.client_shape(serial),
        }
    }

    /// Returns who has a joined screen.
    pub(crate) fn target_of(&self, screen: ScreenNo) -> Option<Target>
        ensures { Reads self.now (option_map meant result) (λ s. screens.target_of s screen.0) }
    {
        let primary = self.primary_screen();
        if screen.0 == primary.0 {
            return Some(Target::Primary);
        }
        let Some(connection) = self.table.joined_as(screen) else {
            return None;
        };
        Some(Target::Client(connection.serial()))
    }

    /// Tells whether the connection of that serial is the active one.
    pub(crate) fn is_active(&self, serial: u64) -> bool
        ensures { Reads self.now result (λ s. same_target s.active (Client serial)) }
    {
        match self.active {
            Target::Client(active) => active == serial,
            Target::Primary => false,
        }
    }
}
