//! A screen's information: with it a connection joins, and a joined screen has another shape.

ghost use Rattle.std.specs.Prelude.{◌≡◌, ◌<◌, [], ◌∷◌, Some, length, OnOk};
ghost use Rattle.share_base.specs.Shapes.{IsScreenShape};
ghost use Rattle.hello_states.specs.Handshake.{asked_after_info, joined_after_info};
ghost use Rattle.hello_states.specs.Information.{shape_in};
ghost use Rattle.hello_states.specs.Phases.{Asked, AskedScreen};
ghost use Rattle.machine.specs.Targets.{Client, same_target};
ghost use Rattle.machine.specs.Connections.{advanced};
ghost use Rattle.machine.specs.States.{Join};
ghost use Rattle.machine.specs.Combining.{when};
ghost use Rattle.machine.specs.Screens.{change, phase_of};
ghost use Rattle.machine.specs.Routing.{logs};
ghost use Rattle.machine.specs.Clipboards as clipboards;
ghost use Rattle.machine.specs.Information as information;
ghost use Rattle.server_core.specs.Targets.{IsThere};
ghost use Rattle.server_core.specs.Leading.{Leads, LeadsWhere};
ghost use Rattle.server_core.specs.Hearing.{LeadsAsked, LeadsHeard};
ghost use Rattle.server_core.specs.Joining as joining;

use crate::server::ServerCore;
use crate::target::Target;
use hello_states::{InfoFields, PartCause};
use message_codec::Msg;
use screen_crossing::clamped;
use share_base::{OutOfMemory, ScreenNo, Shape, Words32};

impl ServerCore {
    /// Hears the first information of the screen as which a connection was admitted: it joins with
    /// that shape, or parts, for one that no screen has.
    pub(crate) fn hear_first_info(
        &mut self,
        serial: u64,
        screen: ScreenNo,
        info: &InfoFields,
    ) -> Result<(), OutOfMemory>
        requires { screen.0 < 64 }
        ensures { OnOk result (LeadsAsked serial screen.0 self.old self.new
            (λ asked. information.hear_first_info asked (shape_in info.now) serial)) }
    {
        let Some(shape) = info.shape() else {
            self.part(PartCause::Size, serial)?;
            return Ok(());
        };
        self.join(serial, screen, shape)?;
        Ok(())
    }

    // Joins a connection as that screen, with that shape, and tells it the screen's options.
    fn join(&mut self, serial: u64, screen: ScreenNo, shape: Shape) -> Result<(), OutOfMemory>
        requires screen { screen.0 < 64 }
        requires shape { IsScreenShape shape }
        ensures { OnOk result (LeadsAsked serial screen.0 self.old self.new
            (λ asked. information.join asked shape serial)) }
    {
        self.dirty_clips(screen);
        self.come_in(serial, shape);
        self.log_join(serial, screen)?;
        self.tell_options(serial, screen)?;
        Ok(())
    }

    // A screen that joins is dirty for the clipboards that are known.
    fn dirty_clips(&mut self, screen: ScreenNo)
        requires { screen.0 < 64 }
        ensures { Leads self.old self.new (clipboards.clips_joined screen.0) }
    {
        self.clips.joined(screen);
    }

    // The connection is joined with that shape.
    fn come_in(&mut self, serial: u64, shape: Shape)
        requires { IsScreenShape shape }
        ensures { (asked : AskedScreen) → LeadsWhere (λ s. phase_of s serial ≡ Some (Asked asked))
            self.old self.new
            (λ s. change serial (advanced (asked_after_info (Some shape) s.at asked)) s) }
    {
        self.table.join(serial, shape, self.at.moment());
    }

    // Logs that a connection joined as a screen of the configuration.
    fn log_join(&mut self, serial: u64, screen: ScreenNo) -> Result<(), OutOfMemory>
        ensures { OnOk result
            (LeadsWhere (λ s. screen.0 < length s.config.screens) self.old self.new
            (λ s. logs (Join serial (information.name_of s screen.0) ∷ []) s)) }
    {
        if screen.0 >= self.config.count() {
            return Ok(());
        }
        self.log.joined(serial, self.config.name(screen))?;
        Ok(())
    }

    // Acknowledges the information of a screen of the configuration, and tells its options.
    fn tell_options(&mut self, serial: u64, screen: ScreenNo) -> Result<(), OutOfMemory>
        ensures { OnOk result (LeadsWhere
            (λ s. IsThere s (Client serial) × (screen.0 < length s.config.screens))
            self.old self.new (joining.tell_options serial screen.0)) }
    {
        if screen.0 >= self.config.count() {
            return Ok(());
        }
        let alloc = self.config.alloc();
        let mut words = Words32::new(alloc);
        self.config.wire_options(alloc, screen, &mut words)?;
        let target = Target::Client(serial);
        self.route(target, &Msg::InfoAck)?;
        self.route(target, &Msg::ResetOptions)?;
        self.route(target, &Msg::SetOptions { words })?;
        Ok(())
    }

    /// Hears a further information of a joined screen, which was counted as heard: the screen has
    /// that shape, in which the cursor stays where it is there; or the connection parts, for a
    /// shape that no screen has.
    pub(crate) fn hear_later_info(
        &mut self,
        serial: u64,
        info: &InfoFields,
    ) -> Result<(), OutOfMemory>
        ensures { OnOk result (LeadsHeard serial self.old self.new
            (λ joined. information.hear_later_info joined (shape_in info.now) serial)) }
    {
        let Some(shape) = info.shape() else {
            self.part(PartCause::Size, serial)?;
            return Ok(());
        };
        self.reshape(serial, shape)?;
        Ok(())
    }

    // The screen of a joined connection has another shape.
    fn reshape(&mut self, serial: u64, shape: Shape) -> Result<(), OutOfMemory>
        requires { IsScreenShape shape }
        ensures { OnOk result (LeadsHeard serial self.old self.new
            (λ joined. information.reshape joined shape serial)) }
    {
        self.put_shape(serial, shape);
        self.route(Target::Client(serial), &Msg::InfoAck)?;
        self.keep_inside(serial, shape);
        Ok(())
    }

    fn put_shape(&mut self, serial: u64, shape: Shape)
        requires { IsScreenShape shape }
        ensures { LeadsHeard serial self.old self.new
            (λ joined s. change serial (advanced (joined_after_info (Some shape) s.at joined)) s) }
    {
        self.table.reshape(serial, shape, self.at.moment());
    }

    // Where the cursor is at a connection's screen, it stays inside of that shape.
    fn keep_inside(&mut self, serial: u64, shape: Shape)
        requires { IsScreenShape shape }
        ensures { Leads self.old self.new (λ s. when (same_target s.active (Client serial))
            (information.clamp_cursor shape) s) }
    {
        if !self.is_active(serial) {
            return;
        }
        let inside = clamped(&shape, self.cursor.point());
        self.put_cursor(inside);
    }
}
