//! What goes to all joined screens: copies of the script, and the screen saver.

ghost use Rattle.std.specs.Prelude.{◌≡◌, ◌≤◌, length, OnOk, if◌then◌else◌};
ghost use Rattle.message_codec.specs.Spelling.{body_of};
ghost use Rattle.wire_frames.specs.declared.limits.TheConstants.{BODY_LIMIT};
ghost use Rattle.machine.specs.Targets.{Own};
ghost use Rattle.machine.specs.Screens.{joined_clients};
ghost use Rattle.machine.specs.Routing.{route_all};
ghost use Rattle.machine.specs.Clipboards as clipboards;
ghost use Rattle.machine.specs.Running as running;
ghost use Rattle.server_core.specs.Leading.{Leads};
ghost use Rattle.server_core.specs.Telling.{tell_at};

use crate::server::ServerCore;
use crate::target::Target;
use message_codec::Msg;
use share_base::{ClipId, OutOfMemory};

// 1 where the screen saver begins, 0 where it ends.
fn marked(on: bool) -> u8
    ensures { result ≡ if on then 1 else 0 }
{
    if on { 1 } else { 0 }
}

impl ServerCore {
    /// The script copies bytes to a clipboard. Where clipboards are shared and there aren't too
    /// many bytes, they become the clipboard's, every joined connection is told so, and the active
    /// screen is sent them.
    pub(crate) fn copy(&mut self, clip: ClipId, bytes: &[u8]) -> Result<(), OutOfMemory>
        ensures { OnOk result (Leads self.old self.new (clipboards.copy clip bytes.now)) }
    {
        if !self.config.globals().clipboard_sharing {
            return Ok(());
        }
        let joined = self.joined_screens();
        let counts = self.clips.copied(clip, bytes, self.sequence, &joined)?;
        if !counts {
            return Ok(());
        }
        self.tell_joined(&Msg::Grab { clip, seq: 0 })?;
        self.refresh(clip)?;
        Ok(())
    }

    /// The screen saver begins or ends: where the savers of all screens do so together, each of
    /// them is told, the primary first.
    pub(crate) fn save(&mut self, on: bool) -> Result<(), OutOfMemory>
        ensures { OnOk result (Leads self.old self.new (running.save on)) }
    {
        if !self.config.globals().screen_saver_sync {
            return Ok(());
        }
        let message = Msg::Saver { on: marked(on) };
        self.route(Target::Primary, &message)?;
        self.tell_joined(&message)?;
        Ok(())
    }

    /// Tells every joined connection a message, by rising serial.
    pub(crate) fn tell_joined(&mut self, message: &Msg) -> Result<(), OutOfMemory>
        requires { length (body_of message.now) ≤ BODY_LIMIT }
        ensures { OnOk result (Leads self.old self.new
            (λ s. route_all Own (joined_clients s) message.now s)) }
    {
        let most = self.table.as_slice().len();
        for index in 0..most {
            self.tell_if_joined(index, message)?;
        }
        Ok(())
    }

    // Tells the connection at that index a message, if it is joined.
    fn tell_if_joined(&mut self, index: usize, message: &Msg) -> Result<(), OutOfMemory>
        requires { length (body_of message.now) ≤ BODY_LIMIT }
        ensures { OnOk result (Leads self.old self.new (tell_at index message.now)) }
    {
        let Some(connection) = self.table.as_slice().get(index) else {
            return Ok(());
        };
        let Some(_) = connection.phase().joined_screen() else {
            return Ok(());
        };
        let serial = connection.serial();
        self.route(Target::Client(serial), message)?;
        Ok(())
    }
}
