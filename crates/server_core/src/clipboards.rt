//! Clipboards: who is sent what.

ghost use Rattle.std.specs.Prelude.{◌≤◌, length, OnOk, IfOk};
ghost use Rattle.clip_chunks.specs.Parts.{part, message_of};
ghost use Rattle.machine.specs.Targets.{Client, Own};
ghost use Rattle.machine.specs.Routing as routing;
ghost use Rattle.machine.specs.Clipboards as clipboards;
ghost use Rattle.server_core.specs.Targets.{meant};
ghost use Rattle.server_core.specs.Leading.{Leads, LeadsAt};
ghost use Rattle.server_core.specs.Sending.{tell_chunks};
ghost use Rattle.server_core.specs.HandingOut.{HandsOut};

use crate::server::ServerCore;
use crate::target::Target;
use itoa::Buffer;
use message_codec::{ClipMark, Msg};
use share_base::{ClipId, Octets, OutOfMemory};

/// How many bytes a full chunk of a clipboard has.
const CHUNK_LEN: usize = 32_768;

impl ServerCore {
    /// Sends the active screen both clipboards, each where it is dirty for it.
    pub(crate) fn refresh_both(&mut self) -> Result<(), OutOfMemory>
        ensures { OnOk result (Leads self.old self.new clipboards.refresh_both) }
    {
        self.refresh(ClipId::Clipboard)?;
        self.refresh(ClipId::Selection)?;
        Ok(())
    }

    /// Sends the active screen the known bytes of a clipboard, where it is dirty for it.
    pub(crate) fn refresh(&mut self, clip: ClipId) -> Result<(), OutOfMemory>
        ensures { OnOk result (Leads self.old self.new (clipboards.refresh clip)) }
    {
        let Some(bytes) = self.hand_out(clip)? else {
            return Ok(());
        };
        self.give(clip, bytes.as_slice(), self.active)?;
        Ok(())
    }

    /// Returns the known bytes of a clipboard, where the active screen is dirty for it, and makes
    /// it clean.
    pub(crate) fn hand_out(&mut self, clip: ClipId) -> Result<Option<Octets>, OutOfMemory>
        ensures { IfOk result (HandsOut clip self.old self.new) }
    {
        let screen = self.screen_of(self.active);
        let alloc = self.config.alloc();
        let Some(bytes) = self.clips.entered(clip, screen) else {
            return Ok(None);
        };
        let mut copy = Octets::new(alloc);
        copy.extend(bytes)?;
        Ok(Some(copy))
    }

    /// Tells a target that is there the bytes of a clipboard.
    pub(crate) fn give(
        &mut self,
        clip: ClipId,
        bytes: &[u8],
        target: Target,
    ) -> Result<(), OutOfMemory>
        ensures { OnOk result (LeadsAt (meant target) self.old self.new
            (clipboards.give clip bytes.now (meant target))) }
    {
        match target {
            Target::Primary => {
                self.log_clip(clip, bytes)?;
                Ok(())
            }
            Target::Client(serial) => {
                self.send_clip(serial, clip, bytes)?;
                Ok(())
            }
        }
    }

    /// Tells a connection that is there the bytes of a clipboard: a start that says how many there
    /// are, the bytes in chunks, and an end.
    pub(crate) fn send_clip(
        &mut self,
        serial: u64,
        clip: ClipId,
        bytes: &[u8],
    ) -> Result<(), OutOfMemory>
        ensures { OnOk result (LeadsAt (Client serial) self.old self.new
            (clipboards.give clip bytes.now (Client serial))) }
    {
        let mut buffer = Buffer::new();
        let size = buffer.format(bytes.len());
        self.send_part(serial, clip, ClipMark::Start, size.as_bytes())?;
        self.send_chunks(serial, clip, bytes)?;
        self.send_part(serial, clip, ClipMark::End, &[])?;
        Ok(())
    }

    /// Tells a connection that is there the bytes of a clipboard in chunks of 32,768, of which the
    /// last may be shorter.
    pub(crate) fn send_chunks(
        &mut self,
        serial: u64,
        clip: ClipId,
        bytes: &[u8],
    ) -> Result<(), OutOfMemory>
        ensures { OnOk result (LeadsAt (Client serial) self.old self.new
            (tell_chunks clip serial bytes.now)) }
    {
        for chunk in bytes.chunks(CHUNK_LEN) {
            self.send_part(serial, clip, ClipMark::Chunk, chunk)?;
        }
        Ok(())
    }

    /// Tells a connection that is there one part of a clipboard, with sequence 0.
    pub(crate) fn send_part(
        &mut self,
        serial: u64,
        clip: ClipId,
        mark: ClipMark,
        bytes: &[u8],
    ) -> Result<(), OutOfMemory>
        requires { length bytes.now ≤ 32768 }
        ensures { OnOk result (LeadsAt (Client serial) self.old self.new
            (routing.route Own (Client serial) (message_of (part mark clip 0 bytes.now)))) }
    {
        let mut data = Octets::new(self.config.alloc());
        data.extend(bytes)?;
        let message = Msg::ClipPart {
            clip,
            seq: 0,
            mark,
            bytes: data,
        };
        self.route(Target::Client(serial), &message)?;
        Ok(())
    }
}
