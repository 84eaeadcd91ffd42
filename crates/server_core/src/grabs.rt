//! Clipboards of clients: what a grab and a whole do, and who hears of it.

ghost use Rattle.std.specs.Prelude.{◌≡◌, ◌≤◌, true, false, length, IfOk, OnOk};
ghost use Rattle.message_codec.specs.Spelling.{body_of};
ghost use Rattle.wire_frames.specs.declared.limits.TheConstants.{BODY_LIMIT};
ghost use Rattle.clip_chunks.specs.Rules as rules;
ghost use Rattle.machine.specs.Targets.{Client, Own};
ghost use Rattle.machine.specs.Screens.{screen_of, joined_screens};
ghost use Rattle.machine.specs.Routing.{route_all};
ghost use Rattle.machine.specs.Clipboards as clipboards;
ghost use Rattle.server_core.specs.Leading.{Leads, Reads};
ghost use Rattle.server_core.specs.Others.{others_among, tell_other_at};

use crate::server::ServerCore;
use crate::start::SHARING_UNIT;
use crate::target::Target;
use message_codec::Msg;
use share_base::{ClipId, OutOfMemory};

impl ServerCore {
    /// Tells whether clipboards are shared.
    pub(crate) fn is_sharing(&self) -> bool
        ensures { Reads self.now result clipboards.is_sharing }
    {
        self.config.globals().clipboard_sharing
    }

    /// Returns how many bytes a clipboard may have, at most 4,194,304.
    pub(crate) fn clip_limit(&self) -> u32
        ensures limit { Reads self.now result clipboards.clip_limit }
        ensures bound { result ≤ 4194304 }
    {
        self.config.globals().clipboard_sharing_size * SHARING_UNIT
    }

    /// The connection of that serial takes a clipboard, where clipboards are shared and its
    /// sequence is neither below the kept one nor above the server's. All others hear of it.
    pub(crate) fn grab(&mut self, clip: ClipId, serial: u64, seq: u32) -> Result<(), OutOfMemory>
        ensures { OnOk result (Leads self.old self.new (clipboards.grab clip serial seq)) }
    {
        if !self.is_sharing() {
            return Ok(());
        }
        if !self.take_clip(clip, serial, seq) {
            return Ok(());
        }
        self.tell_others(serial, &Msg::Grab { clip, seq: 0 })?;
        Ok(())
    }

    // Takes a clipboard for the screen of a connection, where the sequence counts, and tells
    // whether it did.
    fn take_clip(&mut self, clip: ClipId, serial: u64, seq: u32) -> bool
        ensures counts { Reads self.old result
            (λ s. rules.grab_counts seq s.sequence (clipboards.clip s clip)) }
        ensures taken { result ≡ true → Leads self.old self.new
            (λ s. clipboards.set_clip clip (rules.unknown (screen_of s (Client serial)) seq) s) }
        ensures unchanged { result ≡ false → self.new ≡ self.old }
    {
        let screen = self.client_screen(serial);
        self.clips.grabbed(clip, screen, seq, self.sequence)
    }

    /// Tells the primary and all joined connections but one a message, by rising serial.
    fn tell_others(&mut self, serial: u64, message: &Msg) -> Result<(), OutOfMemory>
        requires { length (body_of message.now) ≤ BODY_LIMIT }
        ensures { OnOk result (Leads self.old self.new
            (λ s. route_all Own (clipboards.all_but serial s) message.now s)) }
    {
        self.route(Target::Primary, message)?;
        self.tell_other_clients(serial, message)?;
        Ok(())
    }

    fn tell_other_clients(&mut self, serial: u64, message: &Msg) -> Result<(), OutOfMemory>
        requires { length (body_of message.now) ≤ BODY_LIMIT }
        ensures { OnOk result (Leads self.old self.new
            (λ s. route_all Own (others_among serial s.connections) message.now s)) }
    {
        let most = self.table.as_slice().len();
        for index in 0..most {
            self.tell_if_other(index, serial, message)?;
        }
        Ok(())
    }

    // Tells the connection at that index a message, if it is joined and isn't that one.
    fn tell_if_other(&mut self, index: usize, serial: u64, message: &Msg) -> Result<(), OutOfMemory>
        requires { length (body_of message.now) ≤ BODY_LIMIT }
        ensures { OnOk result (Leads self.old self.new (tell_other_at index serial message.now)) }
    {
        let Some(connection) = self.table.as_slice().get(index) else {
            return Ok(());
        };
        let Some(_) = connection.phase().joined_screen() else {
            return Ok(());
        };
        let other = connection.serial();
        if other == serial {
            return Ok(());
        }
        self.route(Target::Client(other), message)?;
        Ok(())
    }

    /// Takes a whole clipboard of at most 4,194,304 bytes from the connection of that serial, where
    /// clipboards are shared, its screen is the owner, and its sequence is neither below the kept
    /// one nor above the server's. The active screen is sent it at once.
    pub(crate) fn whole(
        &mut self,
        clip: ClipId,
        serial: u64,
        seq: u32,
        bytes: &[u8],
    ) -> Result<(), OutOfMemory>
        requires { length bytes.now ≤ 4194304 }
        ensures { OnOk result (Leads self.old self.new
            (clipboards.whole clip serial seq bytes.now)) }
    {
        if !self.is_sharing() {
            return Ok(());
        }
        let kept = self.keep_whole(clip, serial, seq, bytes)?;
        if !kept {
            return Ok(());
        }
        self.refresh(clip)?;
        Ok(())
    }

    // Keeps a whole clipboard of the screen of a connection, where the owner and the sequence
    // count, and tells whether they did.
    fn keep_whole(
        &mut self,
        clip: ClipId,
        serial: u64,
        seq: u32,
        bytes: &[u8],
    ) -> Result<bool, OutOfMemory>
        requires { length bytes.now ≤ 4194304 }
        ensures counts { IfOk result (λ kept. Reads self.old kept (λ s. rules.whole_counts
            (screen_of s (Client serial)) seq s.sequence (clipboards.clip s clip))) }
        ensures keeps { IfOk result (λ kept. kept ≡ true → Leads self.old self.new
            (λ s. clipboards.set_clip clip (rules.known (screen_of s (Client serial)) seq bytes.now
            (joined_screens s)) s)) }
        ensures unchanged { IfOk result (λ kept. kept ≡ false → self.new ≡ self.old) }
    {
        let screen = self.client_screen(serial);
        let joined = self.joined_screens();
        let kept = self
            .clips
            .whole(clip, screen, seq, self.sequence, bytes, &joined)?;
        Ok(kept)
    }
}
