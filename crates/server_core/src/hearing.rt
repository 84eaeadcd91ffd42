//! What a message of a client does, by the phase of its connection.

ghost use Rattle.std.specs.Prelude.{◌≡◌, ◌<◌, None, OnOk};
ghost use Rattle.clip_chunks.specs.Parts as parts;
ghost use Rattle.machine.specs.Screens as screens;
ghost use Rattle.machine.specs.Hearing as hearing;
ghost use Rattle.server_core.specs.Leading.{Leads, LeadsLiving};
ghost use Rattle.server_core.specs.Hearing.{info_of, LeadsGreeting, LeadsAsked, LeadsJoined, LeadsHeard};

use crate::server::ServerCore;
use connection_table::Phase;
use hello_states::InfoFields;
use message_codec::{ClipMark, Msg};
use share_base::{ClipId, OutOfMemory, ScreenNo};

impl ServerCore {
    /// Hears a message of the connection of that serial, as its phase has it. Connections of which
    /// a frame was left out part then.
    pub(crate) fn hear(&mut self, serial: u64, message: &Msg) -> Result<(), OutOfMemory>
        ensures { OnOk result (Leads self.old self.new (hearing.hear serial message.now)) }
    {
        self.hear_in(serial, message)?;
        self.part_slow()?;
        Ok(())
    }

    fn hear_in(&mut self, serial: u64, message: &Msg) -> Result<(), OutOfMemory>
        ensures { OnOk result (Leads self.old self.new
            (λ s. hearing.hear_in (screens.phase_of s serial) message.now serial s)) }
    {
        let Some(connection) = self.table.get(serial) else {
            return Ok(());
        };
        match connection.phase() {
            Phase::Greeting(_) => {
                self.hear_greeting(serial, message)?;
                Ok(())
            }
            Phase::Asked(asked) => {
                let screen = asked.screen();
                self.hear_asked(serial, screen, message)?;
                Ok(())
            }
            Phase::Joined(_) => {
                self.hear_joined(serial, message)?;
                Ok(())
            }
            Phase::Parting(_) => Ok(()),
        }
    }

    // Hears a message of a connection that is to answer the greeting.
    fn hear_greeting(&mut self, serial: u64, message: &Msg) -> Result<(), OutOfMemory>
        ensures { OnOk result (LeadsGreeting serial self.old self.new
            (λ accepted. hearing.hear_greeting accepted message.now serial)) }
    {
        let Msg::HelloBack { major, minor, name } = message else {
            return Ok(());
        };
        self.hear_hello(serial, *major, *minor, name.as_slice())?;
        Ok(())
    }

    // Hears a message of a connection that was asked as that screen.
    fn hear_asked(
        &mut self,
        serial: u64,
        screen: ScreenNo,
        message: &Msg,
    ) -> Result<(), OutOfMemory>
        requires { screen.0 < 64 }
        ensures { OnOk result (LeadsAsked serial screen.0 self.old self.new
            (λ asked. hearing.hear_asked asked message.now serial)) }
    {
        let Some(info) = info_in(message) else {
            return Ok(());
        };
        self.hear_first_info(serial, screen, &info)?;
        Ok(())
    }

    // Hears a message of a joined connection, which counts as heard then.
    fn hear_joined(&mut self, serial: u64, message: &Msg) -> Result<(), OutOfMemory>
        ensures { OnOk result (LeadsJoined serial self.old self.new (λ joined s.
            hearing.hear_joined joined message.now serial
            (screens.change serial (hearing.was_heard s.at) s))) }
    {
        self.count_heard(serial);
        self.hear_counted(serial, message)?;
        Ok(())
    }

    fn count_heard(&mut self, serial: u64)
        ensures { Leads self.old self.new (λ s. screens.change serial (hearing.was_heard s.at) s) }
    {
        self.table.hear(serial, self.at.moment());
    }

    // Hears a message of a joined connection that was counted as heard.
    fn hear_counted(&mut self, serial: u64, message: &Msg) -> Result<(), OutOfMemory>
        ensures { OnOk result (LeadsHeard serial self.old self.new
            (λ joined. hearing.hear_joined joined message.now serial)) }
    {
        if let Some(info) = info_in(message) {
            self.hear_later_info(serial, &info)?;
            return Ok(());
        }
        self.hear_clip(serial, message)?;
        Ok(())
    }

    // Hears what a message says of clipboards, unless it is an information.
    fn hear_clip(&mut self, serial: u64, message: &Msg) -> Result<(), OutOfMemory>
        requires { info_of message.now ≡ None }
        ensures { OnOk result (LeadsHeard serial self.old self.new
            (λ joined. hearing.hear_joined joined message.now serial)) }
    {
        match message {
            Msg::Grab { clip, seq } => {
                self.grab(*clip, serial, *seq)?;
                Ok(())
            }
            Msg::ClipPart {
                clip,
                seq,
                mark,
                bytes,
            } => {
                self.hear_part(serial, *clip, *seq, *mark, bytes.as_slice())?;
                Ok(())
            }
            _ => Ok(()),
        }
    }

    // Hears a part of a clipboard of a connection that lives, and takes the whole that it ends, if
    // it does. No whole is longer than the limit.
    fn hear_part(
        &mut self,
        serial: u64,
        clip: ClipId,
        seq: u32,
        mark: ClipMark,
        bytes: &[u8],
    ) -> Result<(), OutOfMemory>
        ensures { OnOk result (LeadsLiving serial self.old self.new
            (hearing.hear_part (parts.part mark clip seq bytes.now) serial)) }
    {
        let whole = self.table.take_part(serial, clip, seq, mark, bytes)?;
        let Some(whole) = whole else {
            return Ok(());
        };
        if whole.len() > self.clip_limit() as usize {
            return Ok(());
        }
        self.whole(clip, serial, seq, whole.as_slice())?;
        Ok(())
    }
}

// The information of a screen that a message tells.
fn info_in(message: &Msg) -> Option<InfoFields>
    ensures { result ≡ info_of message.now }
{
    match message {
        Msg::Info {
            x,
            y,
            w,
            h,
            warp,
            mx,
            my,
        } => Some(InfoFields {
            x: *x,
            y: *y,
            w: *w,
            h: *h,
            warp: *warp,
            mx: *mx,
            my: *my,
        }),
        _ => None,
    }
}
