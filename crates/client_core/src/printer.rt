//! The lines that a client's screen prints of messages.

ghost use Rattle.std.specs.Prelude.{◌≡◌, ◌≤◌, [], OnOk, OnErr, length};
ghost use Rattle.message_codec.specs.declared.messages.Msg.TheVariants as message;
ghost use Rattle.held_inputs.specs.Screen.{Applies, after};
ghost use Rattle.client_core.specs.Hearing.{fresh, with_screen};
ghost use Rattle.client_core.specs.Showing.{Shows, Turns, Hears, ShowsOn, Clears, LetsGo, HasRoom, SamePrinted};

use crate::clipboards::Clipboards;
use crate::options::{add_line, add_options, set_options};
use held_inputs::{Injector, Line, put_line};
use message_codec::{ClipMark, Msg};
use modifier_map::ModMap;
use share_base::{ClipId, Lines, OutOfMemory};
use std::alloc::Global;

/// Room for the lines of one message that is applied to an injector, in bytes.
const ROOM: usize = 16384;

/// A screen's injector, the clipboards that are on their way, and the lines that were printed and
/// not cleared.
#[derive(Drop)]
pub struct Printer {
    injector: Injector,
    clips: Clipboards,
    lines: Vec<u8>,
}

impl Printer {
    /// Nothing was heard. It takes no memory.
    pub fn new(alloc: Global) -> Printer
        ensures shows { Shows result fresh [] }
        ensures empty { result.lines.items ≡ [] }
    {
        Printer {
            injector: Injector::new(ModMap::new()),
            clips: Clipboards::new(alloc),
            lines: Vec::new(alloc),
        }
    }

    /// Applies one message and prints its lines. After `OutOfMemory` neither is done.
    pub fn hear(&mut self, msg: &Msg) -> Result<(), OutOfMemory>
        ensures ok { OnOk result (Hears msg.now self.old self.new) }
        ensures err { OnErr result (ShowsOn self.old self.new) }
    {
        match msg {
            Msg::ResetOptions => self.reset_options(),
            Msg::SetOptions { words } => self.set_options(words.as_slice()),
            Msg::Grab { clip, seq: _ } => add_line(&mut self.lines, Line::Grab { clip: *clip }),
            Msg::ClipPart {
                clip,
                seq,
                mark,
                bytes,
            } => self.hear_part(*clip, *seq, *mark, bytes.as_slice()),
            _ => self.apply(msg),
        }
    }

    fn reset_options(&mut self) -> Result<(), OutOfMemory>
        ensures ok { OnOk result (Hears message.ResetOptions self.old self.new) }
        ensures err { OnErr result (ShowsOn self.old self.new) }
    {
        add_line(&mut self.lines, Line::ResetOptions)?;
        self.injector.reset_options();
        Ok(())
    }

    fn set_options(&mut self, words: &[u32]) -> Result<(), OutOfMemory>
        ensures ok { OnOk result (Hears (message.SetOptions words.now) self.old self.new) }
        ensures err { OnErr result (ShowsOn self.old self.new) }
    {
        let len = self.lines.len();
        match add_options(&mut self.lines, words) {
            Ok(()) => {}
            Err(OutOfMemory) => {
                self.lines.truncate(len);
                return Err(OutOfMemory);
            }
        }
        set_options(&mut self.injector, words);
        Ok(())
    }

    fn hear_part(
        &mut self,
        clip: ClipId,
        seq: u32,
        mark: ClipMark,
        bytes: &[u8],
    ) -> Result<(), OutOfMemory>
        ensures ok { OnOk result
            (Hears (message.ClipPart clip seq mark bytes.now) self.old self.new) }
        ensures err { OnErr result (ShowsOn self.old self.new) }
    {
        self.lines.reserve(self.clips.room(clip, mark))?;
        if let Some(bytes) = self.clips.take(clip, seq, mark, bytes)? {
            put_line(&mut self.lines, Line::Clip { clip, bytes });
        }
        Ok(())
    }

    fn apply(&mut self, msg: &Msg) -> Result<(), OutOfMemory>
        ensures ok { OnOk result
            (Turns (λ d. with_screen (after d.screen (Applies msg.now)) d) self.old self.new) }
        ensures err { OnErr result (ShowsOn self.old self.new) }
    {
        self.make_room()?;
        self.apply_in_room(msg);
        Ok(())
    }

    fn apply_in_room(&mut self, msg: &Msg)
        requires { HasRoom self.old }
        ensures { Turns (λ d. with_screen (after d.screen (Applies msg.now)) d) self.old self.new }
    {
        self.injector.apply_to(msg, &mut self.lines);
    }

    /// Makes room for the lines of the cursor's leaving.
    pub fn make_room(&mut self) -> Result<(), OutOfMemory>
        ensures ok { OnOk result (HasRoom self.new) }
        ensures same { SamePrinted self.old self.new }
    {
        self.lines.reserve(ROOM)?;
        Ok(())
    }

    /// Lets the cursor leave: all that is down goes up. It takes no memory.
    pub fn leave(&mut self)
        requires { HasRoom self.old }
        ensures { Hears message.Leave self.old self.new }
    {
        self.apply_in_room(&Msg::Leave);
    }

    /// The lines that were printed and not cleared.
    pub fn lines(&self) -> &[u8]
        ensures { result.now ≡ self.now.lines.items }
    {
        self.lines.as_slice()
    }

    /// Clears the lines.
    pub fn clear_lines(&mut self)
        ensures shows { Clears self.old self.new }
        ensures empty { self.new.lines.items ≡ [] }
    {
        self.lines.clear();
    }

    /// The ups of all that is down, which are not added to the lines. It takes no memory.
    pub fn release_all(&mut self) -> Lines
        ensures released { LetsGo self.old result }
        ensures lines { self.new.lines.items ≡ self.old.lines.items }
        ensures bound { length result ≤ 13824 }
    {
        self.injector.release_all()
    }
}
