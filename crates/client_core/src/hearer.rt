//! What one message does to a client.

ghost use Rattle.std.specs.Prelude.{◌≡◌, ◌≢◌, Some, IfOk, OnOk, OnErr};
ghost use Rattle.client_talk.specs.Answers.{hears};
ghost use Rattle.client_core.specs.Ends.{stop_in, IsOfStream};
ghost use Rattle.message_codec.specs.declared.messages.Msg.TheVariants as message;
ghost use Rattle.client_core.specs.Hearing.{heard, heard_all};
ghost use Rattle.client_core.specs.Showing.{Turns, ShowsOn};
ghost use Rattle.client_core.specs.Clients.{shown_of, slow_end};
ghost use Rattle.client_core.specs.Kept.{Heeds, Applies};

use crate::client_end::{ClientEnd, LostCause};
use crate::printer::Printer;
use crate::stop::Stop;
use client_talk::Conversation;
use message_codec::Msg;
use share_base::OutOfMemory;

/// A client's screen, and its conversation with the server if it joins.
#[derive(Drop)]
pub struct Hearer {
    pub(crate) printer: Printer,
    pub(crate) talk: Option<Conversation>,
}

// The cursor leaves: the screen lets go of all that is down, and what the script copied is sent. On
// `OutOfMemory` neither the screen nor the conversation changes.
fn leave(printer: &mut Printer, talk: &mut Conversation) -> Result<(), OutOfMemory>
    ensures shown { OnOk result (Turns (λ d. heard d message.Leave) printer.old printer.new) }
    ensures heard { OnOk result (talk.new ≡ hears message.Leave talk.old) }
    ensures same_screen { OnErr result (ShowsOn printer.old printer.new) }
    ensures same_talk { OnErr result (talk.new ≡ talk.old) }
{
    printer.make_room()?;
    talk.answer(&Msg::Leave)?;
    printer.leave();
    talk.note(&Msg::Leave);
    Ok(())
}

// Applies a message other than a leaving. One that is answered prints nothing.
#[tactic(auto, using(crate::proofs::Hearers::shows_one, crate::proofs::Hearers::shows_none, crate::proofs::Hearers::no_answer))]
fn converse_on(printer: &mut Printer, talk: &mut Conversation, msg: &Msg) -> Result<(), OutOfMemory>
    requires { msg.now ≢ message.Leave }
    ensures shown { OnOk result
        (Turns (λ d. heard_all d (shown_of (Some talk.old) msg.now)) printer.old printer.new) }
    ensures heard { OnOk result (talk.new ≡ hears msg.now talk.old) }
    ensures same_screen { OnErr result (ShowsOn printer.old printer.new) }
    ensures same_talk { OnErr result (talk.new ≡ talk.old) }
{
    if talk.is_for_screen(msg) {
        printer.hear(msg)?;
        talk.note(msg);
        return Ok(());
    }
    talk.answer(msg)?;
    talk.note(msg);
    Ok(())
}

// Applies one message of the conversation. On `OutOfMemory` neither the screen nor the conversation
// changes.
fn converse(printer: &mut Printer, talk: &mut Conversation, msg: &Msg) -> Result<(), OutOfMemory>
    ensures shown { OnOk result
        (Turns (λ d. heard_all d (shown_of (Some talk.old) msg.now)) printer.old printer.new) }
    ensures heard { OnOk result (talk.new ≡ hears msg.now talk.old) }
    ensures same_screen { OnErr result (ShowsOn printer.old printer.new) }
    ensures same_talk { OnErr result (talk.new ≡ talk.old) }
{
    match msg {
        Msg::Leave => leave(printer, talk),
        _ => converse_on(printer, talk, msg),
    }
}

impl Hearer {
    /// Hears one message, or returns the end that it brings. On `OutOfMemory` it is not heard.
    pub fn heed(&mut self, msg: &Msg) -> Result<Option<ClientEnd>, OutOfMemory>
        ensures heeds { Heeds msg.now self.old self.new result }
        ensures ends { IfOk result IsOfStream }
    {
        match self.stop(msg) {
            Some(stop) => Ok(Some(stop.end())),
            None => {
                self.hear(msg)?;
                Ok(self.slow_end())
            }
        }
    }

    // How the message ends the client, if it does.
    fn stop(&self, msg: &Msg) -> Option<Stop>
        ensures { result ≡ stop_in self.now.talk msg.now }
    {
        match &self.talk {
            None => Stop::of(msg),
            Some(_) => Stop::of_joining(msg),
        }
    }

    // Applies a message that does not end the client. On `OutOfMemory` it is not applied.
    fn hear(&mut self, msg: &Msg) -> Result<(), OutOfMemory>
        ensures { Applies msg.now self.old self.new result }
    {
        match &mut self.talk {
            None => self.printer.hear(msg),
            Some(talk) => converse(&mut self.printer, talk, msg),
        }
    }

    /// How the client ends where a frame had no room; `None` if there was room for all.
    pub fn slow_end(&self) -> Option<ClientEnd>
        ensures value { result ≡ slow_end self.now.talk }
        ensures of_stream { IsOfStream result }
    {
        match &self.talk {
            Some(talk) if talk.is_slow() => Some(ClientEnd::Lost(LostCause::Slow)),
            _ => None,
        }
    }
}
