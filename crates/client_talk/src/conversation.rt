//! What a client that joins a server keeps besides its screen.

ghost use Rattle.std.specs.Prelude.{
  ◌≡◌,
  ◌≤◌,
  ◌∷◌,
  [],
  length,
  drop,
  fold,
  min,
  IfOk,
  OnOk,
  OnErr,
  MatchOption,
};
ghost use Rattle.std.specs.Option.{option_to_list};
ghost use Rattle.wire_frames.specs.declared.limits.TheConstants.{BODY_LIMIT};
ghost use Rattle.message_codec.specs.Spelling.{body_of};
ghost use Rattle.script_screen.specs.declared.client_script.ClientLine.TheVariants as line;
ghost use Rattle.message_codec.specs.declared.messages.Msg.TheVariants as message;
ghost use Rattle.client_talk.specs.Talks as spec;
ghost use Rattle.client_talk.specs.Talks.{begun, told, took};
ghost use Rattle.client_talk.specs.Answers as answer_spec;
ghost use Rattle.client_talk.specs.Answers.{answers, notes};
ghost use Rattle.client_talk.specs.Scripts as script_spec;
ghost use Rattle.client_talk.specs.Scripts.{run_script, does, past_one, resized, RunsNext};

use crate::clip_sending::queue_copies;
use crate::copies::Copies;
use crate::messages::{hello_back, information};
use crate::options::rate_after;
use crate::outbox::Outbox;
use crate::version::{MAJOR, MINOR};
use keepalive_clock::Alive;
use message_codec::Msg;
use script_screen::{ClientLine, ClientScript};
use share_base::{ClipId, Octets, OutOfMemory, ScreenName, moment_of};
use std::alloc::Global;
use std::marker::Model;

/// The rate of the server's beats before an option sets it, in milliseconds.
pub const DEFAULT_RATE: u32 = 3_000;

/// A client's side of the conversation with its server: what it answers, how long it waits for the
/// server, and its script. Moments are in milliseconds; one above `LAST_MOMENT` counts as that
/// moment.
///
/// Only `answer` and `run_script` allocate.
#[derive(Drop)]
pub struct Conversation {
    alloc: Global,
    name: ScreenName,
    w: u16,
    h: u16,
    at: u64,
    alive: Alive,
    script: ClientScript,
    ran: usize,
    sleeps_until: Option<u64>,
    is_joined: bool,
    is_resized: bool,
    entered: u32,
    copies: Copies,
    outbox: Outbox,
}

impl Model for Conversation {
    ghost use Rattle.std.specs.Prelude.{◌≤◌, drop};
    ghost use Rattle.share_base.specs.Moments.{last_moment};
    ghost use Rattle.client_talk.specs.Talks.{Talk};

    ghost Value = { Talk };

    ghost view = { λ c. record {
      name = c.name;
      w = c.w;
      h = c.h;
      at = c.at;
      alive = c.alive;
      lines = drop c.ran c.script;
      sleeps_until = c.sleeps_until;
      is_joined = c.is_joined;
      is_resized = c.is_resized;
      entered = c.entered;
      copies = c.copies;
      untaken = c.outbox;
    } };

    ghost invariant = { λ c. c.at ≤ last_moment };
}

// The index of the line after that one, if there is such a line.
fn next_index(lines: &[ClientLine], index: usize) -> usize
    ensures { drop result lines.now ≡ drop 1 (drop index lines.now) }
{
    if index < lines.len() {
        return index + 1;
    }
    index
}

// The lesser of the two; `due` if there is no other.
fn earliest(due: u64, moment: Option<u64>) -> u64
    ensures { result ≡ fold min due (option_to_list moment) }
{
    match moment {
        Some(moment) => due.min(moment),
        None => due,
    }
}

impl Conversation {
    /// Begins the conversation of a client with a screen of that name and size, in pixels, at the
    /// moment `now`. It has heard and sent nothing.
    pub fn new(
        alloc: Global,
        name: ScreenName,
        w: u16,
        h: u16,
        script: ClientScript,
        now: u64,
    ) -> Conversation
        ensures { result ≡ begun name w h script now }
    {
        let at = moment_of(now);
        Conversation {
            alloc,
            name,
            w,
            h,
            at,
            alive: Alive {
                sent: at,
                heard: at,
                rate: DEFAULT_RATE,
            },
            script,
            ran: 0,
            sleeps_until: None,
            is_joined: false,
            is_resized: false,
            entered: 0,
            copies: Copies::new(),
            outbox: Outbox::new(alloc),
        }
    }

    /// Queues the answer to a message, if it has one: a hello is answered by the client's, a
    /// question for information by that of the screen, a beat by a beat, and the cursor's leaving
    /// by what the script copied. On `OutOfMemory` nothing changes.
    pub fn answer(&mut self, msg: &Msg) -> Result<(), OutOfMemory>
        ensures ok { OnOk result (self.new ≡ answers msg.now self.old) }
        ensures err { OnErr result (self.new ≡ self.old) }
    {
        match msg {
            Msg::Hello { .. } => self.answer_hello(),
            Msg::QueryInfo => self.answer_query(),
            Msg::Alive => self.send(&Msg::Alive),
            Msg::Leave => self.send_copies(),
            _ => Ok(()),
        }
    }

    fn answer_hello(&mut self) -> Result<(), OutOfMemory>
        ensures ok { OnOk result
            (self.new ≡ spec.sends (message.HelloBack MAJOR MINOR self.old.name) self.old) }
        ensures err { OnErr result (self.new ≡ self.old) }
    {
        let msg = hello_back(self.alloc, &self.name)?;
        self.send(&msg)
    }

    fn answer_query(&mut self) -> Result<(), OutOfMemory>
        ensures ok { OnOk result
            (self.new ≡ spec.sends (answer_spec.information self.old.w self.old.h) self.old) }
        ensures err { OnErr result (self.new ≡ self.old) }
    {
        let msg = self.information();
        self.send(&msg)
    }

    fn send_copies(&mut self) -> Result<(), OutOfMemory>
        ensures ok { OnOk result (self.new ≡ spec.sends_copies self.old) }
        ensures err { OnErr result (self.new ≡ self.old) }
    {
        queue_copies(&mut self.outbox, self.entered, &self.copies)?;
        self.copies = Copies::new();
        Ok(())
    }

    // The information of the screen as it is.
    fn information(&self) -> Msg
        ensures { result ≡ answer_spec.information self.now.w self.now.h }
    {
        information(self.w, self.h)
    }

    fn send(&mut self, msg: &Msg) -> Result<(), OutOfMemory>
        requires { length (body_of msg.now) ≤ BODY_LIMIT }
        ensures ok { OnOk result (self.new ≡ spec.sends msg.now self.old) }
        ensures err { OnErr result (self.new ≡ self.old) }
    {
        self.outbox.queue(msg)
    }

    /// Notes a message: that the server was heard, whether it took the screen's information, the
    /// rate of its beats, the sequence of an entering, and that a clipboard was taken by another
    /// screen.
    pub fn note(&mut self, msg: &Msg)
        ensures { self.new ≡ notes msg.now self.old }
    {
        self.alive.heard(self.at);
        match msg {
            Msg::InfoAck => {
                self.is_joined = true;
                self.is_resized = false;
            }
            Msg::ResetOptions => self.alive.rate = DEFAULT_RATE,
            Msg::SetOptions { words } => {
                self.alive.rate = rate_after(self.alive.rate, words.as_slice());
            }
            Msg::Enter { seq, .. } => self.entered = *seq,
            Msg::Grab { clip, .. } => self.copies.forget(*clip),
            _ => {}
        }
    }

    /// Tells whether the screen gets a message: not one that is only answered, nor a `DMMV` between
    /// a change of the size and the next `CIAK`.
    pub fn is_for_screen(&self, msg: &Msg) -> bool
        ensures { result ≡ answer_spec.is_for_screen self.now msg.now }
    {
        match msg {
            Msg::Hello { .. } | Msg::QueryInfo | Msg::Alive => false,
            Msg::MoveTo { .. } => !self.is_resized,
            _ => true,
        }
    }

    /// Counts a moment, if it is later than the client's own.
    pub fn tell(&mut self, moment: u64)
        ensures { self.new ≡ told moment self.old }
    {
        self.at = self.at.max(moment_of(moment));
    }

    /// Returns the client's own moment: the greatest that was given to it.
    pub fn at(&self) -> u64
        ensures { result ≡ self.now.at }
    {
        self.at
    }

    /// Tells whether the server counts as dead at the client's own moment: it was not heard for
    /// three of its rates. It never does at a rate of 0.
    pub fn is_dead(&self) -> bool
        ensures { result ≡ spec.is_dead self.now }
    {
        self.alive.dead(self.at)
    }

    /// Whether a frame was left out of the queue, since the server took too little of it.
    pub fn is_slow(&self) -> bool
        ensures { result ≡ spec.is_slow self.now }
    {
        self.outbox.is_slow()
    }

    /// Runs the lines of the script that may run by now. On `OutOfMemory` some of them have run.
    pub fn run_script(&mut self) -> Result<(), OutOfMemory>
        ensures ok { OnOk result (self.new ≡ run_script self.old) }
        ensures err { OnErr result (run_script self.new ≡ run_script self.old) }
    {
        while self.run_next()? {}
        Ok(())
    }

    /// Returns the moment at which something is due, the least of these: the server's death, the
    /// end of a sleep that holds the script, and the client's own moment if the next line may run.
    /// 18,446,744,073,709,551,615 if nothing is.
    pub fn due(&self) -> u64
        ensures { result ≡ script_spec.due self.now }
    {
        let due = earliest(u64::MAX, self.alive.death());
        let due = earliest(due, self.sleep_due());
        earliest(due, self.line_due())
    }

    /// The bytes that are queued and not taken, first to last.
    pub fn queued(&self) -> &[u8]
        ensures { result.now ≡ self.now.untaken.bytes }
    {
        self.outbox.as_slice()
    }

    /// Counts the first `count` of the queued bytes as taken.
    pub fn taken(&mut self, count: usize)
        requires { count ≤ length self.old.untaken.bytes }
        ensures { self.new ≡ took count self.old }
    {
        self.outbox.take(count);
    }

    fn may_run(&self) -> bool
        ensures { result ≡ script_spec.may_run self.now }
    {
        self.is_joined && !self.outbox.is_slow() && self.is_awake()
    }

    fn is_awake(&self) -> bool
        ensures { result ≡ script_spec.is_awake_at self.now.at self.now.sleeps_until }
    {
        match self.sleeps_until {
            None => true,
            Some(end) => end <= self.at,
        }
    }

    // The end of a sleep that holds the script.
    fn sleep_due(&self) -> Option<u64>
        ensures { result ≡ script_spec.sleep_due_at self.now.at self.now.sleeps_until }
    {
        match self.sleeps_until {
            Some(end) if end > self.at => Some(end),
            _ => None,
        }
    }

    // The client's own moment, if a line may run.
    fn line_due(&self) -> Option<u64>
        ensures { result ≡ script_spec.line_due_of self.now self.now.lines }
    {
        match self.next_line() {
            Some(_) if self.may_run() => Some(self.at),
            _ => None,
        }
    }

    // The first line that has not run.
    fn next_line(&self) -> Option<&ClientLine>
        ensures { MatchOption result (self.now.lines ≡ [])
            (λ l. self.now.lines ≡ l.now ∷ drop 1 self.now.lines) }
    {
        self.script.lines().get(self.ran)
    }

    // Runs the next line if it may run, and tells whether it did. On `OutOfMemory` it has not run.
    fn run_next(&mut self) -> Result<bool, OutOfMemory>
        ensures ok { IfOk result (RunsNext self.old self.new) }
        ensures err { OnErr result (self.new ≡ self.old) }
    {
        if !self.may_run() {
            return Ok(false);
        }
        match self.next_line() {
            None => Ok(false),
            Some(ClientLine::Sleep(ms)) => {
                let ms = *ms;
                self.sleep(ms);
                Ok(true)
            }
            Some(ClientLine::Copy { clip, bytes }) => {
                let clip = *clip;
                let mut kept = Octets::new(self.alloc);
                kept.extend(bytes.as_slice())?;
                self.copy(clip, kept)?;
                Ok(true)
            }
            Some(ClientLine::Resize { w, h }) => {
                let (w, h) = (*w, *h);
                self.resize(w, h)?;
                Ok(true)
            }
        }
    }

    fn pass_line(&mut self)
        ensures { self.new ≡ past_one self.old }
    {
        self.ran = next_index(self.script.lines(), self.ran);
        self.sleeps_until = None;
    }

    fn sleep(&mut self, ms: u32)
        ensures { self.new ≡ does (line.Sleep ms) (past_one self.old) }
    {
        self.pass_line();
        self.sleeps_until = Some(self.at + ms as u64);
    }

    fn copy(&mut self, clip: ClipId, bytes: Octets) -> Result<(), OutOfMemory>
        ensures ok { OnOk result (self.new ≡ does (line.Copy clip bytes) (past_one self.old)) }
        ensures err { OnErr result (self.new ≡ self.old) }
    {
        let seq = self.entered;
        self.send(&Msg::Grab { clip, seq })?;
        self.pass_line();
        self.copies.keep(clip, bytes);
        Ok(())
    }

    fn resize(&mut self, w: u16, h: u16) -> Result<(), OutOfMemory>
        ensures ok { OnOk result (self.new ≡ does (line.Resize w h) (past_one self.old)) }
        ensures err { OnErr result (self.new ≡ self.old) }
    {
        let msg = information(w, h);
        self.send(&msg)?;
        self.pass_line();
        self.set_size(w, h);
        Ok(())
    }

    fn set_size(&mut self, w: u16, h: u16)
        ensures { self.new ≡ resized w h self.old }
    {
        self.w = w;
        self.h = h;
        self.is_resized = true;
    }
}
