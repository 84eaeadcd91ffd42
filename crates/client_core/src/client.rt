//! The client.

ghost use Rattle.std.specs.Prelude.{
  ◌≡◌,
  ◌≢◌,
  ◌+◌,
  ◌≤◌,
  ◌^◌,
  ◌<◌,
  [],
  List,
  ℕ,
  Some,
  None,
  IsSome,
  OnErr,
  OnOk,
  length,
  unwrap_or,
};
ghost use Rattle.client_core.specs.Clients.{Client};
ghost use Rattle.client_core.specs.Kept.{Passes};

use crate::client_end::{ClientEnd, LostCause};
use crate::hearer::Hearer;
use crate::hearing::hear_piece;
use crate::printer::Printer;
use client_talk::Conversation;
use message_codec::End;
use message_reader::{MessageReader, Role};
use script_screen::ClientScript;
use share_base::{Lines, OutOfMemory, ScreenName};
use std::alloc::Global;

/// A client over the stream of a server, in whatever pieces it comes. It prints what is injected
/// into its screen, and keeps what is down there. One that joins a server also answers it, waits
/// for it, and runs a script. Moments are in milliseconds.
///
/// Only `bytes` and `moment` allocate.
#[derive(Drop)]
pub struct ClientCore {
    reader: MessageReader,
    hearer: Hearer,
    done: Option<ClientEnd>,
}

impl ClientCore {
    ghost use Rattle.client_core.specs.Happenings.{injecting, joining, passes, took, ended, untaken, untaken_of, due_of, moment_of};
    ghost use Rattle.client_core.specs.Kept.{Stands, Follows, Gets, StopsAt, IsPartial, ClearsLines, EndsReleased, lines_in};

    /// Creates the client of injection: it hears every message of a server, sends nothing, and no
    /// moment counts.
    pub fn injecting(alloc: Global) -> ClientCore
        ensures stands { Stands result injecting [] }
        ensures role { result.reader.role ≡ Role.Observer End.Server }
        ensures goes { result.done ≡ None }
        ensures empty { lines_in result ≡ [] }
        ensures total { result.reader.total ≡ 0 }
    {
        ClientCore {
            reader: MessageReader::new(alloc, Role::Observer(End::Server)),
            hearer: Hearer {
                printer: Printer::new(alloc),
                talk: None,
            },
            done: None,
        }
    }

    /// Creates a client that joins a server, with a screen of that name and size, in pixels, at the
    /// moment `now`.
    pub fn new(
        alloc: Global,
        name: ScreenName,
        w: u16,
        h: u16,
        script: ClientScript,
        now: u64,
    ) -> ClientCore
        ensures stands { Stands result (joining name w h script now) [] }
        ensures goes { result.done ≡ None }
        ensures empty { lines_in result ≡ [] }
        ensures total { result.reader.total ≡ 0 }
    {
        ClientCore {
            reader: MessageReader::new(alloc, Role::Client),
            hearer: Hearer {
                printer: Printer::new(alloc),
                talk: Some(Conversation::new(alloc, name, w, h, script, now)),
            },
            done: None,
        }
    }

    /// Hears the next piece of the stream, which has fewer than 2^63 bytes in all. A message is
    /// applied wholly or not at all. Once the client is done, nothing more is heard.
    ///
    /// On `OutOfMemory` the client has heard the messages before the one for which memory ran out.
    /// It is done then, as `ClientEnd::OutOfMemory`, and every later call of `bytes` and `moment`
    /// answers `OutOfMemory`.
    pub fn bytes(&mut self, piece: &[u8]) -> Result<(), OutOfMemory>
        requires { self.old.reader.total + length piece.now < 2 ^ 63 }
        ensures gets { self.old.done ≡ None → Gets self.old self.new result piece.now }
        ensures over { IsSome self.old.done → self.new ≡ self.old }
        ensures ok { OnOk result (self.new.done ≢ Some ClientEnd.OutOfMemory) }
        ensures err { OnErr result (self.new.done ≡ Some ClientEnd.OutOfMemory) }
        ensures role { self.new.reader.role ≡ self.old.reader.role }
        ensures total { self.new.reader.total ≤ self.old.reader.total + length piece.now }
    {
        if self.done.is_none() {
            let heard = hear_piece(&mut self.reader, &mut self.hearer, piece);
            self.done = heard.unwrap_or(Some(ClientEnd::OutOfMemory));
        }
        answer(self.done)
    }

    /// Passes to that moment, if it is later than the client's own. A server that was not heard for
    /// three of its rates is lost; else the lines of the script that may run do. Once the client is
    /// done, nothing changes.
    ///
    /// On `OutOfMemory` some of those lines have run. The client is done then, as after `bytes`.
    pub fn moment(&mut self, moment: u64) -> Result<(), OutOfMemory>
        ensures passes { OnOk result (Follows self.old self.new (passes moment)) }
        ensures stops { OnErr result (self.old.done ≡ None → StopsAt self.old self.new moment) }
        ensures over { IsSome self.old.done → self.new ≡ self.old }
        ensures ok { OnOk result (self.new.done ≢ Some ClientEnd.OutOfMemory) }
        ensures err { OnErr result (self.new.done ≡ Some ClientEnd.OutOfMemory) }
        ensures lines { lines_in self.new ≡ lines_in self.old }
        ensures reader { self.new.reader ≡ self.old.reader }
    {
        if self.done.is_none() {
            let passed = pass(&mut self.hearer, moment);
            self.done = passed.unwrap_or(Some(ClientEnd::OutOfMemory));
        }
        answer(self.done)
    }

    /// Returns how the client ended; `None` while it goes on.
    pub fn done(&self) -> Option<ClientEnd>
        ensures { result ≡ self.now.done }
    {
        self.done
    }

    /// Returns the offset of a frame of which some bytes have come and not all. `None` if there is
    /// none, or if the client is done.
    pub fn pending(&self) -> Option<u64>
        ensures goes { self.now.done ≡ None → IsPartial self.now result }
        ensures over { IsSome self.now.done → result ≡ None }
    {
        match self.done {
            None => self.reader.pending(),
            Some(_) => None,
        }
    }

    /// Returns the lines that were printed and not cleared.
    pub fn lines(&self) -> &[u8]
        ensures { result.now ≡ lines_in self.now }
    {
        self.hearer.printer.lines()
    }

    /// Clears the lines.
    pub fn clear_lines(&mut self)
        ensures clears { ClearsLines self.old self.new }
        ensures empty { lines_in self.new ≡ [] }
        ensures reader { self.new.reader ≡ self.old.reader }
        ensures done { self.new.done ≡ self.old.done }
    {
        self.hearer.printer.clear_lines();
    }

    /// Returns all bytes that the client sent and that were not taken, first to last.
    pub fn queued(&self) -> &[u8]
        ensures { (c : Client) (front : List ℕ) → Stands self.now c front → result.now ≡ untaken c }
    {
        match &self.hearer.talk {
            Some(talk) => talk.queued(),
            None => &[],
        }
    }

    /// Counts the first `count` of the queued bytes as taken.
    pub fn taken(&mut self, count: usize)
        requires { count ≤ length (untaken_of self.old.hearer.talk) }
        ensures { Follows self.old self.new (took count) }
    {
        if let Some(talk) = &mut self.hearer.talk {
            talk.taken(count);
        }
    }

    /// Returns the moment at which something is due: the death of a server that stays silent, the
    /// end of a sleep that holds the script, or the client's own moment if a line may run.
    /// 18,446,744,073,709,551,615 if nothing is, once the client is done, and for one that injects.
    pub fn due(&self) -> u64
        ensures { (c : Client) (front : List ℕ) → Stands self.now c front
            → result ≡ due_of c.done c.talk }
    {
        match (&self.hearer.talk, self.done) {
            (Some(talk), None) => talk.due(),
            _ => u64::MAX,
        }
    }

    /// Returns the client's own moment: the greatest that was given to it. 0 for one that injects.
    pub fn at(&self) -> u64
        ensures { (c : Client) (front : List ℕ) → Stands self.now c front
            → result ≡ moment_of c.talk }
    {
        match &self.hearer.talk {
            Some(talk) => talk.at(),
            None => 0,
        }
    }

    /// Ends the client: all that is down goes up, in the lines that it returns. It is called once,
    /// with the end that the caller knows, which counts where the client has none yet.
    pub fn ended(&mut self, why: ClientEnd) -> Lines
        ensures done { self.new.done ≡ Some (unwrap_or self.old.done why) }
        ensures released { EndsReleased self.old result }
        ensures lines { lines_in self.new ≡ lines_in self.old }
        ensures reader { self.new.reader ≡ self.old.reader }
        ensures talk { self.new.hearer.talk ≡ self.old.hearer.talk }
        ensures bound { length result ≤ 13824 }
    {
        self.done = Some(self.done.unwrap_or(why));
        self.hearer.printer.release_all()
    }
}

// Returns the answer of a call after which the client has that end, or none.
fn answer(done: Option<ClientEnd>) -> Result<(), OutOfMemory>
    ensures ok { OnOk result (done ≢ Some ClientEnd.OutOfMemory) }
    ensures err { OnErr result (done ≡ Some ClientEnd.OutOfMemory) }
{
    match done {
        Some(ClientEnd::OutOfMemory) => Err(OutOfMemory),
        _ => Ok(()),
    }
}

// Lets a client that goes on pass to a moment, and returns its end, if that comes then. On
// `OutOfMemory` some lines of its script have run.
fn pass(hearer: &mut Hearer, moment: u64) -> Result<Option<ClientEnd>, OutOfMemory>
    ensures talks { Passes moment hearer.old.talk hearer.new.talk result }
    ensures printer { hearer.new.printer ≡ hearer.old.printer }
{
    let Some(talk) = &mut hearer.talk else {
        return Ok(None);
    };
    talk.tell(moment);
    if talk.is_dead() {
        return Ok(Some(ClientEnd::Lost(LostCause::Dead)));
    }
    talk.run_script()?;
    Ok(hearer.slow_end())
}
