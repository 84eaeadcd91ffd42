//! All connections.

ghost use Rattle.std.specs.Prelude.{
  ◌≡◌,
  ◌≤◌,
  ◌<◌,
  ◌+◌,
  ◌^◌,
  ◌++◌,
  ◌∷◌,
  [],
  Some,
  length,
  IfSome,
  IfOk,
  OnOk,
  OnErr,
  None,
  false,
};
ghost use Rattle.std.specs.Option.{option_copied, option_map_or};
ghost use Rattle.std.specs.List.{find, position};
ghost use Rattle.share_base.specs.Shapes.{IsScreenShape};
ghost use Rattle.share_base.specs.declared.screen_set.TheConstants.{MOST_SCREENS};
ghost use Rattle.message_codec.specs.Spelling.{body_of};
ghost use Rattle.hello_states.specs.Phases.{after_beat_in, after_hearing_in};
ghost use Rattle.hello_states.specs.Advancing.{admitted_as, joined_with, reshaped_to};
ghost use Rattle.wire_frames.specs.declared.limits.TheConstants.{BODY_LIMIT};
ghost use Rattle.connection_table.specs.Calls.{Reads, Sends, Parts, Drops, Takes, Advances};
ghost use Rattle.connection_table.specs.PartsTaken.{TakesPart};
ghost use Rattle.connection_table.specs.Tables.{is_of, without, is_joined_as, is_too_slow, ChangesAt};

use crate::connection::Connection;
use crate::reading::Reading;
use hello_states::PartCause;
use message_codec::{ClipMark, Msg};
use share_base::{ClipId, Octets, OutOfMemory, ScreenNo, Shape};
use std::alloc::Global;
use std::marker::Model;

/// The connections that are open, in the order of their serials. Contracts see the list of them.
#[derive(Drop)]
pub struct Table {
    connections: Vec<Connection>,
}

impl Model for Table {
    ghost use Rattle.std.specs.Prelude.{List};
    ghost use Rattle.connection_table.specs.declared.connection.Connection.{Connection};

    ghost Value = { List Connection };

    ghost view = { λ t. t.connections.items };
}

impl Table {
    /// No connection is open. It takes no memory yet.
    pub fn new(alloc: Global) -> Table
        ensures { result ≡ [] }
    {
        Table {
            connections: Vec::new(alloc),
        }
    }

    /// Returns the connections, by rising serial.
    pub fn as_slice(&self) -> &[Connection]
        ensures { result.now ≡ self.now }
    {
        self.connections.as_slice()
    }

    /// Returns the connection of that serial.
    pub fn get(&self, serial: u64) -> Option<&Connection>
        ensures { option_copied result ≡ find (is_of serial) self.now }
    {
        self.connections.iter().find(|c| c.serial == serial)
    }

    /// Returns the connection that is joined as that screen.
    pub fn joined_as(&self, screen: ScreenNo) -> Option<&Connection>
        ensures { option_copied result ≡ find (is_joined_as screen.0) self.now }
    {
        self.connections.iter().find(|c| c.is_joined_as(screen))
    }

    /// Returns the connection of least serial that isn't parting and of which a frame was left out.
    pub fn first_slow(&self) -> Option<&Connection>
        ensures { option_copied result ≡ find is_too_slow self.now }
    {
        self.connections.iter().find(|c| c.is_too_slow())
    }

    /// Tells whether a frame for the connection of that serial was left out of its queue.
    pub fn is_slow(&self, serial: u64) -> bool
        ensures { result ≡ option_map_or (λ c. c.queue.is_slow) (find (is_of serial) self.now)
            false }
    {
        match self.get(serial) {
            Some(connection) => connection.queue.is_slow(),
            None => false,
        }
    }

    /// Does nothing. Its contract says that fewer than 2^63 bytes are taken, whatever is taken of
    /// those that are queued for the connection of that serial.
    pub fn assure_room(&self, serial: u64)
        ensures { IfSome (find (is_of serial) self.now)
            (λ c. c.queue.taken + length c.queue.untaken < 2 ^ 63) }
    {
        if let Some(connection) = self.get(serial) {
            connection.queue.assure_sound();
        }
    }

    // Returns the index of the connection of that serial.
    fn place_of(&self, serial: u64) -> Option<usize>
        ensures place { result ≡ position (is_of serial) self.now }
        ensures within { IfSome result (λ i. i < length self.now) }
    {
        self.connections.iter().position(|c| c.serial == serial)
    }

    /// Adds a connection, whose serial is greater than all others. On `OutOfMemory` nothing
    /// changes.
    pub fn add(&mut self, connection: Connection) -> Result<(), OutOfMemory>
        ensures ok { OnOk result (self.new ≡ self.old ++ connection ∷ []) }
        ensures err { OnErr result (self.new ≡ self.old) }
    {
        self.connections.push(connection)?;
        Ok(())
    }

    /// Removes the connection of that serial.
    pub fn remove(&mut self, serial: u64)
        ensures { self.new ≡ without serial self.old }
    {
        self.connections.retain(|c| c.serial != serial);
    }

    /// Reads the next piece of the bytes of the connection of that serial, which are fewer than
    /// 2^63 in all, and returns what it brings. Of another serial nothing is read. After
    /// `OutOfMemory` some of the piece may be read.
    pub fn read(&mut self, alloc: Global, serial: u64, piece: &[u8]) -> Result<Reading, OutOfMemory>
        requires { IfSome (find (is_of serial) self.old)
            (λ c. c.reader.total + length piece.now < 2 ^ 63) }
        ensures { IfOk result
            (λ reading. ChangesAt serial (Reads piece.now reading) self.old self.new) }
    {
        let Some(place) = self.place_of(serial) else {
            return Ok(Reading::nothing(alloc));
        };
        let reading = self.connections[place].read(alloc, piece)?;
        Ok(reading)
    }

    /// Queues a message for the connection of that serial. On `OutOfMemory` nothing changes.
    pub fn send(&mut self, serial: u64, message: &Msg) -> Result<(), OutOfMemory>
        requires { length (body_of message.now) ≤ BODY_LIMIT }
        ensures ok { OnOk result (ChangesAt serial (Sends message.now) self.old self.new) }
        ensures err { OnErr result (self.new ≡ self.old) }
    {
        let Some(place) = self.place_of(serial) else {
            return Ok(());
        };
        self.connections[place].send(message)?;
        Ok(())
    }

    /// Parts the connection of that serial for that cause at that moment, in milliseconds; where
    /// the cause says so, what is queued is dropped. One that is parting already keeps its cause.
    pub fn part(&mut self, serial: u64, cause: PartCause, now: u64)
        ensures { ChangesAt serial (Parts cause now) self.old self.new }
    {
        if let Some(place) = self.place_of(serial) {
            self.connections[place].part(cause, now);
        }
    }

    /// Counts a beat as sent to the connection of that serial at that moment, in milliseconds, if
    /// it is joined and a beat is due.
    pub fn beat(&mut self, serial: u64, now: u64)
        ensures { ChangesAt serial (Advances (λ p. after_beat_in p now)) self.old self.new }
    {
        if let Some(place) = self.place_of(serial) {
            self.connections[place].beat(now);
        }
    }

    /// Counts a whole message of the connection of that serial as heard at that moment, in
    /// milliseconds, if it is joined.
    pub fn hear(&mut self, serial: u64, now: u64)
        ensures { ChangesAt serial (Advances (λ p. after_hearing_in p now)) self.old self.new }
    {
        if let Some(place) = self.place_of(serial) {
            self.connections[place].hear(now);
        }
    }

    /// Admits the connection of that serial as a screen, if it is to answer. Its keep-alive will
    /// have that rate, in milliseconds.
    pub fn admit(&mut self, serial: u64, screen: ScreenNo, rate: u32)
        requires { screen.0 < MOST_SCREENS }
        ensures { ChangesAt serial (Advances (admitted_as screen.0 rate)) self.old self.new }
    {
        if let Some(place) = self.place_of(serial) {
            self.connections[place].admit(screen, rate);
        }
    }

    /// Joins the connection of that serial with that shape at that moment, in milliseconds, if its
    /// shape was asked.
    pub fn join(&mut self, serial: u64, shape: Shape, now: u64)
        requires { IsScreenShape shape }
        ensures { ChangesAt serial (Advances (joined_with shape now)) self.old self.new }
    {
        if let Some(place) = self.place_of(serial) {
            self.connections[place].join(shape, now);
        }
    }

    /// Gives the screen of the connection of that serial another shape at that moment, in
    /// milliseconds, if it is joined.
    pub fn reshape(&mut self, serial: u64, shape: Shape, now: u64)
        requires { IsScreenShape shape }
        ensures { ChangesAt serial (Advances (reshaped_to shape now)) self.old self.new }
    {
        if let Some(place) = self.place_of(serial) {
            self.connections[place].reshape(shape, now);
        }
    }

    /// Takes a part of a clipboard from the connection of that serial, and returns the bytes of the
    /// whole clipboard that it ends, if it does. On `OutOfMemory` nothing changes.
    pub fn take_part(
        &mut self,
        serial: u64,
        clip: ClipId,
        seq: u32,
        mark: ClipMark,
        bytes: &[u8],
    ) -> Result<Option<Octets>, OutOfMemory>
        ensures ok { IfOk result
            (λ whole. ChangesAt serial (TakesPart clip seq mark bytes.now whole)
            self.old self.new) }
        ensures err { OnErr result (self.new ≡ self.old) }
    {
        let Some(place) = self.place_of(serial) else {
            return Ok(None);
        };
        let whole = self.connections[place].take_part(clip, seq, mark, bytes)?;
        Ok(whole)
    }

    /// Drops what is queued for the connection of that serial and not taken.
    pub fn drop_bytes(&mut self, serial: u64)
        ensures { ChangesAt serial Drops self.old self.new }
    {
        if let Some(place) = self.place_of(serial) {
            self.connections[place].drop_bytes();
        }
    }

    /// Notes that the connection of that serial took the first `count` of its untaken bytes. Fewer
    /// than 2^63 are taken in all.
    pub fn take(&mut self, serial: u64, count: usize)
        requires there { IfSome (find (is_of serial) self.old)
            (λ c. count ≤ length c.queue.untaken) }
        requires fits { IfSome (find (is_of serial) self.old)
            (λ c. c.queue.taken + count < 2 ^ 63) }
        ensures { ChangesAt serial (Takes count) self.old self.new }
    {
        if let Some(place) = self.place_of(serial) {
            self.connections[place].take(count);
        }
    }
}
