//! The log.

ghost use Rattle.std.specs.Prelude.{◌≡◌, ◌++◌, [], OnOk, OnErr};
ghost use Rattle.share_base.specs.Hex.{hex};
ghost use Rattle.machine.specs.Logs.{log_line};
ghost use Rattle.machine.specs.States.{Open, Join, Part, Send, Closed, Local};
ghost use Rattle.held_inputs.specs.declared.line.Line.TheVariants as screen;

use crate::lines::{
    LineBuffer, put_closed, put_joined, put_local_clip, put_opened, put_parted, put_sent,
};
use held_inputs::{Line, put_line};
use hello_states::PartCause;
use message_codec::{Msg, show};
use share_base::{Buffer, ClipId, Octets, OutOfMemory, ScreenName, ShortLine, hex_pair};
use std::alloc::Global;
use std::marker::Model;

/// The text of a log that was not cleared yet. Contracts see the list of its bytes. Each call
/// appends whole lines; on `OutOfMemory` the text is unchanged.
#[derive(Drop)]
pub struct Log {
    pub(crate) text: Vec<u8>,
    line: Octets,
}

impl Model for Log {
    ghost use Rattle.std.specs.Prelude.{List, ℕ};

    ghost Value = { List ℕ };

    ghost view = { λ l. l.text.items };
}

impl Log {
    /// Creates an empty log, which allocates nothing yet.
    pub fn new(alloc: Global) -> Log
        ensures { result ≡ [] }
    {
        Log {
            text: Vec::new(alloc),
            line: Octets::new(alloc),
        }
    }

    /// Returns the text.
    pub fn as_slice(&self) -> &[u8]
        ensures { result.now ≡ self.now }
    {
        self.text.as_slice()
    }

    /// Removes the text and keeps the memory.
    pub fn clear(&mut self)
        ensures { self.new ≡ [] }
    {
        self.text.clear();
    }

    /// Logs that a connection was accepted.
    pub fn opened(&mut self, serial: u64) -> Result<(), OutOfMemory>
        ensures ok { OnOk result (self.new ≡ self.old ++ log_line (Open serial)) }
        ensures err { OnErr result (self.new ≡ self.old) }
    {
        let mut line = LineBuffer::new();
        put_opened(&mut line, serial);
        self.text.extend_from_slice(line.as_slice())?;
        Ok(())
    }

    /// Logs that a connection joined as the screen of that name.
    pub fn joined(&mut self, serial: u64, name: &ScreenName) -> Result<(), OutOfMemory>
        ensures ok { OnOk result (self.new ≡ self.old ++ log_line (Join serial name.now)) }
        ensures err { OnErr result (self.new ≡ self.old) }
    {
        let mut line = LineBuffer::new();
        put_joined(&mut line, serial, name.as_slice());
        self.text.extend_from_slice(line.as_slice())?;
        Ok(())
    }

    /// Logs that a connection parted.
    pub fn parted(&mut self, serial: u64, cause: PartCause) -> Result<(), OutOfMemory>
        ensures ok { OnOk result (self.new ≡ self.old ++ log_line (Part serial cause)) }
        ensures err { OnErr result (self.new ≡ self.old) }
    {
        let mut line = LineBuffer::new();
        put_parted(&mut line, serial, cause);
        self.text.extend_from_slice(line.as_slice())?;
        Ok(())
    }

    /// Logs that a message was queued for a connection.
    pub fn sent(&mut self, serial: u64, msg: &Msg) -> Result<(), OutOfMemory>
        ensures ok { OnOk result (self.new ≡ self.old ++ log_line (Send serial msg.now)) }
        ensures err { OnErr result (self.new ≡ self.old) }
    {
        show_sent(&mut self.line, serial, msg)?;
        self.text.extend_from_slice(self.line.as_slice())?;
        Ok(())
    }

    /// Logs that a connection was closed, which had taken `taken` of the `queued` bytes.
    pub fn closed(&mut self, serial: u64, taken: u64, queued: u64) -> Result<(), OutOfMemory>
        ensures ok { OnOk result (self.new ≡ self.old ++ log_line (Closed serial taken queued)) }
        ensures err { OnErr result (self.new ≡ self.old) }
    {
        let mut line = LineBuffer::new();
        put_closed(&mut line, serial, taken, queued);
        self.text.extend_from_slice(line.as_slice())?;
        Ok(())
    }

    /// Logs that the primary's clipboard was taken by another screen.
    pub fn local_grab(&mut self, clip: ClipId) -> Result<(), OutOfMemory>
        ensures ok { OnOk result (self.new ≡ self.old ++ log_line (Local (screen.Grab clip))) }
        ensures err { OnErr result (self.new ≡ self.old) }
    {
        let mut line = ShortLine::new();
        line.extend(b"local ");
        put_line(&mut line, Line::Grab { clip });
        self.text.extend_from_slice(line.as_slice())?;
        Ok(())
    }

    /// Logs the contents that the primary's clipboard was given.
    pub fn local_clip(&mut self, clip: ClipId, bytes: &[u8]) -> Result<(), OutOfMemory>
        ensures ok { OnOk result (self.new
            ≡ self.old ++ log_line (Local (screen.Clip clip bytes.now))) }
        ensures err { OnErr result (self.new ≡ self.old) }
    {
        show_clip(&mut self.line, clip, bytes)?;
        self.text.extend_from_slice(self.line.as_slice())?;
        Ok(())
    }
}

// Shows the line of a message in a buffer, whose bytes are lost. On `OutOfMemory` it holds any
// bytes.
fn show_sent(line: &mut Octets, serial: u64, msg: &Msg) -> Result<(), OutOfMemory>
    ensures { OnOk result (line.new ≡ log_line (Send serial msg.now)) }
{
    let mut head = ShortLine::new();
    put_sent(&mut head, serial);
    line.clear();
    line.extend(head.as_slice())?;
    line.push(b' ')?;
    show(msg, line)?;
    line.push(b'\n')
}

// Shows the line of a clipboard's contents in a buffer, whose bytes are lost. On `OutOfMemory` it
// holds any bytes.
fn show_clip(line: &mut Octets, clip: ClipId, bytes: &[u8]) -> Result<(), OutOfMemory>
    ensures { OnOk result (line.new ≡ log_line (Local (screen.Clip clip bytes.now))) }
{
    let mut head = ShortLine::new();
    put_local_clip(&mut head, clip);
    line.clear();
    line.extend(head.as_slice())?;
    line.push(b' ')?;
    put_hex(line, bytes)?;
    line.push(b'\n')
}

// Appends the digits of bytes, or `-` for none. On `OutOfMemory` any bytes may have been appended.
fn put_hex(line: &mut Octets, bytes: &[u8]) -> Result<(), OutOfMemory>
    ensures { OnOk result (line.new ≡ line.old ++ hex bytes.now) }
{
    if bytes.is_empty() {
        return line.push(b'-');
    }
    for byte in bytes {
        line.extend(&hex_pair(*byte))?;
    }
    Ok(())
}
