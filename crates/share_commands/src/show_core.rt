//! The core of `show`.

ghost use Rattle.std.specs.Prelude.{◌≡◌, ◌+◌, ◌^◌, ◌<◌, ◌++◌, [], None, OnErr, OnOk, length};
ghost use Rattle.share_commands.specs.Ways.{shown};
ghost use Rattle.share_commands.specs.Shows.{TakesPiece, end_after};

use crate::line_core::LineCore;
use crate::status::Status;
use message_codec::{End, Msg, show};
use message_reader::{BadFrame, MessageReader, ReadStep, Role};
use share_base::{Lines, Octets, OutOfMemory, Reason};
use std::alloc::Global;

/// Shows a line for each message of an end's stream.
#[derive(Drop)]
pub struct ShowCore {
    from: End,
    reader: MessageReader,
    lines: Octets,
    done: Option<Status>,
}

// Adds the line of one message.
fn put_shown(msg: Msg, lines: &mut Octets) -> Result<(), OutOfMemory>
    ensures ok { OnOk result (lines.new ≡ lines.old ++ shown msg) }
    ensures err { OnErr result (lines.new ≡ lines.old) }
{
    let start = lines.len();
    show(&msg, lines)?;
    if let Err(error) = lines.push(b'\n') {
        lines.truncate(start);
        return Err(error);
    }
    Ok(())
}

// Adds the lines of the next piece's messages, and returns the bad frame that ends them.
fn show_piece(
    reader: &mut MessageReader,
    lines: &mut Octets,
    piece: &[u8],
) -> Result<Option<BadFrame>, OutOfMemory>
    requires { reader.old.total + length piece.now < 2 ^ 63 }
    ensures { TakesPiece reader.old reader.new lines.old lines.new result piece.now }
{
    reader.feed(piece)?;
    loop {
        match reader.next()? {
            ReadStep::More => return Ok(None),
            ReadStep::Bad(bad) => return Ok(Some(bad)),
            ReadStep::Message { place: _, msg } => put_shown(msg, lines)?,
        }
    }
}

/// How the command has ended after that answer; `None` while it goes on.
fn status_after(answer: Result<Option<BadFrame>, OutOfMemory>) -> Option<Status>
    ensures { result ≡ end_after answer }
{
    match answer {
        Ok(None) => None,
        Ok(Some(BadFrame { place, reason })) => Some(Status::BadFrames { place, reason }),
        Err(OutOfMemory) => Some(Status::OutOfMemory),
    }
}

impl ShowCore {
    ghost use Rattle.share_commands.specs.Ways.{showing};
    ghost use Rattle.share_commands.specs.Shows.{Shown};

    /// Creates the core of a stream of that end's messages.
    pub fn new(alloc: Global, from: End) -> ShowCore
        ensures kept { Shown result (showing from) [] [] [] }
        ensures empty { result.lines ≡ [] }
        ensures goes { result.done ≡ None }
        ensures from { result.from ≡ from }
    {
        ShowCore {
            from,
            reader: MessageReader::new(alloc, Role::Observer(from)),
            lines: Octets::new(alloc),
            done: None,
        }
    }
}

impl LineCore for ShowCore {
    ghost use Rattle.share_commands.specs.Ways.{showing};
    ghost use Rattle.share_commands.specs.Shows.{Shown, shown_keeps};

    ghost way = { λ core. showing core.from };

    ghost lines = { λ core. core.lines };

    ghost done = { λ core. core.done };

    ghost total = { λ core. core.reader.total };

    ghost kept = { Shown };

    ghost keeps = { shown_keeps };

    fn feed(&mut self, piece: &[u8]) {
        let answer = show_piece(&mut self.reader, &mut self.lines, piece);
        self.done = status_after(answer);
    }

    fn printed(&self) -> &[u8] {
        self.lines.as_slice()
    }

    fn clear_printed(&mut self) {
        self.lines.clear();
    }

    fn status(&self) -> Option<Status> {
        self.done
    }

    fn status_at_end(&self) -> Status {
        match self.reader.pending() {
            Some(place) => Status::BadFrames {
                place,
                reason: Reason::Cut,
            },
            None => Status::Ok,
        }
    }

    fn last_lines(&mut self, _end: Status) -> Lines {
        Lines::new()
    }
}
