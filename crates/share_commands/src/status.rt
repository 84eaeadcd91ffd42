//! How a command ends.

ghost use Rattle.std.specs.Prelude.{◌≡◌, [], ◌∷◌, ◌++◌, ◌≤◌, codes, length};
ghost use Rattle.std.specs.Fmt.{decimal};
ghost use Rattle.share_base.specs.Reasons.{reason_text};
ghost use Rattle.config_text.specs.Kinds.{kind_text};
ghost use Rattle.script_screen.specs.Kinds.{text_kind_word};

use client_core::{LostCause, Which};
use config_text::ConfigKind;
use script_screen::TextKind;
use share_base::{Buffer, Lines, Reason, put_u32, put_u64};

/// How a command ends. `docs/protocol.md` has the table of codes and lines.
#[derive(Clone, Copy, Debug, PartialEq, Eq)]
pub enum Status {
    /// All was done.
    Ok,
    /// A configuration is refused.
    BadConfig {
        /// Its line, from 1; 0 where the file is too big.
        line: u32,
        /// The place in the line, from 1; 0 where the file is too big.
        column: u32,
        /// What is wrong there.
        kind: ConfigKind,
    },
    /// A script is refused, of a server or of a client.
    BadScript {
        /// Its line, from 1; 0 where the file is too big.
        line: u32,
        /// The first thing that is wrong there.
        kind: TextKind,
    },
    /// A trace is refused.
    BadTrace {
        /// Its line, from 1; 0 where the file is too big.
        line: u32,
        /// The first thing that is wrong there.
        kind: TextKind,
    },
    /// A frame is bad, at that place, the number of bytes before it.
    BadFrames {
        /// Where its length field begins.
        place: u64,
        /// What is wrong with it.
        reason: Reason,
    },
    /// More bytes were read than a command takes.
    InputTooLong,
    /// The words name no command.
    Usage,
    /// The input failed.
    ReadFault,
    /// The output failed.
    WriteFault,
    /// The hub failed.
    HubFault,
    /// The link failed.
    LinkFault,
    /// Memory could not be had.
    OutOfMemory,
    /// It had as many turns as it was given.
    TurnsSpent,
    /// The server refused the client.
    Refused(Which),
    /// The peer was lost.
    Lost(LostCause),
    /// A frame of the server is bad, at that place, the number of bytes before it.
    BadPeer {
        /// Where its length field begins.
        place: u64,
        /// What is wrong with it.
        reason: Reason,
    },
}

/// Where and why a configuration is refused, on a line that is empty yet.
fn put_refusal(text: &mut Lines, line: u32, column: u32, kind: ConfigKind)
    requires { text.old ≡ [] }
    ensures { text.new
        ≡ codes "config " ++ decimal line ++ 32 ∷ [] ++ decimal column ++ 32 ∷ [] ++ kind_text kind
        ++ 10 ∷ [] }
{
    text.extend(b"config ");
    put_u32(text, line);
    text.extend(b" ");
    put_u32(text, column);
    text.extend(b" ");
    text.extend(kind.text());
    text.extend(b"\n");
}

/// Which line of a text is refused and why, on a line that is empty yet.
fn put_text_refusal(text: &mut Lines, word: &'static [u8], line: u32, kind: TextKind)
    requires empty { text.old ≡ [] }
    requires short { length word.now ≤ 7 }
    ensures { text.new
        ≡ word.now ++ decimal line ++ 32 ∷ [] ++ text_kind_word kind ++ 10 ∷ [] }
{
    text.extend(word);
    put_u32(text, line);
    text.extend(b" ");
    text.extend(kind.text());
    text.extend(b"\n");
}

/// Where a frame is bad and why, on a line that is empty yet.
fn put_bad_frame(text: &mut Lines, word: &'static [u8], place: u64, reason: Reason)
    requires empty { text.old ≡ [] }
    requires short { length word.now ≤ 7 }
    ensures { text.new
        ≡ word.now ++ decimal place ++ 32 ∷ [] ++ reason_text reason ++ 10 ∷ [] }
{
    text.extend(word);
    put_u64(text, place);
    text.extend(b" ");
    text.extend(reason.text());
    text.extend(b"\n");
}

impl Status {
    ghost use Rattle.share_commands.specs.Statuses.{exit_code, status_line};

    /// The exit code, 0 to 9.
    pub fn code(&self) -> u8
        ensures { result ≡ exit_code self.now }
    {
        match self {
            Status::Ok => 0,
            Status::BadConfig { .. }
            | Status::BadScript { .. }
            | Status::BadTrace { .. }
            | Status::BadFrames { .. }
            | Status::InputTooLong => 1,
            Status::Usage => 2,
            Status::ReadFault => 3,
            Status::WriteFault => 4,
            Status::HubFault | Status::LinkFault => 5,
            Status::OutOfMemory => 6,
            Status::TurnsSpent => 7,
            Status::Refused(_) => 8,
            Status::Lost(_) | Status::BadPeer { .. } => 9,
        }
    }

    /// The line on standard error, with its newline; none for `Ok`. It takes no memory.
    pub fn report(&self) -> Lines
        ensures { result ≡ status_line self.now }
    {
        let mut text = Lines::new();
        match *self {
            Status::Ok => {}
            Status::InputTooLong => text.extend(b"input too long\n"),
            Status::Usage => text.extend(b"usage\n"),
            Status::ReadFault => text.extend(b"read fault\n"),
            Status::WriteFault => text.extend(b"write fault\n"),
            Status::OutOfMemory => text.extend(b"out of memory\n"),
            Status::HubFault => text.extend(b"hub fault\n"),
            Status::LinkFault => text.extend(b"link fault\n"),
            Status::TurnsSpent => text.extend(b"turns spent\n"),
            Status::Refused(Which::Version) => text.extend(b"refused version\n"),
            Status::Refused(Which::Eicv) => text.extend(b"refused EICV\n"),
            Status::Refused(Which::Ebsy) => text.extend(b"refused EBSY\n"),
            Status::Refused(Which::Eunk) => text.extend(b"refused EUNK\n"),
            Status::Refused(Which::Ebad) => text.extend(b"refused EBAD\n"),
            Status::Lost(LostCause::Ended) => text.extend(b"lost ended\n"),
            Status::Lost(LostCause::Failed) => text.extend(b"lost failed\n"),
            Status::Lost(LostCause::Dead) => text.extend(b"lost dead\n"),
            Status::Lost(LostCause::Slow) => text.extend(b"lost slow\n"),
            Status::BadConfig { line, column, kind } => put_refusal(&mut text, line, column, kind),
            Status::BadScript { line, kind } => put_text_refusal(&mut text, b"script ", line, kind),
            Status::BadTrace { line, kind } => put_text_refusal(&mut text, b"trace ", line, kind),
            Status::BadFrames { place, reason } => {
                put_bad_frame(&mut text, b"frames ", place, reason)
            }
            Status::BadPeer { place, reason } => put_bad_frame(&mut text, b"peer ", place, reason),
        }
        text
    }
}
