//! What bodies begin with.

ghost use Rattle.std.specs.Prelude.{◌≡◌, ◌↔◌, IsTrue};
ghost use Rattle.message_codec.specs.Table.{text, SentBy};
ghost use Rattle.message_codec.specs.Codes.{code_at, first_code, hello_of};

use crate::messages::End;

/// A kind of message.
#[derive(Clone, Copy, Debug, PartialEq, Eq)]
pub enum Code {
    Hello,
    HelloBack,
    QueryInfo,
    InfoAck,
    ResetOptions,
    Bye,
    Enter,
    Leave,
    Saver,
    SetOptions,
    KeyDown,
    KeyRepeat,
    KeyUp,
    ButtonDown,
    ButtonUp,
    MoveTo,
    MoveBy,
    Wheel,
    BadVersion,
    Busy,
    Unknown,
    Malformed,
    Noop,
    Info,
    Alive,
    Grab,
    ClipPart,
    FilePart,
    DragInfo,
}

/// Those that begin with four letters, the most frequent first.
const FOUR_LETTERS: [Code; 27] = [
    Code::MoveTo,
    Code::KeyDown,
    Code::KeyUp,
    Code::MoveBy,
    Code::Wheel,
    Code::ButtonDown,
    Code::ButtonUp,
    Code::KeyRepeat,
    Code::Alive,
    Code::Enter,
    Code::Leave,
    Code::Grab,
    Code::ClipPart,
    Code::Noop,
    Code::Info,
    Code::QueryInfo,
    Code::InfoAck,
    Code::ResetOptions,
    Code::SetOptions,
    Code::Saver,
    Code::Bye,
    Code::BadVersion,
    Code::Busy,
    Code::Unknown,
    Code::Malformed,
    Code::FilePart,
    Code::DragInfo,
];

impl Code {
    /// What the bodies of this kind begin with.
    pub fn text(self) -> &'static [u8]
        ensures { result.now ≡ text self }
    {
        match self {
            Code::Hello | Code::HelloBack => b"Synergy",
            Code::QueryInfo => b"QINF",
            Code::InfoAck => b"CIAK",
            Code::ResetOptions => b"CROP",
            Code::Bye => b"CBYE",
            Code::Enter => b"CINN",
            Code::Leave => b"COUT",
            Code::Saver => b"CSEC",
            Code::SetOptions => b"DSOP",
            Code::KeyDown => b"DKDN",
            Code::KeyRepeat => b"DKRP",
            Code::KeyUp => b"DKUP",
            Code::ButtonDown => b"DMDN",
            Code::ButtonUp => b"DMUP",
            Code::MoveTo => b"DMMV",
            Code::MoveBy => b"DMRM",
            Code::Wheel => b"DMWM",
            Code::BadVersion => b"EICV",
            Code::Busy => b"EBSY",
            Code::Unknown => b"EUNK",
            Code::Malformed => b"EBAD",
            Code::Noop => b"CNOP",
            Code::Info => b"DINF",
            Code::Alive => b"CALV",
            Code::Grab => b"CCLP",
            Code::ClipPart => b"DCLP",
            Code::FilePart => b"DFTR",
            Code::DragInfo => b"DDRG",
        }
    }

    /// Whether that end sends this kind.
    pub fn is_sent_by(self, end: End) -> bool
        ensures { IsTrue result ↔ SentBy self end }
    {
        match self {
            Code::Hello
            | Code::QueryInfo
            | Code::InfoAck
            | Code::ResetOptions
            | Code::Bye
            | Code::Enter
            | Code::Leave
            | Code::Saver
            | Code::SetOptions
            | Code::KeyDown
            | Code::KeyRepeat
            | Code::KeyUp
            | Code::ButtonDown
            | Code::ButtonUp
            | Code::MoveTo
            | Code::MoveBy
            | Code::Wheel
            | Code::BadVersion
            | Code::Busy
            | Code::Unknown
            | Code::Malformed => end == End::Server,
            Code::HelloBack | Code::Noop | Code::Info => end == End::Client,
            Code::Alive | Code::Grab | Code::ClipPart | Code::FilePart | Code::DragInfo => true,
        }
    }

    /// The hello that this end sends.
    fn hello_of(end: End) -> Code
        ensures { result ≡ hello_of end }
    {
        match end {
            End::Server => Code::Hello,
            End::Client => Code::HelloBack,
        }
    }

    /// The kind that a body from that end begins as.
    #[tactic(auto, unfolding(crate::specs::Codes::code_at))]
    pub fn of(from: End, body: &[u8]) -> Option<Code>
        ensures { result ≡ code_at from body.now }
    {
        if body.starts_with(Code::Hello.text()) {
            return Some(Code::hello_of(from));
        }
        first_of(&FOUR_LETTERS, body)
    }
}

fn first_of(codes: &[Code], body: &[u8]) -> Option<Code>
    ensures { result ≡ first_code codes.now body.now }
{
    codes
        .iter()
        .copied()
        .find(|code| body.starts_with(code.text()))
}
