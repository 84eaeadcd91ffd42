//! Why a script or a trace is refused.

ghost use Rattle.std.specs.Prelude.{◌≡◌};
ghost use Rattle.script_screen.specs.Kinds.{text_kind_word};

use share_base::OutOfMemory;
use std::alloc::AllocError;
use thiserror::Error;

/// What is wrong with a line. On one line the kinds are looked for in this order.
#[derive(Clone, Copy, Debug, PartialEq, Eq)]
pub enum TextKind {
    /// The text has more than 1,000,000 lines, empty ones among them.
    TooLong,
    /// No form begins with those words or has that many, or a byte may not stand there.
    BadWord,
    /// The first line of a server script isn't its `primary`, or no line is.
    NoPrimary,
    /// The first line of a trace isn't a `turn`.
    NoTurn,
    /// A later line of a server script is a `primary`.
    SecondPrimary,
    /// A number isn't spelled as one or is out of range.
    BadNumber,
    /// The bytes aren't spelled as pairs of hexadecimal digits, or are too many or too few.
    BadHex,
    /// The configuration has no such screen or alias.
    UnknownScreen,
    /// The lines above leave the button down that goes down.
    AlreadyDown,
    /// The lines above don't leave the button down that is repeated or goes up.
    NotDown,
    /// The moment of a turn is below that of the turn before.
    MomentBack,
    /// A connection's number isn't the count of those that joined, and one more.
    WrongNumber,
    /// No line above names the connection, or it has had its end.
    UnknownConnection,
}

impl TextKind {
    /// The word that it is printed as.
    pub fn text(self) -> &'static [u8]
        ensures { result.now ≡ text_kind_word self }
    {
        match self {
            TextKind::TooLong => b"TooLong",
            TextKind::BadWord => b"BadWord",
            TextKind::NoPrimary => b"NoPrimary",
            TextKind::NoTurn => b"NoTurn",
            TextKind::SecondPrimary => b"SecondPrimary",
            TextKind::BadNumber => b"BadNumber",
            TextKind::BadHex => b"BadHex",
            TextKind::UnknownScreen => b"UnknownScreen",
            TextKind::AlreadyDown => b"AlreadyDown",
            TextKind::NotDown => b"NotDown",
            TextKind::MomentBack => b"MomentBack",
            TextKind::WrongNumber => b"WrongNumber",
            TextKind::UnknownConnection => b"UnknownConnection",
        }
    }
}

/// Why there is no script or trace.
#[derive(Clone, Copy, Debug, PartialEq, Eq, Error)]
pub enum TextFault {
    /// The text is refused at its first bad line.
    #[error("the text is refused")]
    Refused {
        /// The line, from 1.
        line: u32,
        /// The first thing that is wrong there.
        kind: TextKind,
    },
    /// Memory ran out.
    #[error("out of memory")]
    OutOfMemory,
}

/// Why a line was not taken.
#[derive(Clone, Copy, Debug, PartialEq, Eq)]
pub(crate) enum LineFault {
    Refused(TextKind),
    OutOfMemory,
}

impl From<OutOfMemory> for LineFault {
    ghost use Rattle.std.specs.Prelude.{◌≡◌};
    ghost use Rattle.script_screen.specs.declared.kinds.LineFault.TheVariants as fault;

    ghost from_gives = { λ _ e. e ≡ fault.OutOfMemory };

    fn from(_error: OutOfMemory) -> LineFault {
        LineFault::OutOfMemory
    }
}

impl From<AllocError> for LineFault {
    ghost use Rattle.std.specs.Prelude.{◌≡◌};
    ghost use Rattle.script_screen.specs.declared.kinds.LineFault.TheVariants as fault;

    ghost from_gives = { λ _ e. e ≡ fault.OutOfMemory };

    fn from(_error: AllocError) -> LineFault {
        LineFault::OutOfMemory
    }
}
