//! What can be wrong with a frame.

ghost use Rattle.std.specs.Prelude.{◌≡◌};
ghost use Rattle.share_base.specs.Reasons.{reason_text};

/// What is wrong with a frame. The first eight stand in the order in which they are looked for.
#[derive(Clone, Copy, Debug, PartialEq, Eq)]
pub enum Reason {
    /// Its length is above the limit.
    TooLong,
    /// It begins as no message does.
    Code,
    /// The other end sends that message.
    End,
    /// A field doesn't fit into it.
    Short,
    /// Bytes stand after the last field.
    Trailing,
    /// It names a clipboard above 1.
    Clip,
    /// It names no part of a clipboard.
    Mark,
    /// The message may not stand there.
    State,
    /// The stream ended inside it.
    Cut,
}

impl Reason {
    /// The word that it is printed as.
    pub fn text(self) -> &'static [u8]
        ensures { result.now ≡ reason_text self }
    {
        match self {
            Reason::TooLong => b"toolong",
            Reason::Code => b"code",
            Reason::End => b"end",
            Reason::Short => b"short",
            Reason::Trailing => b"trailing",
            Reason::Clip => b"clip",
            Reason::Mark => b"mark",
            Reason::State => b"state",
            Reason::Cut => b"cut",
        }
    }
}
