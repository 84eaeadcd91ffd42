//! The parts that a clipboard is sent in.

ghost use Rattle.std.specs.Prelude.{◌≡◌, IfSome, IfNone};
ghost use Rattle.message_codec.specs.declared.clip_mark.ClipMark.{ClipMark as Mark};
ghost use Rattle.message_codec.specs.Marks.{mark_number};

/// Which part of a clipboard a message has.
#[derive(Clone, Copy, Debug, PartialEq, Eq)]
pub enum ClipMark {
    /// The size of the whole, in decimal digits; number 1.
    Start,
    /// The next bytes; number 2.
    Chunk,
    /// Nothing: the whole is there; number 3.
    End,
}

impl ClipMark {
    /// Its number, 1 to 3.
    pub fn number(self) -> u8
        ensures { result ≡ mark_number self }
    {
        match self {
            ClipMark::Start => 1,
            ClipMark::Chunk => 2,
            ClipMark::End => 3,
        }
    }

    /// The part of that number; `None` for a number other than 1, 2 and 3.
    pub fn of(number: u8) -> Option<ClipMark>
        ensures found { IfSome result (λ mark. number ≡ mark_number mark) }
        ensures none { IfNone result ((mark : Mark) → number ≡ mark_number mark → ⊥) }
    {
        match number {
            1 => Some(ClipMark::Start),
            2 => Some(ClipMark::Chunk),
            3 => Some(ClipMark::End),
            _ => None,
        }
    }
}
