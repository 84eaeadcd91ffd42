//! The words of the sides.

ghost use Rattle.std.specs.Prelude.{◌≡◌};
ghost use Rattle.share_base.specs.Sides.{side_text, side_named};

use crate::shape::Side;

const SIDES: [Side; 4] = [Side::Left, Side::Right, Side::Up, Side::Down];

impl Side {
    /// Its word: `left`, `right`, `up` or `down`.
    pub fn word(self) -> &'static [u8]
        ensures { result.now ≡ side_text self }
    {
        match self {
            Side::Left => b"left",
            Side::Right => b"right",
            Side::Up => b"up",
            Side::Down => b"down",
        }
    }

    /// The side with that word, in small letters; `None` if it is no side's.
    pub fn named(word: &[u8]) -> Option<Side>
        ensures { result ≡ side_named word.now }
    {
        SIDES.iter().copied().find(|side| side.word() == word)
    }
}
