//! Sets of corners, and the words that make them.

ghost use Rattle.std.specs.Prelude.{◌≡◌, ◌≤◌, ◌^◌, ◌<◌, IfSome};
ghost use Rattle.option_table.specs.Corners as spec;
ghost use Rattle.option_table.specs.Corners.{corner_of, corner_named, after_word, corners_of_text};
ghost use Rattle.option_table.specs.CornerViews.{corner_text};

use text_lines::{WordKind, unblanked, word_len};

/// A word for corners.
#[derive(Clone, Copy, Debug, PartialEq, Eq)]
pub enum CornerWord {
    Nowhere,
    All,
    Left,
    Right,
    Top,
    Bottom,
    TopLeft,
    TopRight,
    BottomLeft,
    BottomRight,
}

const WORDS: [CornerWord; 10] = [
    CornerWord::Nowhere,
    CornerWord::All,
    CornerWord::Left,
    CornerWord::Right,
    CornerWord::Top,
    CornerWord::Bottom,
    CornerWord::TopLeft,
    CornerWord::TopRight,
    CornerWord::BottomLeft,
    CornerWord::BottomRight,
];

/// What the table says of a word for corners.
#[derive(Clone, Copy, Debug)]
pub(crate) struct CornerRow {
    pub word: &'static str,
    pub corners: u32,
}

fn make_row(word: &'static str, corners: u32) -> CornerRow
    ensures { corner_text result ≡ record { word = word.now; corners = corners } }
{
    CornerRow { word, corners }
}

impl CornerWord {
    #[tactic(auto, unfolding(crate::specs::Corners::corner_of))]
    fn row(self) -> CornerRow
        ensures row { corner_text result ≡ corner_of self }
        ensures bound { result.corners ≤ 15 }
    {
        match self {
            CornerWord::Nowhere => make_row("none", 0),
            CornerWord::All => make_row("all", 15),
            CornerWord::Left => make_row("left", 5),
            CornerWord::Right => make_row("right", 10),
            CornerWord::Top => make_row("top", 3),
            CornerWord::Bottom => make_row("bottom", 12),
            CornerWord::TopLeft => make_row("top-left", 1),
            CornerWord::TopRight => make_row("top-right", 2),
            CornerWord::BottomLeft => make_row("bottom-left", 4),
            CornerWord::BottomRight => make_row("bottom-right", 8),
        }
    }

    /// Its text.
    pub(crate) fn word(self) -> &'static [u8]
        ensures { result.now ≡ (corner_of self).word }
    {
        self.row().word.as_bytes()
    }

    /// The corners that it names: the sum of top-left 1, top-right 2, bottom-left 4 and
    /// bottom-right 8.
    pub(crate) fn corners(self) -> u32
        ensures corners { result ≡ (corner_of self).corners }
        ensures bound { result ≤ 15 }
    {
        self.row().corners
    }

    /// The word that the text is. `None` if it is none of them.
    #[tactic(auto, unfolding(crate::specs::Corners::corner_named))]
    fn named(text: &[u8]) -> Option<CornerWord>
        ensures { result ≡ corner_named text.now }
    {
        WORDS
            .iter()
            .copied()
            .find(|corner| corner.row().word.as_bytes() == text)
    }
}

#[tactic(auto, using(crate::proofs::CornerSets::or_small))]
fn with_corners(set: u32, word: &[u8]) -> Option<u32>
    requires { set ≤ 15 }
    ensures gives { result ≡ spec.with_corners set (corner_named word.now) }
    ensures bound { IfSome result (λ s. s ≤ 15) }
{
    let corner = CornerWord::named(word)?;
    Some(set | corner.corners())
}

fn without_corners(set: u32, word: &[u8]) -> Option<u32>
    requires { set ≤ 15 }
    ensures gives { result ≡ spec.without_corners set (corner_named word.now) }
    ensures bound { IfSome result (λ s. s ≤ 15) }
{
    let corner = CornerWord::named(word)?;
    Some(set & (15 - corner.corners()))
}

#[tactic(auto, using(crate::proofs::CornerSets::or_small))]
fn plain_corners(set: u32, word: &[u8]) -> Option<u32>
    requires { set ≤ 15 }
    ensures gives { result ≡ spec.plain_corners set (corner_named word.now) }
    ensures bound { IfSome result (λ s. s ≤ 15) }
{
    let corner = CornerWord::named(word)?;
    let corners = corner.corners();
    if corners == 0 {
        return Some(0);
    }
    Some(set | corners)
}

#[tactic(auto, unfolding(crate::specs::Corners::after_word))]
fn after_word(set: u32, word: &[u8]) -> Option<u32>
    requires { set ≤ 15 }
    ensures gives { result ≡ after_word set word.now }
    ensures bound { IfSome result (λ s. s ≤ 15) }
{
    match word {
        [b'+', rest @ ..] => with_corners(set, rest),
        [b'-', rest @ ..] => without_corners(set, rest),
        _ => plain_corners(set, word),
    }
}

/// The set that the words of a text make, one after another. `None` if the text has no word, or one
/// that is none for corners.
pub(crate) fn corners(text: &[u8]) -> Option<u32>
    ensures gives { result ≡ corners_of_text text.now }
    ensures bound { IfSome result (λ s. s ≤ 15) }
{
    let mut rest = unblanked(text);
    if rest.is_empty() {
        return None;
    }
    let mut set = 0;
    while !rest.is_empty() {
        let (word, after) = rest.split_at(word_len(rest, WordKind::Solid));
        match after_word(set, word) {
            Some(next) => set = next,
            None => return None,
        }
        rest = unblanked(after);
    }
    Some(set)
}
