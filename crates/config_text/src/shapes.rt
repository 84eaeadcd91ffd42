//! The forms of lines. An error says how many bytes of the line were left where its form can't go
//! on.

ghost use Rattle.std.specs.Prelude.{◌≡◌};
ghost use Rattle.text_lines.specs.Reading.{Gives};
ghost use Rattle.text_lines.specs.Views.{word_text};
ghost use Rattle.config_text.specs.Shapes.{section_at, header_at, alias_at, range_at};
ghost use Rattle.config_text.specs.Shapes.{maybe_range_at, link_at, setting_at};
ghost use Rattle.config_text.specs.Views.{range_text, maybe_range_text, link_text, setting_text};

use share_base::Side;
use text_lines::{Word, WordKind, end, literal, number, run, sign, unblanked, whole_word};

/// A range in brackets, with how many bytes were left where it begins.
#[derive(Clone, Copy, Debug, Drop)]
pub(crate) struct RangeText {
    pub a: u16,
    pub b: u16,
    pub left: usize,
}

/// The words of a link, with how many bytes were left where its side begins.
#[derive(Clone, Copy, Debug, Drop)]
pub(crate) struct LinkText<'a> {
    pub side: Side,
    pub left: usize,
    pub source: Option<RangeText>,
    pub name: Word<'a>,
    pub target: Option<RangeText>,
}

/// An option's key, and the rest of its line.
#[derive(Clone, Copy, Debug, Drop)]
pub(crate) struct SettingText<'a> {
    pub key: Word<'a>,
    pub value: Word<'a>,
}

/// `section: NAME`
#[tactic(auto, unfolding(crate::specs::Shapes::section_at))]
pub(crate) fn section(bytes: &[u8]) -> Result<Word<'_>, usize>
    ensures { Gives word_text result (section_at bytes.now) }
{
    let rest = literal(bytes, b"section")?;
    let rest = sign(unblanked(rest), b':')?;
    let (name, rest) = whole_word(rest, WordKind::Solid)?;
    end(rest)?;
    Ok(name)
}

/// `NAME:`
#[tactic(auto, unfolding(crate::specs::Shapes::header_at))]
pub(crate) fn header(bytes: &[u8]) -> Result<Word<'_>, usize>
    ensures { Gives word_text result (header_at bytes.now) }
{
    let (name, rest) = run(bytes, WordKind::Name);
    let rest = sign(rest, b':')?;
    end(rest)?;
    Ok(name)
}

/// `NAME`
#[tactic(auto, unfolding(crate::specs::Shapes::alias_at))]
pub(crate) fn alias(bytes: &[u8]) -> Result<Word<'_>, usize>
    ensures { Gives word_text result (alias_at bytes.now) }
{
    let (name, rest) = whole_word(bytes, WordKind::Name)?;
    end(rest)?;
    Ok(name)
}

#[tactic(auto, unfolding(crate::specs::Shapes::range_at))]
fn range(bytes: &[u8]) -> Result<(RangeText, &[u8]), usize>
    ensures { Gives (λ x. (range_text x.0, x.1.now)) result (range_at bytes.now) }
{
    let rest = sign(bytes, b'(')?;
    let (a, rest) = number(rest)?;
    let rest = sign(rest, b',')?;
    let (b, rest) = number(rest)?;
    let rest = sign(rest, b')')?;
    Ok((
        RangeText {
            a,
            b,
            left: bytes.len(),
        },
        rest,
    ))
}

#[tactic(auto, unfolding(crate::specs::Shapes::maybe_range_at))]
fn maybe_range(bytes: &[u8]) -> Result<(Option<RangeText>, &[u8]), usize>
    ensures { Gives (λ x. (maybe_range_text x.0, x.1.now)) result (maybe_range_at bytes.now) }
{
    match bytes {
        [b'(', ..] => {
            let (found, rest) = range(bytes)?;
            Ok((Some(found), rest))
        }
        _ => Ok((None, bytes)),
    }
}

/// `SIDE[(a,b)] = NAME[(c,d)]`
#[tactic(auto, unfolding(crate::specs::Shapes::link_at))]
pub(crate) fn link(bytes: &[u8]) -> Result<LinkText<'_>, usize>
    ensures { Gives link_text result (link_at bytes.now) }
{
    let (word, rest) = whole_word(bytes, WordKind::Side)?;
    let side = Side::named(word.text).ok_or(word.left)?;
    let (source, rest) = maybe_range(rest)?;
    let rest = sign(rest, b'=')?;
    let (name, rest) = whole_word(rest, WordKind::Name)?;
    let (target, rest) = maybe_range(rest)?;
    end(rest)?;
    Ok(LinkText {
        side,
        left: bytes.len(),
        source,
        name,
        target,
    })
}

/// `KEY = VALUE`
#[tactic(auto, unfolding(crate::specs::Shapes::setting_at))]
pub(crate) fn setting(bytes: &[u8]) -> Result<SettingText<'_>, usize>
    ensures { Gives setting_text result (setting_at bytes.now) }
{
    let (key, rest) = whole_word(bytes, WordKind::Key)?;
    let value = sign(rest, b'=')?;
    Ok(SettingText {
        key,
        value: Word {
            text: value,
            left: value.len(),
        },
    })
}
