//! The arguments of a line.

ghost use Rattle.std.specs.Prelude.{◌≡◌, ◌≤◌, ◌<◌, ◌∷◌, true, [], ℕ, List, Option, IfSome, IfOk};
ghost use Rattle.std.specs.Prelude.{length, map, codes};
ghost use Rattle.std.specs.Str.{bytes_eq};
ghost use Rattle.std.specs.Char.{is_ascii_hexdigit, digit_value};
ghost use Rattle.text_lines.specs.Numbers.{decimal_of};
ghost use Rattle.script_screen.specs.Answers.{LineGives};
ghost use Rattle.script_screen.specs.Grammar as spec;
ghost use Rattle.script_screen.specs.Grammar.{Number, Signed, Hex, Screen, Natural, Integer, Bytes};
ghost use Rattle.script_screen.specs.Grammar.{Chosen, arguments_of};
ghost use Rattle.script_screen.specs.Hex.{pair_value, pairs_of, bytes_within};
ghost use Rattle.script_screen.specs.Screens.{screen_named, screen_count};

use crate::kinds::{LineFault, TextKind};
use screen_config::Config;
use share_base::{Octets, ScreenNo};
use std::alloc::Global;
use text_lines::{decimal, decimal_u64};

/// The range of a number.
#[derive(Clone, Copy, Debug)]
pub(crate) struct Within {
    pub least: u64,
    pub most: u64,
}

/// How many bytes an argument has.
#[derive(Clone, Copy, Debug)]
pub(crate) struct Sizes {
    pub least: usize,
    pub most: usize,
}

fn found<T: Drop>(value: Option<T>, kind: TextKind) -> Result<T, LineFault>
    ensures { LineGives (λ x. x) result (spec.or_kind value kind) }
{
    match value {
        Some(value) => Ok(value),
        None => Err(LineFault::Refused(kind)),
    }
}

fn one<'a>(words: &[&'a [u8]]) -> &'a [u8]
    requires { length words.now ≡ 1 }
    ensures { map (λ w. w.now) words.now ≡ result.now ∷ [] }
{
    words[0]
}

fn two<'a>(words: &[&'a [u8]]) -> (&'a [u8], &'a [u8])
    requires { length words.now ≡ 2 }
    ensures { map (λ w. w.now) words.now ≡ result.0.now ∷ result.1.now ∷ [] }
{
    (words[0], words[1])
}

fn three<'a>(words: &[&'a [u8]]) -> (&'a [u8], &'a [u8], &'a [u8])
    requires { length words.now ≡ 3 }
    ensures { map (λ w. w.now) words.now ≡ result.0.now ∷ result.1.now ∷ result.2.now ∷ [] }
{
    (words[0], words[1], words[2])
}

fn number(word: &[u8], within: Within) -> Option<u64>
    ensures value { result ≡ spec.from_least within.least (decimal_of within.most word.now) }
    ensures least { IfSome result (λ n. within.least ≤ n) }
    ensures most { IfSome result (λ n. n ≤ within.most) }
{
    let number = decimal_u64(word, within.most)?;
    if number < within.least {
        return None;
    }
    Some(number)
}

#[tactic(auto, unfolding(crate::specs::Grammar::signed_of))]
fn signed(word: &[u8]) -> Option<i16>
    ensures { result ≡ spec.signed_of word.now }
{
    match word {
        [b'-', digits @ ..] => match decimal(digits, 32_768)? {
            0 => None,
            number => Some((-(number as i32)) as i16),
        },
        _ => {
            let number = decimal(word, 32_767)?;
            Some(number as i16)
        }
    }
}

/// The number that is a line's only argument.
#[tactic(auto, unfolding(crate::specs::Grammar::arguments_of))]
pub(crate) fn one_number(words: &[&[u8]], within: Within) -> Result<u64, LineFault>
    requires { length words.now ≡ 1 }
    ensures gives { (screens : List ℕ → Option ℕ)
        → LineGives (λ n. Natural n ∷ []) result
        (arguments_of screens (Number within.least within.most ∷ [])
        (map (λ w. w.now) words.now)) }
    ensures least { IfOk result (λ n. within.least ≤ n) }
    ensures most { IfOk result (λ n. n ≤ within.most) }
{
    let word = one(words);
    found(number(word, within), TextKind::BadNumber)
}

/// The two numbers that are a line's arguments.
#[tactic(auto, unfolding(crate::specs::Grammar::arguments_of))]
pub(crate) fn two_numbers(
    words: &[&[u8]],
    within: Within,
    then: Within,
) -> Result<(u64, u64), LineFault>
    requires { length words.now ≡ 2 }
    ensures gives { (screens : List ℕ → Option ℕ)
        → LineGives (λ n. Natural n.0 ∷ Natural n.1 ∷ []) result
        (arguments_of screens
        (Number within.least within.most ∷ Number then.least then.most ∷ [])
        (map (λ w. w.now) words.now)) }
    ensures least { IfOk result (λ n. within.least ≤ n.0) }
    ensures most { IfOk result (λ n. n.0 ≤ within.most) }
    ensures least_then { IfOk result (λ n. then.least ≤ n.1) }
    ensures most_then { IfOk result (λ n. n.1 ≤ then.most) }
{
    let (word, next) = two(words);
    let number_of_word = found(number(word, within), TextKind::BadNumber)?;
    let number_of_next = found(number(next, then), TextKind::BadNumber)?;
    Ok((number_of_word, number_of_next))
}

/// The two numbers with signs that are a line's arguments.
#[tactic(auto, unfolding(crate::specs::Grammar::arguments_of))]
pub(crate) fn two_signed(words: &[&[u8]]) -> Result<(i16, i16), LineFault>
    requires { length words.now ≡ 2 }
    ensures { (screens : List ℕ → Option ℕ)
        → LineGives (λ n. Integer n.0 ∷ Integer n.1 ∷ []) result
        (arguments_of screens (Signed ∷ Signed ∷ []) (map (λ w. w.now) words.now)) }
{
    let (word, next) = two(words);
    let number_of_word = found(signed(word), TextKind::BadNumber)?;
    let number_of_next = found(signed(next), TextKind::BadNumber)?;
    Ok((number_of_word, number_of_next))
}

/// The screen or alias that is a line's only argument.
#[tactic(auto, unfolding(crate::specs::Grammar::arguments_of))]
pub(crate) fn one_screen(words: &[&[u8]], config: &Config) -> Result<ScreenNo, LineFault>
    requires { length words.now ≡ 1 }
    ensures gives { LineGives (λ n. Chosen n.0 ∷ []) result
        (arguments_of (screen_named config.now) (Screen ∷ []) (map (λ w. w.now) words.now)) }
    ensures known { IfOk result (λ n. n.0 < screen_count config.now) }
{
    let word = one(words);
    found(config.find(word), TextKind::UnknownScreen)
}

/// The primary screen, with its width and its height.
#[tactic(auto, unfolding(crate::specs::Grammar::arguments_of))]
pub(crate) fn sized_screen(
    words: &[&[u8]],
    config: &Config,
    within: Within,
) -> Result<(ScreenNo, u64, u64), LineFault>
    requires { length words.now ≡ 3 }
    ensures gives { LineGives (λ n. Chosen n.0.0 ∷ Natural n.1 ∷ Natural n.2 ∷ []) result
        (arguments_of (screen_named config.now)
        (Screen ∷ Number within.least within.most ∷ Number within.least within.most ∷ [])
        (map (λ w. w.now) words.now)) }
    ensures known { IfOk result (λ n. n.0.0 < screen_count config.now) }
    ensures width { IfOk result (λ n. (within.least ≤ n.1) × (n.1 ≤ within.most)) }
    ensures height { IfOk result (λ n. (within.least ≤ n.2) × (n.2 ≤ within.most)) }
{
    let (name, width, height) = three(words);
    let width = found(number(width, within), TextKind::BadNumber)?;
    let height = found(number(height, within), TextKind::BadNumber)?;
    let screen = found(config.find(name), TextKind::UnknownScreen)?;
    Ok((screen, width, height))
}

fn digit(byte: u8) -> u8
    requires { is_ascii_hexdigit byte ≡ true }
    ensures value { result ≡ digit_value byte }
    ensures below { result < 16 }
{
    match byte {
        b'0'..=b'9' => byte - b'0',
        b'a'..=b'f' => byte - b'a' + 10,
        _ => byte - b'A' + 10,
    }
}

fn pair(high: u8, low: u8) -> Option<u8>
    ensures { result ≡ pair_value high low }
{
    if !(high.is_ascii_hexdigit() && low.is_ascii_hexdigit()) {
        return None;
    }
    Some(16 * digit(high) + digit(low))
}

/// The bytes of pairs of digits.
fn pairs(alloc: Global, digits: &[u8]) -> Result<Octets, LineFault>
    ensures { LineGives (λ b. b) result (spec.or_kind (pairs_of digits.now) TextKind.BadHex) }
{
    let mut bytes = Octets::new(alloc);
    let mut rest = digits;
    while let [high, after @ ..] = rest {
        let [low, after @ ..] = after else {
            return Err(LineFault::Refused(TextKind::BadHex));
        };
        let Some(byte) = pair(*high, *low) else {
            return Err(LineFault::Refused(TextKind::BadHex));
        };
        bytes.push(byte)?;
        rest = after;
    }
    Ok(bytes)
}

fn is_dash(word: &[u8]) -> bool
    ensures { result ≡ bytes_eq word.now (codes "-") }
{
    word == b"-".as_slice()
}

/// The bytes that a word spells. A word of too many or too few takes no memory.
#[tactic(auto, unfolding(crate::specs::Hex::bytes_within))]
fn bytes_of(alloc: Global, word: &[u8], sizes: Sizes) -> Result<Octets, LineFault>
    ensures gives { LineGives (λ b. b) result
        (spec.or_kind (bytes_within sizes.least sizes.most word.now) TextKind.BadHex) }
    ensures least { IfOk result (λ b. sizes.least ≤ length b) }
    ensures most { IfOk result (λ b. length b ≤ sizes.most) }
{
    if is_dash(word) {
        if sizes.least > 0 {
            return Err(LineFault::Refused(TextKind::BadHex));
        }
        return Ok(Octets::new(alloc));
    }
    if word.is_empty() {
        return Err(LineFault::Refused(TextKind::BadHex));
    }
    let count = word.len() / 2;
    if count < sizes.least || count > sizes.most {
        return Err(LineFault::Refused(TextKind::BadHex));
    }
    pairs(alloc, word)
}

/// The number and the bytes that are a line's arguments.
#[tactic(auto, unfolding(crate::specs::Grammar::arguments_of))]
pub(crate) fn number_and_bytes(
    alloc: Global,
    words: &[&[u8]],
    within: Within,
    sizes: Sizes,
) -> Result<(u64, Octets), LineFault>
    requires { length words.now ≡ 2 }
    ensures gives { (screens : List ℕ → Option ℕ)
        → LineGives (λ n. Natural n.0 ∷ Bytes n.1 ∷ []) result
        (arguments_of screens
        (Number within.least within.most ∷ Hex sizes.least sizes.most ∷ [])
        (map (λ w. w.now) words.now)) }
    ensures least { IfOk result (λ n. within.least ≤ n.0) }
    ensures most { IfOk result (λ n. n.0 ≤ within.most) }
    ensures fewest { IfOk result (λ n. sizes.least ≤ length n.1) }
    ensures largest { IfOk result (λ n. length n.1 ≤ sizes.most) }
{
    let (word, digits) = two(words);
    let number = found(number(word, within), TextKind::BadNumber)?;
    let bytes = bytes_of(alloc, digits, sizes)?;
    Ok((number, bytes))
}
