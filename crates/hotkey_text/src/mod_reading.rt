//! Modifiers with a `+` after each, and the key or the number after them.

ghost use Rattle.std.specs.Prelude.{◌≡◌, ◌≤◌, IfSome};
ghost use Rattle.text_lines.specs.Reading.{Gives};
ghost use Rattle.text_lines.specs.Views.{word_text};
ghost use Rattle.hotkey_text.specs.Chords as spec;
ghost use Rattle.hotkey_text.specs.Chords.{mods_at, closed_at, key_chord_at, mouse_chord_at};

use crate::chords::{KeyChord, MouseChord};
use crate::faults::{HotkeyFault, HotkeyKind, found, unless};
use crate::keys::{is_modifier_key, key_named};
use modifier_map::{CLASSES, ModClass};
use share_base::{KeyId, Mask, MouseButton};
use text_lines::{Word, WordKind, begins, decimal, maybe_sign, run};

/// The word of a class of modifiers.
pub(crate) fn class_word(class: ModClass) -> &'static [u8]
    ensures { result.now ≡ spec.class_word class }
{
    match class {
        ModClass::Shift => b"Shift",
        ModClass::Control => b"Control",
        ModClass::Alt => b"Alt",
        ModClass::Meta => b"Meta",
        ModClass::Super => b"Super",
    }
}

#[tactic(auto, unfolding(share_base::specs::Names::same_name, crate::specs::Chords::class_named))]
fn class_named(word: &[u8]) -> Option<ModClass>
    ensures { result ≡ spec.class_named word.now }
{
    CLASSES
        .iter()
        .copied()
        .find(|class| class_word(*class).eq_ignore_ascii_case(word))
}

/// Whether the bit of a class stands in a mask.
pub(crate) fn has_class(mods: Mask, class: ModClass) -> bool
    ensures { result ≡ spec.has_class mods class }
{
    mods.0 & class.row().bit != 0
}

fn with_class(mods: Mask, class: Option<ModClass>) -> Option<Mask>
    ensures { result ≡ spec.with_class mods class }
{
    let class = class?;
    if has_class(mods, class) {
        return None;
    }
    Some(Mask(mods.0 | class.row().bit))
}

#[tactic(auto, unfolding(crate::specs::Chords::with_modifier))]
fn with_modifier(mods: Mask, word: Word<'_>) -> Result<Mask, HotkeyFault>
    ensures { result ≡ spec.with_modifier mods (word_text word.entry) }
{
    found(
        with_class(mods, class_named(word.text)),
        HotkeyKind::BadValue,
        word.left,
    )
}

/// The modifiers before the last word, that word, and what follows it.
fn mods(bytes: &[u8]) -> Result<(Mask, Word<'_>, &[u8]), HotkeyFault>
    ensures { Gives (λ x. (x.0, word_text x.1, x.2.now)) result (mods_at bytes.now) }
{
    let mut mods = Mask(0);
    let (mut word, mut behind) = run(bytes, WordKind::Chord);
    while let Some(rest) = maybe_sign(behind, b'+') {
        mods = with_modifier(mods, word)?;
        let (next, after) = run(rest, WordKind::Chord);
        word = next;
        behind = after;
    }
    Ok((mods, word, behind))
}

/// Nothing, where the argument ends there. Else a word more stands in it.
pub(crate) fn closed(bytes: &[u8]) -> Result<(), HotkeyFault>
    ensures { result ≡ closed_at bytes.now }
{
    unless(begins(bytes, b')'), HotkeyKind::BadValue, bytes.len())
}

fn allowed(modifiers: bool, id: Option<KeyId>) -> Option<KeyId>
    ensures { result ≡ spec.allowed modifiers id }
{
    let id = id?;
    if !modifiers && is_modifier_key(id) {
        return None;
    }
    Some(id)
}

/// `MODS+KEY`, where the key may be one of the modifiers, or not.
#[tactic(auto, unfolding(crate::specs::Chords::key_chord_at))]
pub(crate) fn key_chord(bytes: &[u8], modifiers: bool) -> Result<KeyChord, HotkeyFault>
    ensures { result ≡ key_chord_at modifiers bytes.now }
{
    let (mods, word, rest) = mods(bytes)?;
    let id = found(
        allowed(modifiers, key_named(word.text)),
        HotkeyKind::UnknownKey,
        word.left,
    )?;
    closed(rest)?;
    Ok(KeyChord { id, mods })
}

fn button_of(number: Option<u32>) -> Option<MouseButton>
    requires { IfSome number (λ n. n ≤ 255) }
    ensures { result ≡ spec.button_of number }
{
    let number = number?;
    if number == 0 {
        return None;
    }
    Some(MouseButton(number as u8))
}

/// `MODS+NUMBER`
#[tactic(auto, unfolding(crate::specs::Chords::mouse_chord_at))]
pub(crate) fn mouse_chord(bytes: &[u8]) -> Result<MouseChord, HotkeyFault>
    ensures { result ≡ mouse_chord_at bytes.now }
{
    let (mods, word, rest) = mods(bytes)?;
    let b = found(
        button_of(decimal(word.text, 255)),
        HotkeyKind::BadValue,
        word.left,
    )?;
    closed(rest)?;
    Ok(MouseChord { b, mods })
}
