//! What is wrong with a hotkey's line whose form is right.

ghost use Rattle.std.specs.Prelude.{◌≡◌};
ghost use Rattle.text_lines.specs.Reading.{Gives};
ghost use Rattle.hotkey_text.specs.Faults as spec;

/// What is wrong with a word.
#[derive(Clone, Copy, Debug, PartialEq, Eq)]
pub enum HotkeyKind {
    /// It isn't one that the form wants.
    BadValue,
    /// No key has that name, or a trigger may not have that key.
    UnknownKey,
    /// No screen's word begins there.
    UnknownScreen,
    /// No action has that name.
    UnknownAction,
}

/// A fault of a line, with how many of its bytes were left where it stands.
#[derive(Clone, Copy, Debug, PartialEq, Eq)]
pub struct HotkeyFault {
    /// What is wrong.
    pub kind: HotkeyKind,
    /// How many bytes were left at the word, or where it should begin.
    pub left: usize,
}

/// Nothing, where the condition holds.
pub(crate) fn unless(holds: bool, kind: HotkeyKind, left: usize) -> Result<(), HotkeyFault>
    ensures { result ≡ spec.unless holds kind left }
{
    if holds {
        Ok(())
    } else {
        Err(HotkeyFault { kind, left })
    }
}

/// What is there, or a fault.
pub(crate) fn found<T: Drop>(
    value: Option<T>,
    kind: HotkeyKind,
    left: usize,
) -> Result<T, HotkeyFault>
    ensures { result ≡ spec.or_fault value kind left }
{
    match value {
        Some(value) => Ok(value),
        None => Err(HotkeyFault { kind, left }),
    }
}
