//! Modifiers with a `+` after each, and the key or the number after them.

use share_base::{KeyId, Mask, MouseButton};

/// A key with modifiers.
#[derive(Clone, Copy, Debug, PartialEq, Eq)]
pub(crate) struct KeyChord {
    pub id: KeyId,
    pub mods: Mask,
}

/// A button of the mouse with modifiers.
#[derive(Clone, Copy, Debug, PartialEq, Eq)]
pub(crate) struct MouseChord {
    pub b: MouseButton,
    pub mods: Mask,
}
