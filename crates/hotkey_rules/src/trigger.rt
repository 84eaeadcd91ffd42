//! What sets a hotkey off.

use share_base::{KeyId, Mask, MouseButton};

/// What sets a hotkey off: a key or a button of the mouse goes down while exactly these modifiers
/// are held, toggles left aside.
#[derive(Clone, Copy, Debug, PartialEq, Eq)]
pub enum Trigger {
    /// A key.
    Key {
        /// The key.
        id: KeyId,
        /// The modifiers.
        mods: Mask,
    },
    /// A button of the mouse.
    Mouse {
        /// The button, 1 to 255.
        b: MouseButton,
        /// The modifiers.
        mods: Mask,
    },
}
