//! What the words of a hotkey's line mean.

use crate::names::Deed;
use hotkey_rules::LockMode;
use share_base::{KeyId, Mask, MouseButton, Side};
use text_lines::Word;

/// The word of a screen.
#[derive(Clone, Copy, Debug, Drop)]
pub struct ScreenWord<'a> {
    /// The word, which isn't empty.
    pub word: Word<'a>,
    /// How many bytes were left where a further word stands, if one does.
    pub further: Option<usize>,
}

/// What an action's words mean.
#[derive(Clone, Copy, Debug, Drop)]
pub enum ActionWords<'a> {
    /// Something is done with a key.
    Key {
        /// What is done.
        deed: Deed,
        /// The key.
        id: KeyId,
        /// The modifiers that it is sent with.
        mods: Mask,
    },
    /// Something is done with a button of the mouse.
    Mouse {
        /// What is done.
        deed: Deed,
        /// The button, 1 to 255.
        b: MouseButton,
        /// Modifiers that the text names. They have no effect.
        mods: Mask,
    },
    /// The lock of the cursor changes.
    Lock(LockMode),
    /// The cursor goes to the screen of that word.
    SwitchTo(ScreenWord<'a>),
    /// The cursor goes to the screen on that side.
    SwitchToward(Side),
}
