//! What a hotkey does.

use share_base::{Button, KeyId, Mask, MouseButton, ScreenNo, Side};

/// What becomes of the lock that keeps the cursor on its screen.
#[derive(Clone, Copy, Debug, PartialEq, Eq)]
pub enum LockMode {
    /// The cursor is locked.
    On,
    /// The cursor is free.
    Off,
    /// The lock changes to the other of the two.
    Toggle,
}

/// One thing that a hotkey does. Keys and buttons go to the screen that has the cursor.
#[derive(Clone, Copy, Debug, PartialEq, Eq)]
pub enum Action {
    /// A key goes down and up.
    KeyStroke {
        /// The key.
        id: KeyId,
        /// The modifiers that it is sent with.
        mods: Mask,
        /// The button that stands for the key, 0xF000 and the key's number among the keys of
        /// actions.
        button: Button,
    },
    /// A key goes down, and stays down.
    KeyPress {
        /// The key.
        id: KeyId,
        /// The modifiers that it is sent with.
        mods: Mask,
        /// The button that stands for the key, 0xF000 and the key's number among the keys of
        /// actions.
        button: Button,
    },
    /// A key that is down goes up.
    KeyRelease {
        /// The key.
        id: KeyId,
        /// The modifiers that it is sent with.
        mods: Mask,
        /// The button that stands for the key, 0xF000 and the key's number among the keys of
        /// actions.
        button: Button,
    },
    /// A button of the mouse goes down and up.
    MouseClick {
        /// Modifiers that the text names. They have no effect.
        mods: Mask,
        /// The button, 1 to 255.
        b: MouseButton,
    },
    /// A button of the mouse goes down, and stays down.
    MousePress {
        /// Modifiers that the text names. They have no effect.
        mods: Mask,
        /// The button, 1 to 255.
        b: MouseButton,
    },
    /// A button of the mouse that is down goes up.
    MouseRelease {
        /// Modifiers that the text names. They have no effect.
        mods: Mask,
        /// The button, 1 to 255.
        b: MouseButton,
    },
    /// The lock of the cursor changes.
    Lock(LockMode),
    /// The cursor goes to a screen.
    SwitchTo(ScreenNo),
    /// The cursor goes to the screen on that side.
    SwitchToward(Side),
}
