//! The words of actions and triggers.

ghost use Rattle.std.specs.Prelude.{◌≡◌};
ghost use Rattle.hotkey_text.specs.Names as spec;

use hotkey_rules::Action;
use share_base::{Button, KeyId, Mask, MouseButton};

/// What is done with a key or a button of the mouse.
#[derive(Clone, Copy, Debug, PartialEq, Eq)]
pub enum Deed {
    /// It goes down and up.
    Stroke,
    /// It goes down, and stays down.
    Press,
    /// It goes up.
    Release,
}

impl Deed {
    /// The action that does it with a key, which that button stands for.
    pub fn key_action(self, id: KeyId, mods: Mask, button: Button) -> Action
        ensures { result ≡ spec.key_action self id mods button }
    {
        match self {
            Deed::Stroke => Action::KeyStroke { id, mods, button },
            Deed::Press => Action::KeyPress { id, mods, button },
            Deed::Release => Action::KeyRelease { id, mods, button },
        }
    }

    /// The action that does it with a button of the mouse.
    pub fn mouse_action(self, mods: Mask, b: MouseButton) -> Action
        ensures { result ≡ spec.mouse_action self mods b }
    {
        match self {
            Deed::Stroke => Action::MouseClick { mods, b },
            Deed::Press => Action::MousePress { mods, b },
            Deed::Release => Action::MouseRelease { mods, b },
        }
    }
}

/// What an action's word means.
#[derive(Clone, Copy, Debug, PartialEq, Eq)]
pub(crate) enum ActionName {
    Key(Deed),
    Mouse(Deed),
    Lock,
    SwitchTo,
    SwitchToward,
}

const NAMES: [ActionName; 9] = [
    ActionName::Key(Deed::Stroke),
    ActionName::Key(Deed::Press),
    ActionName::Key(Deed::Release),
    ActionName::Mouse(Deed::Stroke),
    ActionName::Mouse(Deed::Press),
    ActionName::Mouse(Deed::Release),
    ActionName::Lock,
    ActionName::SwitchTo,
    ActionName::SwitchToward,
];

impl ActionName {
    /// Its word.
    pub(crate) fn word(self) -> &'static [u8]
        ensures { result.now ≡ spec.action_word self }
    {
        match self {
            ActionName::Key(Deed::Stroke) => b"keystroke",
            ActionName::Key(Deed::Press) => b"keyDown",
            ActionName::Key(Deed::Release) => b"keyUp",
            ActionName::Mouse(Deed::Stroke) => b"mousebutton",
            ActionName::Mouse(Deed::Press) => b"mouseDown",
            ActionName::Mouse(Deed::Release) => b"mouseUp",
            ActionName::Lock => b"lockCursorToScreen",
            ActionName::SwitchTo => b"switchToScreen",
            ActionName::SwitchToward => b"switchInDirection",
        }
    }

    /// What the word means. `None` if no action has it.
    pub(crate) fn named(word: &[u8]) -> Option<ActionName>
        ensures { result ≡ spec.action_named word.now }
    {
        NAMES.iter().copied().find(|name| name.word() == word)
    }
}

/// What sets a hotkey off.
#[derive(Clone, Copy, Debug, PartialEq, Eq)]
pub enum TriggerKind {
    /// A key: the line begins with `keystroke`.
    Key,
    /// A button of the mouse: the line begins with `mousebutton`.
    Mouse,
}

impl TriggerKind {
    /// Its word.
    pub(crate) fn word(self) -> &'static [u8]
        ensures { result.now ≡ spec.trigger_word self }
    {
        match self {
            TriggerKind::Key => ActionName::Key(Deed::Stroke).word(),
            TriggerKind::Mouse => ActionName::Mouse(Deed::Stroke).word(),
        }
    }

    /// The kind with that word. `None` if neither has it.
    pub(crate) fn named(word: &[u8]) -> Option<TriggerKind>
        ensures { result ≡ spec.trigger_named word.now }
    {
        [TriggerKind::Key, TriggerKind::Mouse]
            .iter()
            .copied()
            .find(|kind| kind.word() == word)
    }
}
