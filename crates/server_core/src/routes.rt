//! The rules of keys and of buttons of the mouse: which one is set off, and which one took what is
//! down.

ghost use Rattle.std.specs.Prelude.{◌<◌};
ghost use Rattle.machine.specs.Routes as routes;
ghost use Rattle.server_core.specs.Leading.{Reads};

use crate::server::ServerCore;
use share_base::{Button, KeyId, MouseButton, RuleNo};

impl ServerCore {
    /// Returns the rule of a key under the modifiers that are held.
    pub(crate) fn key_rule(&self, id: KeyId) -> Option<RuleNo>
        ensures { Reads self.now result (λ s. routes.key_rule s id.0) }
    {
        self.config.rules().find_key(id, self.pressed.mods())
    }

    /// Returns the rule of a button of the mouse under the modifiers that are held.
    pub(crate) fn button_rule(&self, b: MouseButton) -> Option<RuleNo>
        ensures { Reads self.now result (λ s. routes.button_rule s b.0) }
    {
        self.config.rules().find_button(b, self.pressed.mods())
    }

    /// Returns the rule that took the key at a button below 256.
    pub(crate) fn taking_key(&self, button: Button) -> Option<RuleNo>
        requires { button.0 < 256 }
        ensures { Reads self.now result (λ s. routes.taking s.taken_keys button.0) }
    {
        self.pressed.taking_key(button)
    }

    /// Returns the rule that took a button of the mouse.
    pub(crate) fn taking_button(&self, b: MouseButton) -> Option<RuleNo>
        ensures { Reads self.now result (λ s. routes.taking s.taken_buttons b.0) }
    {
        self.pressed.taking_button(b)
    }
}
