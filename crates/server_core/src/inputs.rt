//! Input events of the script: keys, buttons of the mouse, and the wheel.

ghost use Rattle.std.specs.Prelude.{ℕ, ◌<◌, ◌≤◌, length, OnOk, IfOk, [], unwrap_or};
ghost use Rattle.message_codec.specs.Spelling.{body_of};
ghost use Rattle.wire_frames.specs.declared.limits.TheConstants.{BODY_LIMIT};
ghost use Rattle.hotkey_rules.specs.Rules.{press_of, release_of};
ghost use Rattle.machine.specs.Scripts as line;
ghost use Rattle.machine.specs.Targets.{Origin};
ghost use Rattle.machine.specs.Routing.{route};
ghost use Rattle.machine.specs.Routes.{One, on_press, on_release};
ghost use Rattle.machine.specs.Events as events;
ghost use Rattle.server_core.specs.Leading.{Leads, Reads};

use crate::server::ServerCore;
use hotkey_rules::Action;
use message_codec::Msg;
use share_base::{Button, KeyId, MouseButton, OutOfMemory, RuleNo};

impl ServerCore {
    /// A key goes down at a button below 256: the presses of its rule are done, or else the active
    /// screen is told.
    pub(crate) fn key_down(&mut self, id: KeyId, button: Button) -> Result<(), OutOfMemory>
        requires { button.0 < 256 }
        ensures { OnOk result ((number : ℕ) → Leads self.old self.new
            (events.event number (line.KeyDown id.0 button.0))) }
    {
        let rule = self.key_rule(id);
        let message = Msg::KeyDown {
            id: id.0,
            mask: self.pressed.mask().0,
            button: button.0,
        };
        self.hold_key(id, button);
        self.press(rule, &message)?;
        Ok(())
    }

    /// The key that is down at a button below 256 repeats: the active screen is told, unless a rule
    /// took the key.
    pub(crate) fn key_repeat(&mut self, count: u16, button: Button) -> Result<(), OutOfMemory>
        requires { button.0 < 256 }
        ensures { OnOk result ((number : ℕ) → Leads self.old self.new
            (events.event number (line.KeyRepeat count button.0))) }
    {
        if self.taking_key(button).is_some() {
            return Ok(());
        }
        let message = Msg::KeyRepeat {
            id: self.pressed.id_at(button).0,
            mask: self.pressed.mask().0,
            count,
            button: button.0,
        };
        self.tell_active(&message)?;
        Ok(())
    }

    /// The key at a button below 256 goes up: the releases of the rule that took it are done, or
    /// else the active screen is told.
    pub(crate) fn key_up(&mut self, button: Button) -> Result<(), OutOfMemory>
        requires { button.0 < 256 }
        ensures { OnOk result ((number : ℕ) → Leads self.old self.new
            (events.event number (line.KeyUp button.0))) }
    {
        let rule = self.taking_key(button);
        let message = Msg::KeyUp {
            id: self.pressed.id_at(button).0,
            mask: self.pressed.mask().0,
            button: button.0,
        };
        self.let_key_go(button);
        self.release(rule, &message)?;
        Ok(())
    }

    /// A button of the mouse goes down: the presses of its rule are done, or else the active screen
    /// is told.
    pub(crate) fn button_down(&mut self, b: MouseButton) -> Result<(), OutOfMemory>
        ensures { OnOk result ((number : ℕ) → Leads self.old self.new
            (events.event number (line.ButtonDown b.0))) }
    {
        let rule = self.button_rule(b);
        self.hold_button(b);
        self.press(rule, &Msg::ButtonDown { b: b.0 })?;
        Ok(())
    }

    /// A button of the mouse goes up: the releases of the rule that took it are done, or else the
    /// active screen is told.
    pub(crate) fn button_up(&mut self, b: MouseButton) -> Result<(), OutOfMemory>
        ensures { OnOk result ((number : ℕ) → Leads self.old self.new
            (events.event number (line.ButtonUp b.0))) }
    {
        let rule = self.taking_button(b);
        self.let_button_go(b);
        self.release(rule, &Msg::ButtonUp { b: b.0 })?;
        Ok(())
    }

    /// The wheel turns, and the active screen is told.
    pub(crate) fn wheel(&mut self, dx: i16, dy: i16) -> Result<(), OutOfMemory>
        ensures { OnOk result ((number : ℕ) → Leads self.old self.new
            (events.event number (line.Wheel dx dy))) }
    {
        self.tell_active(&Msg::Wheel { dx, dy })?;
        Ok(())
    }

    // Does the presses of a rule; where there is none, tells the active screen.
    fn press(&mut self, rule: Option<RuleNo>, message: &Msg) -> Result<(), OutOfMemory>
        requires { length (body_of message.now) ≤ BODY_LIMIT }
        ensures { OnOk result ((number : ℕ) → Leads self.old self.new
            (λ s. events.go number (on_press s rule (One s.active message.now)) s)) }
    {
        let Some(rule) = rule else {
            self.tell_active(message)?;
            return Ok(());
        };
        let list = self.presses(rule)?;
        self.act_all(list.as_slice())?;
        Ok(())
    }

    // Does the releases of a rule; where there is none, tells the active screen.
    fn release(&mut self, rule: Option<RuleNo>, message: &Msg) -> Result<(), OutOfMemory>
        requires { length (body_of message.now) ≤ BODY_LIMIT }
        ensures { OnOk result ((number : ℕ) → Leads self.old self.new
            (λ s. events.go number (on_release s rule (One s.active message.now)) s)) }
    {
        let Some(rule) = rule else {
            self.tell_active(message)?;
            return Ok(());
        };
        let list = self.releases(rule)?;
        self.act_all(list.as_slice())?;
        Ok(())
    }

    // What a rule does when its trigger goes down; nothing, if there is no such rule.
    fn presses(&self, rule: RuleNo) -> Result<Vec<Action>, OutOfMemory>
        ensures { IfOk result (λ list. Reads self.now list.items
            (λ s. unwrap_or (press_of s.config.hotkeys rule) [])) }
    {
        let alloc = self.config.alloc();
        let rules = self.config.rules();
        if rule.0 as usize >= rules.len() {
            return Ok(Vec::new(alloc));
        }
        Ok(rules.press(rule).as_slice().to_vec(alloc)?)
    }

    // What a rule does when its trigger goes up; nothing, if there is no such rule.
    fn releases(&self, rule: RuleNo) -> Result<Vec<Action>, OutOfMemory>
        ensures { IfOk result (λ list. Reads self.now list.items
            (λ s. unwrap_or (release_of s.config.hotkeys rule) [])) }
    {
        let alloc = self.config.alloc();
        let rules = self.config.rules();
        if rule.0 as usize >= rules.len() {
            return Ok(Vec::new(alloc));
        }
        Ok(rules.release(rule).as_slice().to_vec(alloc)?)
    }

    /// Tells the active screen a message.
    pub(crate) fn tell_active(&mut self, message: &Msg) -> Result<(), OutOfMemory>
        requires { length (body_of message.now) ≤ BODY_LIMIT }
        ensures { OnOk result ((o : Origin) → Leads self.old self.new
            (λ s. route o s.active message.now s)) }
    {
        self.route(self.active, message)?;
        Ok(())
    }
}
