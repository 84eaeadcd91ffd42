//! What the actions of hotkeys do.

ghost use Rattle.std.specs.Prelude.{OnOk};
ghost use Rattle.screen_links.specs.Walks.{IsPlace};
ghost use Rattle.message_codec.specs.declared.messages.Msg.TheVariants as msg;
ghost use Rattle.machine.specs.Targets.{Origin, Primary, same_target};
ghost use Rattle.machine.specs.Combining.{for_some, unchanged};
ghost use Rattle.machine.specs.Screens as screens;
ghost use Rattle.machine.specs.Routing.{route};
ghost use Rattle.machine.specs.Actions as actions;
ghost use Rattle.machine.specs.Actions.{may_switch};
ghost use Rattle.server_core.specs.Targets.{meant};
ghost use Rattle.server_core.specs.Leading.{Leads, LeadsAt, Reads};

use crate::server::ServerCore;
use crate::target::Target;
use hotkey_rules::{Action, LockMode};
use message_codec::Msg;
use screen_crossing::middle;
use screen_links::Landing;
use share_base::{Button, KeyId, Mask, MouseButton, OutOfMemory, ScreenNo, Side};

/// No screen is left at this sequence number, so that it never has to rise.
const LAST_SEQUENCE: u32 = 4_294_967_295;

impl ServerCore {
    /// Does the actions of a hotkey, one after another.
    pub(crate) fn act_all(&mut self, list: &[Action]) -> Result<(), OutOfMemory>
        ensures { OnOk result
            ((o : Origin) → Leads self.old self.new (actions.act_all o list.now)) }
    {
        for action in list {
            self.act(*action)?;
        }
        Ok(())
    }

    fn act(&mut self, action: Action) -> Result<(), OutOfMemory>
        ensures { OnOk result ((o : Origin) → Leads self.old self.new (actions.act o action)) }
    {
        match action {
            Action::KeyStroke { id, mods, button } => {
                self.press_key(id, mods, button)?;
                self.release_key(id, mods, button)?;
                Ok(())
            }
            Action::KeyPress { id, mods, button } => {
                self.press_key(id, mods, button)?;
                Ok(())
            }
            Action::KeyRelease { id, mods, button } => {
                self.release_key(id, mods, button)?;
                Ok(())
            }
            Action::MouseClick { mods: _, b } => {
                self.press_button(b)?;
                self.release_button(b)?;
                Ok(())
            }
            Action::MousePress { mods: _, b } => {
                self.press_button(b)?;
                Ok(())
            }
            Action::MouseRelease { mods: _, b } => {
                self.release_button(b)?;
                Ok(())
            }
            Action::Lock(mode) => {
                self.lock(mode);
                Ok(())
            }
            Action::SwitchTo(screen) => {
                self.switch_to_screen(screen)?;
                Ok(())
            }
            Action::SwitchToward(side) => {
                self.switch_toward(side)?;
                Ok(())
            }
        }
    }

    fn press_key(&mut self, id: KeyId, mods: Mask, button: Button) -> Result<(), OutOfMemory>
        ensures { OnOk result ((o : Origin) → Leads self.old self.new
            (λ s. route o s.active (msg.KeyDown id.0 mods.0 button.0) s)) }
    {
        self.tell_active(&Msg::KeyDown {
            id: id.0,
            mask: mods.0,
            button: button.0,
        })?;
        Ok(())
    }

    fn release_key(&mut self, id: KeyId, mods: Mask, button: Button) -> Result<(), OutOfMemory>
        ensures { OnOk result ((o : Origin) → Leads self.old self.new
            (λ s. route o s.active (msg.KeyUp id.0 mods.0 button.0) s)) }
    {
        self.tell_active(&Msg::KeyUp {
            id: id.0,
            mask: mods.0,
            button: button.0,
        })?;
        Ok(())
    }

    fn press_button(&mut self, b: MouseButton) -> Result<(), OutOfMemory>
        ensures { OnOk result ((o : Origin) → Leads self.old self.new
            (λ s. route o s.active (msg.ButtonDown b.0) s)) }
    {
        self.tell_active(&Msg::ButtonDown { b: b.0 })?;
        Ok(())
    }

    fn release_button(&mut self, b: MouseButton) -> Result<(), OutOfMemory>
        ensures { OnOk result ((o : Origin) → Leads self.old self.new
            (λ s. route o s.active (msg.ButtonUp b.0) s)) }
    {
        self.tell_active(&Msg::ButtonUp { b: b.0 })?;
        Ok(())
    }

    // Locks the cursor to its screen, frees it, or changes between the two.
    fn lock(&mut self, mode: LockMode)
        ensures { Leads self.old self.new
            (λ s. record s { is_locked = actions.locked_by mode s.is_locked }) }
    {
        self.is_locked = match mode {
            LockMode::On => true,
            LockMode::Off => false,
            LockMode::Toggle => !self.is_locked,
        };
    }

    // Enters a joined screen that isn't active at its middle; else nothing changes.
    fn switch_to_screen(&mut self, screen: ScreenNo) -> Result<(), OutOfMemory>
        ensures { OnOk result ((o : Origin) → Leads self.old self.new
            (λ s. for_some (screens.target_of s screen.0) (actions.switch_to o) unchanged s)) }
    {
        let Some(target) = self.target_of(screen) else {
            return Ok(());
        };
        self.switch_to(target)?;
        Ok(())
    }

    // Enters a target that is there at the middle of its screen, if it isn't active.
    fn switch_to(&mut self, target: Target) -> Result<(), OutOfMemory>
        ensures { OnOk result ((o : Origin) → LeadsAt (meant target)
            self.old self.new (actions.switch_to o (meant target))) }
    {
        if !self.may_switch() {
            return Ok(());
        }
        if self.has_cursor(target) {
            return Ok(());
        }
        let shape = self.shape_of(target);
        self.switch(target, middle(&shape))?;
        Ok(())
    }

    // Enters the joined screen to which the edge on a side leads at the cursor, even where that
    // edge is blocked, as a motion enters there.
    fn switch_toward(&mut self, side: Side) -> Result<(), OutOfMemory>
        ensures { OnOk result ((o : Origin) → Leads self.old self.new
            (actions.switch_toward o side)) }
    {
        if !self.may_switch() {
            return Ok(());
        }
        let Some(landing) = self.landing_at(side) else {
            return Ok(());
        };
        self.enter_landing(side, landing)?;
        Ok(())
    }

    // Enters a place of a joined screen, having left another one on that side.
    fn enter_landing(&mut self, side: Side, landing: Landing) -> Result<(), OutOfMemory>
        requires { IsPlace landing }
        ensures { OnOk result ((o : Origin) → Leads self.old self.new
            (actions.enter_landing o side landing)) }
    {
        let Some(target) = self.target_of(landing.screen) else {
            return Ok(());
        };
        let point = self.entry_at(side, target, landing.t);
        self.switch(target, point)?;
        Ok(())
    }

    /// Tells whether the sequence number may rise.
    pub(crate) fn may_switch(&self) -> bool
        ensures { Reads self.now result may_switch }
    {
        self.sequence != LAST_SEQUENCE
    }

    // Tells whether a target is the active one.
    fn has_cursor(&self, target: Target) -> bool
        ensures { Reads self.now result (λ s. same_target (meant target) s.active) }
    {
        match target {
            Target::Primary => self.is_primary_active(),
            Target::Client(serial) => self.is_active(serial),
        }
    }

    // Tells whether the primary is active.
    fn is_primary_active(&self) -> bool
        ensures { Reads self.now result (λ s. same_target Primary s.active) }
    {
        match self.active {
            Target::Primary => true,
            Target::Client(_) => false,
        }
    }
}
