//! The tables of what is down.

ghost use Rattle.std.specs.Prelude.{◌≡◌, ◌<◌};
ghost use Rattle.std.specs.List.{list_any};
ghost use Rattle.modifier_map.specs.Presses.{mods_of, toggles_of};
ghost use Rattle.machine.specs.Routes.{taking};
ghost use Rattle.pressed_inputs.specs.Inputs.{Inputs, nothing, after_key_down, after_key_up, after_button_down, after_button_up, id_down, mask_of, holds_class, is_some_down};
ghost use Rattle.pressed_inputs.specs.Keeping.{Keeps, Leads};

use modifier_map::{HeldMods, ModClass};
use share_base::{Button, KeyId, Mask, MouseButton, RuleNo};

/// The keys and mouse buttons that are down, each with the hotkey's rule that took it, and the
/// toggles of the lock keys. It represents what the server machine remembers of them. No method
/// allocates.
#[derive(Drop)]
pub struct Pressed {
    ids: [u16; 256],
    mods: HeldMods,
    taken_keys: [Option<RuleNo>; 256],
    buttons: [bool; 256],
    taken_buttons: [Option<RuleNo>; 256],
}

impl Pressed {
    /// Nothing is down, and no toggle is on.
    pub fn new() -> Pressed
        ensures { Keeps result nothing }
    {
        Pressed {
            ids: [0; 256],
            mods: HeldMods::new(),
            taken_keys: [None; 256],
            buttons: [false; 256],
            taken_buttons: [None; 256],
        }
    }

    /// A key goes down at a button below 256, taken by a rule or by none. A lock key flips its
    /// toggle.
    pub fn key_down(&mut self, id: KeyId, button: Button, rule: Option<RuleNo>)
        requires { button.0 < 256 }
        ensures { Leads self.old self.new (after_key_down id.0 button.0 rule) }
    {
        self.ids[button.0 as usize] = id.0;
        self.mods.press(id, button);
        if rule.is_some() {
            self.taken_keys[button.0 as usize] = rule;
        }
    }

    /// The key at a button below 256 goes up, and no rule has it any more.
    pub fn key_up(&mut self, button: Button)
        requires { button.0 < 256 }
        ensures { Leads self.old self.new (after_key_up button.0) }
    {
        self.ids[button.0 as usize] = 0;
        self.mods.release(button);
        self.taken_keys[button.0 as usize] = None;
    }

    /// A button of the mouse goes down, taken by a rule or by none.
    pub fn button_down(&mut self, button: MouseButton, rule: Option<RuleNo>)
        ensures { Leads self.old self.new (after_button_down button.0 rule) }
    {
        self.buttons[button.0 as usize] = true;
        if rule.is_some() {
            self.taken_buttons[button.0 as usize] = rule;
        }
    }

    /// A button of the mouse goes up, and no rule has it any more.
    pub fn button_up(&mut self, button: MouseButton)
        ensures { Leads self.old self.new (after_button_up button.0) }
    {
        self.buttons[button.0 as usize] = false;
        self.taken_buttons[button.0 as usize] = None;
    }

    /// Returns the modifiers of the keys that are down.
    pub fn mods(&self) -> Mask
        ensures { (i : Inputs) → Keeps self.now i → result.0 ≡ mods_of i.presses }
    {
        self.mods.mods()
    }

    /// Returns the toggles that are on.
    pub fn toggles(&self) -> Mask
        ensures { (i : Inputs) → Keeps self.now i → result.0 ≡ toggles_of i.presses }
    {
        self.mods.toggles()
    }

    /// Returns the modifiers of the keys that are down together with the toggles, as key messages
    /// carry them.
    pub fn mask(&self) -> Mask
        ensures { (i : Inputs) → Keeps self.now i → result.0 ≡ mask_of i.presses }
    {
        Mask(self.mods().0 | self.toggles().0)
    }

    /// Returns whether a key of that class is down.
    pub fn has_mod(&self, class: ModClass) -> bool
        ensures { (i : Inputs) → Keeps self.now i → result ≡ holds_class i.presses class }
    {
        self.mods().0 & class.row().bit != 0
    }

    /// Returns the id with which the key at a button below 256 went down; `KeyId(0)` if it is up.
    pub fn id_at(&self, button: Button) -> KeyId
        requires { button.0 < 256 }
        ensures { (i : Inputs) → Keeps self.now i → result.0 ≡ id_down i.presses button.0 }
    {
        KeyId(self.ids[button.0 as usize])
    }

    /// Returns the rule that took the key at a button below 256; `None` if it is up or no rule took
    /// it.
    pub fn taking_key(&self, button: Button) -> Option<RuleNo>
        requires { button.0 < 256 }
        ensures { (i : Inputs) → Keeps self.now i → result ≡ taking i.taken_keys button.0 }
    {
        self.taken_keys[button.0 as usize]
    }

    /// Returns the rule that took a button of the mouse; `None` if it is up or no rule took it.
    pub fn taking_button(&self, button: MouseButton) -> Option<RuleNo>
        ensures { (i : Inputs) → Keeps self.now i → result ≡ taking i.taken_buttons button.0 }
    {
        self.taken_buttons[button.0 as usize]
    }

    /// Returns whether a button of the mouse is down, whoever took it.
    pub fn has_mouse_down(&self) -> bool
        ensures { (i : Inputs) → Keeps self.now i → result ≡ is_some_down i.buttons }
    {
        any_down(&self.buttons)
    }
}

fn any_down(buttons: &[bool]) -> bool
    ensures { result ≡ list_any (λ down. down) buttons.now }
{
    buttons.iter().any(|down| *down)
}
