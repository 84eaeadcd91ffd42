//! Which modifiers are held, and which toggles are on.

ghost use Rattle.std.specs.Prelude.{◌≡◌, ◌<◌, [], ◌∷◌, List, ℕ, fold, bit_or};
ghost use Rattle.modifier_map.specs.Presses.{Call, Press, Release, mods_of, toggles_of, StandsFor};
ghost use Rattle.modifier_map.specs.Presses.{Extends};

use crate::class::{key_bit, lock_bit};
use share_base::{Button, KeyId, Mask};
use std::marker::Model;

/// The modifiers of the keys that are down, by their buttons, and the toggles of the lock keys. It
/// represents the list of presses and releases so far, and each call adds to that list. No method
/// allocates.
#[derive(Drop)]
pub struct HeldMods {
    bits: [u16; 256],
    toggles: u16,
}

impl Model for HeldMods {
    ghost use Rattle.std.specs.Prelude.{◌≡◌, length};
    ghost use Rattle.modifier_map.specs.Presses.{Kept};

    ghost Value = { Kept };

    ghost view = { λ h. record { bits = h.bits; toggles = h.toggles } };

    ghost invariant = { λ h. length h.bits ≡ 256 };
}

impl HeldMods {
    /// No key is down, and no toggle is on.
    pub fn new() -> HeldMods
        ensures { StandsFor result [] }
    {
        HeldMods {
            bits: [0; 256],
            toggles: 0,
        }
    }

    /// A key goes down at a button below 256. A button that is down already has the new key from
    /// then on. A lock key flips its toggle, at each press.
    pub fn press(&mut self, id: KeyId, button: Button)
        requires { button.0 < 256 }
        ensures { Extends self.old self.new (Press id.0 button.0) }
    {
        self.bits[button.0 as usize] = key_bit(id);
        self.toggles ^= lock_bit(id);
    }

    /// The key at a button below 256 goes up. A button that isn't down stays so.
    pub fn release(&mut self, button: Button)
        requires { button.0 < 256 }
        ensures { Extends self.old self.new (Release button.0) }
    {
        self.bits[button.0 as usize] = 0;
    }

    /// The modifiers of the keys that are down.
    pub fn mods(&self) -> Mask
        ensures { (calls : List Call) → StandsFor self.now calls → result.0 ≡ mods_of calls }
    {
        Mask(joined(&self.bits))
    }

    /// The toggles that are on.
    pub fn toggles(&self) -> Mask
        ensures { (calls : List Call) → StandsFor self.now calls → result.0 ≡ toggles_of calls }
    {
        Mask(self.toggles)
    }
}

fn joined(bits: &[u16]) -> u16
    ensures { result ≡ fold bit_or 0 bits.now }
{
    bits.iter().fold(0, |all, bit| all | bit)
}
