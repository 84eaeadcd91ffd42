//! The translation of modifiers for one screen.

ghost use Rattle.std.specs.Prelude.{◌≡◌};
ghost use Rattle.modifier_map.specs.Map.{identity, target, named_target, changed, key_under};
ghost use Rattle.modifier_map.specs.Map.{moved_bit, mask_under};

use crate::class::ModClass;
use share_base::{KeyId, Mask};

/// What each class of modifiers becomes: a class, or none.
#[derive(Clone, Copy, Debug, PartialEq, Eq)]
pub struct ModMap {
    shift: Option<ModClass>,
    control: Option<ModClass>,
    alt: Option<ModClass>,
    meta: Option<ModClass>,
    super_key: Option<ModClass>,
}

// The target that the value of an option names, if it names one.
fn named_target(value: u32) -> Option<Option<ModClass>>
    ensures { result ≡ named_target value }
{
    if value == 0 {
        return Some(None);
    }
    ModClass::of_value(value).map(Some)
}

impl ModMap {
    /// Each class becomes itself.
    pub fn new() -> ModMap
        ensures { result ≡ identity }
    {
        ModMap {
            shift: Some(ModClass::Shift),
            control: Some(ModClass::Control),
            alt: Some(ModClass::Alt),
            meta: Some(ModClass::Meta),
            super_key: Some(ModClass::Super),
        }
    }

    /// Takes an option of the wire. One class gets another target where the code is that of a class
    /// (`MMFS`, `MMFC`, `MMFA`, `MMFM`, `MMFR`) and the value is 0 for none, or 1 to 5 for a class.
    /// Else nothing changes.
    pub fn set(&mut self, code: u32, value: u32)
        ensures { self.new ≡ changed self.old code value }
    {
        let Some(class) = ModClass::of_code(code) else {
            return;
        };
        let Some(to) = named_target(value) else {
            return;
        };
        match class {
            ModClass::Shift => self.shift = to,
            ModClass::Control => self.control = to,
            ModClass::Alt => self.alt = to,
            ModClass::Meta => self.meta = to,
            ModClass::Super => self.super_key = to,
        }
    }

    fn target(&self, class: ModClass) -> Option<ModClass>
        ensures { result ≡ target self.now class }
    {
        match class {
            ModClass::Shift => self.shift,
            ModClass::Control => self.control,
            ModClass::Alt => self.alt,
            ModClass::Meta => self.meta,
            ModClass::Super => self.super_key,
        }
    }

    /// The key that is meant on that screen: a left key of a class becomes the left key of its
    /// target, a right key the right one. `None` for a key of a class that is mapped to none. Every
    /// other key stays.
    pub fn key(&self, id: KeyId) -> Option<KeyId>
        ensures { result ≡ key_under self.now id }
    {
        if let Some(class) = ModClass::of_left(id) {
            return self.target(class).map(|to| KeyId(to.row().left));
        }
        if let Some(class) = ModClass::of_right(id) {
            return self.target(class).map(|to| KeyId(to.row().right));
        }
        Some(id)
    }

    fn moved_bit(&self, mask: u16, class: ModClass) -> u16
        ensures { result ≡ moved_bit self.now mask class }
    {
        if mask & class.row().bit == 0 {
            return 0;
        }
        self.target(class).map_or(0, |to| to.row().bit)
    }

    /// The mask that is meant on that screen: each of the five bits of classes becomes the bit of
    /// its target, or none. The other bits stay.
    pub fn mask(&self, mask: Mask) -> Mask
        ensures { result ≡ mask_under self.now mask }
    {
        let other = mask.0 & 0xffe0;
        Mask(
            other
                | self.moved_bit(mask.0, ModClass::Shift)
                | self.moved_bit(mask.0, ModClass::Control)
                | self.moved_bit(mask.0, ModClass::Alt)
                | self.moved_bit(mask.0, ModClass::Meta)
                | self.moved_bit(mask.0, ModClass::Super),
        )
    }
}
