//! A law of held modifiers on which other crates rest. The call does nothing: its contract is the
//! law.

ghost use Rattle.std.specs.Prelude.{◌<◌, ◌↔◌, List};
ghost use Rattle.modifier_map.specs.declared.class.ModClass.{ModClass as Class};
ghost use Rattle.modifier_map.specs.Presses.{Call, mods_of, HasBit, IsHeld};

/// A mask of held modifiers has the bit of a class if and only if a key of the class is down, and
/// no other bits.
pub fn mods_are_held()
    ensures held { (calls : List Call) (class : Class)
        → HasBit class (mods_of calls) ↔ IsHeld calls class }
    ensures small { (calls : List Call) → mods_of calls < 32 }
{}
