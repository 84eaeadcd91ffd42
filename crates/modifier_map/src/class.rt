//! The table of modifiers.

ghost use Rattle.std.specs.Prelude.{◌≡◌, ◌≤◌, find, nat_eq};
ghost use Rattle.modifier_map.specs.Table.{row, row_of, class_of_left, class_of_right};
ghost use Rattle.modifier_map.specs.Table.{class_of_code, class_of_value, key_bit, lock_bit};

use share_base::KeyId;

/// A class of modifier keys.
#[derive(Clone, Copy, Debug, PartialEq, Eq)]
pub enum ModClass {
    /// Shift_L and Shift_R.
    Shift,
    /// Control_L and Control_R.
    Control,
    /// Alt_L and Alt_R.
    Alt,
    /// Meta_L and Meta_R.
    Meta,
    /// Super_L and Super_R.
    Super,
}

/// The row of a class in the table.
#[derive(Clone, Copy, Debug, PartialEq, Eq)]
pub struct Row {
    /// Its left key.
    pub left: u16,
    /// Its right key.
    pub right: u16,
    /// Its bit in masks.
    pub bit: u16,
    /// The code of the option that gives it a target: four letters as a big-endian number.
    pub code: u32,
    /// The value by which an option names it as a target.
    pub value: u32,
}

/// All classes, in the order of their values.
pub const CLASSES: [ModClass; 5] = [
    ModClass::Shift,
    ModClass::Control,
    ModClass::Alt,
    ModClass::Meta,
    ModClass::Super,
];

const fn row_of(left: u16, right: u16, bit: u16, code: [u8; 4], value: u32) -> Row
    ensures { result ≡ row_of left right bit code value }
{
    Row {
        left,
        right,
        bit,
        code: u32::from_be_bytes(code),
        value,
    }
}

impl ModClass {
    /// Its row.
    pub fn row(self) -> Row
        ensures { result ≡ row self }
    {
        match self {
            ModClass::Shift => row_of(0xefe1, 0xefe2, 0x01, *b"MMFS", 1),
            ModClass::Control => row_of(0xefe3, 0xefe4, 0x02, *b"MMFC", 2),
            ModClass::Alt => row_of(0xefe9, 0xefea, 0x04, *b"MMFA", 3),
            ModClass::Meta => row_of(0xefe7, 0xefe8, 0x08, *b"MMFM", 4),
            ModClass::Super => row_of(0xefeb, 0xefec, 0x10, *b"MMFR", 5),
        }
    }

    /// The class whose left key it is, if any.
    pub fn of_left(id: KeyId) -> Option<ModClass>
        ensures { result ≡ class_of_left id.0 }
    {
        CLASSES
            .iter()
            .copied()
            .find(|class| class.row().left == id.0)
    }

    /// The class whose right key it is, if any.
    pub fn of_right(id: KeyId) -> Option<ModClass>
        ensures { result ≡ class_of_right id.0 }
    {
        CLASSES
            .iter()
            .copied()
            .find(|class| class.row().right == id.0)
    }

    /// The class whose target an option of that code sets, if any.
    pub fn of_code(code: u32) -> Option<ModClass>
        ensures { result ≡ class_of_code code }
    {
        CLASSES
            .iter()
            .copied()
            .find(|class| class.row().code == code)
    }

    /// The class that an option of that value names, if any.
    pub fn of_value(value: u32) -> Option<ModClass>
        ensures { result ≡ class_of_value value }
    {
        CLASSES
            .iter()
            .copied()
            .find(|class| class.row().value == value)
    }
}

/// The bit of the class of which a key is, 0 for every other key.
pub fn key_bit(id: KeyId) -> u16
    ensures { result ≡ key_bit id.0 }
{
    match ModClass::of_left(id).or(ModClass::of_right(id)) {
        Some(class) => class.row().bit,
        None => 0,
    }
}

/// The toggle that a lock key flips, 0 for every other key.
pub fn lock_bit(id: KeyId) -> u16
    ensures { result ≡ lock_bit id.0 }
{
    match id.0 {
        0xefe5 => 0x1000,
        0xef7f => 0x2000,
        0xef14 => 0x4000,
        _ => 0,
    }
}
