//! Modifiers: the classes of keys, what is held, and how options map it.

use modifier_map::*;
use share_base::{Button, KeyId, Mask};

const SHIFT_L: KeyId = KeyId(0xefe1);

const SHIFT_R: KeyId = KeyId(0xefe2);

const CONTROL_R: KeyId = KeyId(0xefe4);

const SUPER_L: KeyId = KeyId(0xefeb);

const CAPS_LOCK: KeyId = KeyId(0xefe5);

const NUM_LOCK: KeyId = KeyId(0xef7f);

const LETTER_A: KeyId = KeyId(97);

fn code(letters: &[u8; 4]) -> u32 {
    u32::from_be_bytes(*letters)
}

/// The letters of the option of each class, its left and right key, its bit in a mask, and the
/// value by which an option names it.
const CLASSES: [(&[u8; 4], u16, u16, u16, u32); 5] = [
    (b"MMFS", 0xefe1, 0xefe2, 0x0001, 1),
    (b"MMFC", 0xefe3, 0xefe4, 0x0002, 2),
    (b"MMFA", 0xefe9, 0xefea, 0x0004, 3),
    (b"MMFM", 0xefe7, 0xefe8, 0x0008, 4),
    (b"MMFR", 0xefeb, 0xefec, 0x0010, 5),
];

/// Each lock key, and the toggle that it flips.
const LOCKS: [(u16, u16); 3] = [(0xefe5, 0x1000), (0xef7f, 0x2000), (0xef14, 0x4000)];

#[test]
fn each_class_has_its_row(rt: HostRuntime) {
    for (letters, left, right, bit, value) in CLASSES {
        let mut held = HeldMods::new();
        held.press(KeyId(left), Button(50));
        assert_eq!(rt; held.mods(), Mask(bit));
        held.release(Button(50));
        held.press(KeyId(right), Button(62));
        assert_eq!(rt; held.mods(), Mask(bit));
        let mut without = ModMap::new();
        without.set(code(letters), 0);
        assert_eq!(rt; without.key(KeyId(left)), None);
        assert_eq!(rt; without.key(KeyId(right)), None);
        assert_eq!(rt; without.mask(Mask(0x7fff)), Mask(0x7fff ^ bit));
        let mut from_shift = ModMap::new();
        from_shift.set(code(b"MMFS"), value);
        assert_eq!(rt; from_shift.key(SHIFT_L), Some(KeyId(left)));
        assert_eq!(rt; from_shift.key(SHIFT_R), Some(KeyId(right)));
        assert_eq!(rt; from_shift.mask(Mask(1)), Mask(bit));
    }
    for (id, toggle) in LOCKS {
        let mut held = HeldMods::new();
        held.press(KeyId(id), Button(66));
        assert_eq!(rt; held.toggles(), Mask(toggle));
        assert_eq!(rt; held.mods(), Mask(0));
    }
}

#[test]
fn options_map_keys_and_masks(rt: HostRuntime) {
    let mut map = ModMap::new();
    assert_eq!(rt; map.key(SHIFT_R), Some(SHIFT_R));
    assert_eq!(rt; map.mask(Mask(0x7fff)), Mask(0x7fff));
    map.set(code(b"MMFS"), 2);
    map.set(code(b"MMFR"), 0);
    map.set(code(b"MMFC"), 6);
    map.set(code(b"HART"), 1);
    assert_eq!(rt; map.key(SHIFT_R), Some(CONTROL_R));
    assert_eq!(rt; map.key(CONTROL_R), Some(CONTROL_R));
    assert_eq!(rt; map.key(SUPER_L), None);
    assert_eq!(rt; map.key(LETTER_A), Some(LETTER_A));
    assert_eq!(rt; map.mask(Mask(0x1011)), Mask(0x1002));
}

#[test]
fn presses_hold_modifiers_and_flip_toggles(rt: HostRuntime) {
    let mut held = HeldMods::new();
    held.press(SHIFT_L, Button(50));
    held.press(SHIFT_R, Button(62));
    held.press(LETTER_A, Button(38));
    held.press(CAPS_LOCK, Button(66));
    held.press(NUM_LOCK, Button(77));
    assert_eq!(rt; held.mods(), Mask(1));
    held.release(Button(50));
    assert_eq!(rt; held.mods(), Mask(1));
    held.release(Button(62));
    held.release(Button(66));
    assert_eq!(rt; held.mods(), Mask(0));
    assert_eq!(rt; held.toggles(), Mask(0x3000));
    held.press(CAPS_LOCK, Button(66));
    assert_eq!(rt; held.toggles(), Mask(0x2000));
}
