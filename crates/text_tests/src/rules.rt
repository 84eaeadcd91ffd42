//! The rules of hotkeys, and the names of keys.

use hotkey_rules::*;
use share_base::{Button, KeyId, Mask, MouseButton, OutOfMemory, RuleNo, ScreenNo, Side};
use std::alloc::Global;
use std::test::Fail;

const CONTROL: Mask = Mask(2);

const CONTROL_ALT: Mask = Mask(6);

const RIGHT: KeyId = KeyId(0xef53);

const LOCKS: [Action; 1] = [Action::Lock(LockMode::Toggle)];

const SWITCHES: [Action; 1] = [Action::SwitchToward(Side::Right)];

const STROKES: [Action; 1] = [Action::KeyStroke {
    id: KeyId(97),
    mods: Mask(1),
    button: Button(0xf000),
}];

const CLICKS: [Action; 2] = [
    Action::MousePress {
        mods: Mask(0),
        b: MouseButton(1),
    },
    Action::MouseRelease {
        mods: Mask(0),
        b: MouseButton(1),
    },
];

/// A trigger, and what is done when it goes down and when it goes up.
#[derive(Drop)]
struct RuleRow(Trigger, &'static [Action], &'static [Action]);

const fn key(id: KeyId, mods: Mask) -> Trigger {
    Trigger::Key { id, mods }
}

const fn mouse(b: u8, mods: Mask) -> Trigger {
    Trigger::Mouse {
        b: MouseButton(b),
        mods,
    }
}

// The second and the third have one trigger, and the last two one number of a key and of a button.
fn rule_rows() -> [RuleRow; 5] {
    [
        RuleRow(key(RIGHT, CONTROL), &LOCKS, &[]),
        RuleRow(key(RIGHT, CONTROL_ALT), &SWITCHES, &STROKES),
        RuleRow(key(RIGHT, CONTROL_ALT), &CLICKS, &[]),
        RuleRow(mouse(1, CONTROL), &SWITCHES, &[]),
        RuleRow(key(KeyId(1), CONTROL), &[], &[]),
    ]
}

fn list(alloc: Global, actions: &[Action]) -> Result<Actions, OutOfMemory> {
    let mut list = Actions::new(alloc);
    for action in actions {
        list.push(*action)?;
    }
    Ok(list)
}

fn rules(alloc: Global) -> Result<Rules, Fail> {
    let mut rules = Rules::new(alloc);
    for row in &rule_rows() {
        rules.add(row.0, list(alloc, row.1)?, list(alloc, row.2)?)?;
    }
    Ok(rules)
}

/// A trigger, and the first rule that has it.
#[derive(Drop)]
struct Search(Trigger, Option<RuleNo>);

fn searches() -> [Search; 8] {
    [
        Search(key(RIGHT, CONTROL_ALT), Some(RuleNo(1))),
        Search(key(RIGHT, CONTROL), Some(RuleNo(0))),
        Search(key(RIGHT, Mask(0)), None),
        Search(key(KeyId(97), CONTROL), None),
        Search(key(KeyId(1), CONTROL), Some(RuleNo(4))),
        Search(mouse(1, CONTROL), Some(RuleNo(3))),
        Search(mouse(1, CONTROL_ALT), None),
        Search(mouse(2, CONTROL), None),
    ]
}

#[test]
fn the_first_of_two_equal_triggers_is_found(rt: HostRuntime) -> Result<(), Fail> {
    let rules = rules(rt.alloc())?;
    for row in &searches() {
        let rule = match row.0 {
            Trigger::Key { id, mods } => rules.find_key(id, mods),
            Trigger::Mouse { b, mods } => rules.find_button(b, mods),
        };
        assert_eq!(rt; rule, row.1);
    }
    Ok(())
}

#[test]
fn rules_keep_their_actions(rt: HostRuntime) -> Result<(), Fail> {
    let rules = rules(rt.alloc())?;
    let rows = rule_rows();
    assert_eq!(rt; rules.len(), rows.len());
    for (rule, row) in rules.as_slice().iter().zip(&rows) {
        assert_eq!(rt; rule.press.as_slice(), row.1);
        assert_eq!(rt; rule.release.as_slice(), row.2);
    }
    Ok(())
}

#[test]
fn there_are_at_most_256_rules(rt: HostRuntime) {
    assert_eq!(rt; MOST_RULES, 256);
}

/// A key's name, and its number.
#[derive(Clone, Copy)]
struct NamedKey(&'static str, u16);

fn named_keys() -> [NamedKey; 35] {
    [
        NamedKey("BackSpace", 0xef08),
        NamedKey("Tab", 0xef09),
        NamedKey("Return", 0xef0d),
        NamedKey("ScrollLock", 0xef14),
        NamedKey("Escape", 0xef1b),
        NamedKey("Home", 0xef50),
        NamedKey("Left", 0xef51),
        NamedKey("Up", 0xef52),
        NamedKey("Right", 0xef53),
        NamedKey("Down", 0xef54),
        NamedKey("NumLock", 0xef7f),
        NamedKey("CapsLock", 0xefe5),
        NamedKey("Shift_L", 0xefe1),
        NamedKey("Shift_R", 0xefe2),
        NamedKey("Delete", 0xefff),
        NamedKey("Control_L", 0xefe3),
        NamedKey("Control_R", 0xefe4),
        NamedKey("Meta_L", 0xefe7),
        NamedKey("Meta_R", 0xefe8),
        NamedKey("Alt_L", 0xefe9),
        NamedKey("Alt_R", 0xefea),
        NamedKey("Super_L", 0xefeb),
        NamedKey("Super_R", 0xefec),
        NamedKey("F1", 0xefbe),
        NamedKey("F2", 0xefbf),
        NamedKey("F3", 0xefc0),
        NamedKey("F4", 0xefc1),
        NamedKey("F5", 0xefc2),
        NamedKey("F6", 0xefc3),
        NamedKey("F7", 0xefc4),
        NamedKey("F8", 0xefc5),
        NamedKey("F9", 0xefc6),
        NamedKey("F10", 0xefc7),
        NamedKey("F11", 0xefc8),
        NamedKey("F12", 0xefc9),
    ]
}

#[test]
fn each_named_key_has_its_number(rt: HostRuntime) {
    for row in &named_keys() {
        assert_eq!(rt; key_of_name(row.0.as_bytes()), Some(KeyId(row.1)));
        assert_eq!(rt; name_of_key(KeyId(row.1)), Some(row.0));
    }
}

#[test]
fn keys_are_called_in_any_letters(rt: HostRuntime) {
    for (name, key) in [
        (b"sHIFT_l".as_slice(), Some(KeyId(0xefe1))),
        (b"Shift", None),
        (b"Shift_L ", None),
        (b"", None),
    ] {
        assert_eq!(rt; key_of_name(name), key);
    }
    assert_eq!(rt; name_of_key(KeyId(0xefca)), None);
}
