//! Hotkeys as they are printed.

ghost use Rattle.std.specs.Prelude.{◌≡◌, ◌<◌, ◌++◌, OnOk};
ghost use Rattle.std.specs.Fmt.{decimal};
ghost use Rattle.hotkey_text.specs.Printed as spec;
ghost use Rattle.hotkey_text.specs.Printed.{key_chord_text, mouse_chord_text, call_text};
ghost use Rattle.hotkey_text.specs.Printed.{trigger_text, action_text};

use crate::keys::is_plain;
use crate::lock_modes::lock_word;
use crate::mod_reading::{class_word, has_class};
use crate::names::{ActionName, Deed};
use hotkey_rules::{Action, Trigger, name_of_key};
use modifier_map::{CLASSES, ModClass};
use share_base::{KeyId, Lines, Mask, MouseButton, Octets, OutOfMemory, put_u16};

fn digit_text(digit: u16) -> u8
    requires { digit < 16 }
    ensures { result ≡ spec.digit_text digit }
{
    if digit < 10 {
        b'0' + digit as u8
    } else {
        b'A' - 10 + digit as u8
    }
}

fn coded_text(number: u16) -> [u8; 6]
    ensures { result ≡ spec.coded_text number }
{
    [
        b'\\',
        b'u',
        digit_text(number / 4096),
        digit_text(number / 256 % 16),
        digit_text(number / 16 % 16),
        digit_text(number % 16),
    ]
}

#[tactic(auto, unfolding(crate::specs::Printed::key_text))]
fn put_key(id: KeyId, out: &mut Octets) -> Result<(), OutOfMemory>
    ensures { OnOk result (out.new ≡ out.old ++ spec.key_text id) }
{
    if let Some(name) = name_of_key(id) {
        return out.extend(name.as_bytes());
    }
    if is_plain(id.0) {
        return out.push(id.0 as u8);
    }
    out.extend(&coded_text(id.0))
}

#[tactic(auto, unfolding(crate::specs::Printed::mod_text))]
fn put_mod(mods: Mask, class: ModClass, out: &mut Octets) -> Result<(), OutOfMemory>
    ensures { OnOk result (out.new ≡ out.old ++ spec.mod_text mods class) }
{
    if !has_class(mods, class) {
        return Ok(());
    }
    out.extend(class_word(class))?;
    out.extend(b"+")
}

#[tactic(auto, unfolding(crate::specs::Printed::mods_text))]
fn put_mods(mods: Mask, out: &mut Octets) -> Result<(), OutOfMemory>
    ensures { OnOk result (out.new ≡ out.old ++ spec.mods_text mods) }
{
    for class in CLASSES {
        put_mod(mods, class, out)?;
    }
    Ok(())
}

fn put_number(number: u8, out: &mut Octets) -> Result<(), OutOfMemory>
    ensures { OnOk result (out.new ≡ out.old ++ decimal number) }
{
    let mut digits = Lines::new();
    put_u16(&mut digits, u16::from(number));
    out.extend(digits.as_slice())
}

#[tactic(auto, unfolding(crate::specs::Printed::call_text))]
fn put_call(name: ActionName, argument: &[u8], out: &mut Octets) -> Result<(), OutOfMemory>
    ensures { OnOk result (out.new ≡ out.old ++ call_text name argument.now) }
{
    out.extend(name.word())?;
    out.extend(b"(")?;
    out.extend(argument)?;
    out.extend(b")")
}

#[tactic(auto, unfolding(crate::specs::Printed::call_text))]
fn put_key_call(deed: Deed, id: KeyId, mods: Mask, out: &mut Octets) -> Result<(), OutOfMemory>
    ensures { OnOk result
        (out.new ≡ out.old ++ call_text (ActionName.Key deed) (key_chord_text id mods)) }
{
    out.extend(ActionName::Key(deed).word())?;
    out.extend(b"(")?;
    put_mods(mods, out)?;
    put_key(id, out)?;
    out.extend(b")")
}

#[tactic(auto, unfolding(crate::specs::Printed::call_text))]
fn put_mouse_call(
    deed: Deed,
    b: MouseButton,
    mods: Mask,
    out: &mut Octets,
) -> Result<(), OutOfMemory>
    ensures { OnOk result
        (out.new ≡ out.old ++ call_text (ActionName.Mouse deed) (mouse_chord_text b mods)) }
{
    out.extend(ActionName::Mouse(deed).word())?;
    out.extend(b"(")?;
    put_mods(mods, out)?;
    put_number(b.0, out)?;
    out.extend(b")")
}

/// Adds a trigger, as `keystroke(MODS+KEY)` or `mousebutton(MODS+NUMBER)`. After `OutOfMemory` some
/// of it may have been added.
pub fn put_trigger(trigger: Trigger, out: &mut Octets) -> Result<(), OutOfMemory>
    ensures { OnOk result (out.new ≡ out.old ++ trigger_text trigger) }
{
    match trigger {
        Trigger::Key { id, mods } => put_key_call(Deed::Stroke, id, mods, out),
        Trigger::Mouse { b, mods } => put_mouse_call(Deed::Stroke, b, mods, out),
    }
}

/// Adds an action, as `WORD(ARGUMENT)`, where `screen` is the name of the screen to which it
/// switches, if it does. After `OutOfMemory` some of it may have been added.
pub fn put_action(action: Action, screen: &[u8], out: &mut Octets) -> Result<(), OutOfMemory>
    ensures { OnOk result (out.new ≡ out.old ++ action_text action screen.now) }
{
    match action {
        Action::KeyStroke { id, mods, .. } => put_key_call(Deed::Stroke, id, mods, out),
        Action::KeyPress { id, mods, .. } => put_key_call(Deed::Press, id, mods, out),
        Action::KeyRelease { id, mods, .. } => put_key_call(Deed::Release, id, mods, out),
        Action::MouseClick { mods, b } => put_mouse_call(Deed::Stroke, b, mods, out),
        Action::MousePress { mods, b } => put_mouse_call(Deed::Press, b, mods, out),
        Action::MouseRelease { mods, b } => put_mouse_call(Deed::Release, b, mods, out),
        Action::Lock(mode) => put_call(ActionName::Lock, lock_word(mode), out),
        Action::SwitchTo(_) => put_call(ActionName::SwitchTo, screen, out),
        Action::SwitchToward(side) => put_call(ActionName::SwitchToward, side.word(), out),
    }
}

/// What stands between the two lists of actions: a `;` where something is released or nothing is
/// pressed, and a blank after it where something is released.
pub fn between(has_press: bool, has_release: bool) -> &'static [u8]
    ensures { result.now ≡ spec.between has_press has_release }
{
    if has_release {
        return b"; ";
    }
    if has_press { b"" } else { b";" }
}
