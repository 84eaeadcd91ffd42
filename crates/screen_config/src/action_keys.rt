//! The keys of actions, and their buttons.

ghost use Rattle.std.specs.Prelude.{◌≡◌, ◌==◌, ◌<◌, ◌≤◌, ◌∷◌, [], map, length, position, IfOk};
ghost use Rattle.std.specs.Prelude.{IfSome};
ghost use Rattle.std.specs.Option.{option_to_list};
ghost use Rattle.screen_config.specs.ActionKeys as spec;
ghost use Rattle.screen_config.specs.ActionKeys.{key_in, keys_in};
ghost use Rattle.screen_config.specs.AddingHotkeys.{AddsKeys};

use crate::hotkeys::HotkeysFault;
use hotkey_rules::{Action, Actions};
use share_base::{Button, OutOfMemory};
use std::alloc::Global;

/// How many keys actions have at most.
pub const MOST_ACTION_KEYS: usize = 256;

/// The button of the first key. The others follow it.
const FIRST_BUTTON: u16 = 0xf000;

fn key_of(action: Action) -> Option<u16>
    ensures { option_to_list result ≡ key_in action }
{
    match action {
        Action::KeyStroke { id, .. } => Some(id.0),
        Action::KeyPress { id, .. } => Some(id.0),
        Action::KeyRelease { id, .. } => Some(id.0),
        Action::MouseClick { .. } => None,
        Action::MousePress { .. } => None,
        Action::MouseRelease { .. } => None,
        Action::Lock(_) => None,
        Action::SwitchTo(_) => None,
        Action::SwitchToward(_) => None,
    }
}

fn has_key(keys: &[u16], id: u16) -> bool
    ensures { result ≡ spec.has_key keys.now id }
{
    keys.iter().any(|key| *key == id)
}

fn add_key(keys: &mut Vec<u16>, id: u16) -> Result<(), HotkeysFault>
    requires { length keys.old.items ≤ MOST_ACTION_KEYS }
    ensures { AddsKeys result keys.old.items (id ∷ []) keys.new.items }
{
    if has_key(keys.as_slice(), id) {
        return Ok(());
    }
    if keys.len() >= MOST_ACTION_KEYS {
        return Err(HotkeysFault::Full);
    }
    match keys.push(id) {
        Ok(()) => Ok(()),
        Err(_) => Err(HotkeysFault::OutOfMemory),
    }
}

fn add_key_of(keys: &mut Vec<u16>, action: Action) -> Result<(), HotkeysFault>
    requires { length keys.old.items ≤ MOST_ACTION_KEYS }
    ensures { AddsKeys result keys.old.items (key_in action) keys.new.items }
{
    match key_of(action) {
        None => Ok(()),
        Some(id) => add_key(keys, id),
    }
}

/// Adds the keys of actions that aren't there yet. `Full` if there would be more than 256; after a
/// fault some of them may have been added.
pub(crate) fn add_keys(keys: &mut Vec<u16>, actions: &[Action]) -> Result<(), HotkeysFault>
    requires { length keys.old.items ≤ MOST_ACTION_KEYS }
    ensures { AddsKeys result keys.old.items (keys_in actions.now) keys.new.items }
{
    let mut rest = actions;
    while let [action, after @ ..] = rest {
        match add_key_of(keys, *action) {
            Err(fault) => return Err(fault),
            Ok(()) => rest = after,
        }
    }
    Ok(())
}

fn place_of(keys: &[u16], id: u16) -> Option<usize>
    ensures place { result ≡ position (λ k. k == id) keys.now }
    ensures below { IfSome result (λ n. n < length keys.now) }
{
    keys.iter().position(|key| *key == id)
}

fn button_of(keys: &[u16], id: u16) -> Button
    requires { length keys.now ≤ MOST_ACTION_KEYS }
    ensures { result ≡ spec.button_of keys.now id }
{
    let place = place_of(keys, id).unwrap_or(keys.len());
    Button(FIRST_BUTTON + place as u16)
}

#[tactic(auto, unfolding(crate::specs::ActionKeys::with_button))]
fn with_button(keys: &[u16], action: Action) -> Action
    requires { length keys.now ≤ MOST_ACTION_KEYS }
    ensures { result ≡ spec.with_button keys.now action }
{
    match action {
        Action::KeyStroke { id, mods, .. } => Action::KeyStroke {
            id,
            mods,
            button: button_of(keys, id.0),
        },
        Action::KeyPress { id, mods, .. } => Action::KeyPress {
            id,
            mods,
            button: button_of(keys, id.0),
        },
        Action::KeyRelease { id, mods, .. } => Action::KeyRelease {
            id,
            mods,
            button: button_of(keys, id.0),
        },
        Action::MouseClick { .. } => action,
        Action::MousePress { .. } => action,
        Action::MouseRelease { .. } => action,
        Action::Lock(_) => action,
        Action::SwitchTo(_) => action,
        Action::SwitchToward(_) => action,
    }
}

/// The actions, each key with its button.
pub(crate) fn numbered(
    alloc: Global,
    keys: &[u16],
    actions: &[Action],
) -> Result<Actions, OutOfMemory>
    requires { length keys.now ≤ MOST_ACTION_KEYS }
    ensures { IfOk result (λ given. given ≡ map (spec.with_button keys.now) actions.now) }
{
    let mut given = Actions::new(alloc);
    for action in actions {
        given.push(with_button(keys, *action))?;
    }
    Ok(given)
}
