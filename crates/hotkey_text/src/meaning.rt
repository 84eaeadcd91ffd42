//! How the words of a hotkey's line are judged, from left to right.

ghost use Rattle.std.specs.Prelude.{◌≡◌};
ghost use Rattle.text_lines.specs.Reading.{Gives};
ghost use Rattle.hotkey_text.specs.Arguments.{trigger_at, trigger_of, lock_at, side_at, screen_at};
ghost use Rattle.hotkey_text.specs.Arguments.{argument_of, action_of};
ghost use Rattle.hotkey_text.specs.Views.{form_text, line_text, screen_text, words_text};

use crate::arguments::{ActionWords, ScreenWord};
use crate::faults::{HotkeyFault, HotkeyKind, found, unless};
use crate::forms::ActionForm;
use crate::lock_modes::lock_named;
use crate::mod_reading::{closed, key_chord, mouse_chord};
use crate::names::{ActionName, TriggerKind};
use crate::shapes::HotkeyForm;
use hotkey_rules::{LockMode, Trigger};
use share_base::Side;
use text_lines::{WordKind, begins, run};

fn trigger_at(kind: TriggerKind, argument: &[u8]) -> Result<Trigger, HotkeyFault>
    ensures { result ≡ trigger_at kind argument.now }
{
    match kind {
        TriggerKind::Key => {
            let chord = key_chord(argument, false)?;
            Ok(Trigger::Key {
                id: chord.id,
                mods: chord.mods,
            })
        }
        TriggerKind::Mouse => {
            let chord = mouse_chord(argument)?;
            Ok(Trigger::Mouse {
                b: chord.b,
                mods: chord.mods,
            })
        }
    }
}

/// What sets the hotkey of a line off. An error is the first fault of the trigger's words; or
/// `BadValue` at the line's end, where neither an action nor a `;` stands.
#[tactic(auto, unfolding(crate::specs::Arguments::trigger_of))]
pub fn trigger(line: HotkeyForm<'_>) -> Result<Trigger, HotkeyFault>
    ensures { result ≡ trigger_of (line_text line.entry) }
{
    let trigger = trigger_at(line.kind, line.argument)?;
    unless(
        line.released || !line.press.is_empty(),
        HotkeyKind::BadValue,
        0,
    )?;
    Ok(trigger)
}

#[tactic(auto, unfolding(crate::specs::Arguments::lock_at))]
fn lock(bytes: &[u8]) -> Result<LockMode, HotkeyFault>
    ensures { result ≡ lock_at bytes.now }
{
    let (word, rest) = run(bytes, WordKind::Choice);
    let mode = found(lock_named(word.text), HotkeyKind::BadValue, word.left)?;
    closed(rest)?;
    Ok(mode)
}

#[tactic(auto, unfolding(crate::specs::Arguments::side_at))]
fn side(bytes: &[u8]) -> Result<Side, HotkeyFault>
    ensures { result ≡ side_at bytes.now }
{
    let (word, rest) = run(bytes, WordKind::Choice);
    let side = found(Side::named(word.text), HotkeyKind::BadValue, word.left)?;
    closed(rest)?;
    Ok(side)
}

#[tactic(auto, unfolding(crate::specs::Arguments::screen_at))]
fn screen(bytes: &[u8]) -> Result<ScreenWord<'_>, HotkeyFault>
    ensures { Gives screen_text result (screen_at bytes.now) }
{
    let (word, rest) = run(bytes, WordKind::Choice);
    unless(!word.text.is_empty(), HotkeyKind::UnknownScreen, word.left)?;
    let further = if begins(rest, b')') {
        None
    } else {
        Some(rest.len())
    };
    Ok(ScreenWord { word, further })
}

fn argument(name: ActionName, bytes: &[u8]) -> Result<ActionWords<'_>, HotkeyFault>
    ensures { Gives words_text result (argument_of name bytes.now) }
{
    match name {
        ActionName::Key(deed) => {
            let chord = key_chord(bytes, true)?;
            Ok(ActionWords::Key {
                deed,
                id: chord.id,
                mods: chord.mods,
            })
        }
        ActionName::Mouse(deed) => {
            let chord = mouse_chord(bytes)?;
            Ok(ActionWords::Mouse {
                deed,
                b: chord.b,
                mods: chord.mods,
            })
        }
        ActionName::Lock => Ok(ActionWords::Lock(lock(bytes)?)),
        ActionName::SwitchTo => Ok(ActionWords::SwitchTo(screen(bytes)?)),
        ActionName::SwitchToward => Ok(ActionWords::SwitchToward(side(bytes)?)),
    }
}

/// What an action's words mean. An error is the first fault of its words; that a screen's word
/// names none, and then that a further word stands after it, is left to the caller.
#[tactic(auto, unfolding(crate::specs::Arguments::action_of))]
pub fn action_words(form: ActionForm<'_>) -> Result<ActionWords<'_>, HotkeyFault>
    ensures { Gives words_text result (action_of (form_text form.entry)) }
{
    let name = found(
        ActionName::named(form.word.text),
        HotkeyKind::UnknownAction,
        form.word.left,
    )?;
    argument(name, form.argument)
}
