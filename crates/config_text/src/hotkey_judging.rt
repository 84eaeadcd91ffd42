//! The faults of a hotkey's words, and of its limits.

ghost use Rattle.std.specs.Prelude.{◌≡◌, ◌++◌, ◌∷◌, [], true, length, IfOk};
ghost use Rattle.std.specs.List.{list_all};
ghost use Rattle.hotkey_text.specs.Views.{form_text, list_text, line_text, screen_text, words_text};
ghost use Rattle.config_text.specs.Answering.{Judges};
ghost use Rattle.config_text.specs.Hotkeys as spec;
ghost use Rattle.screen_config.specs.SoundHotkeys.{is_action_among};

use crate::faults::{ConfigKind, Fault, LineFault};
use crate::words::found;
use hotkey_rules::Action;
use hotkey_text::{
    ActionForm, ActionList, ActionWords, HotkeyFault, HotkeyForm, HotkeyKind, ScreenWord,
};
use screen_config::{Config, HotkeysFault};
use share_base::{Button, OutOfMemory};

fn kind_of(kind: HotkeyKind) -> ConfigKind
    ensures { result ≡ spec.kind_of kind }
{
    match kind {
        HotkeyKind::BadValue => ConfigKind::BadValue,
        HotkeyKind::UnknownKey => ConfigKind::UnknownKey,
        HotkeyKind::UnknownScreen => ConfigKind::UnknownScreen,
        HotkeyKind::UnknownAction => ConfigKind::UnknownAction,
    }
}

/// A fault of a hotkey's words is one of the line.
fn judged<T: Drop>(read: Result<T, HotkeyFault>) -> Result<T, LineFault>
    ensures { Judges (λ x. x) result (spec.judged_words read) }
{
    match read {
        Ok(value) => Ok(value),
        Err(fault) => Err(LineFault::Refused(Fault {
            kind: kind_of(fault.kind),
            left: fault.left,
        })),
    }
}

/// A word more, after that of a screen, is a fault.
fn nothing_further(further: Option<usize>) -> Result<(), LineFault>
    ensures { Judges (λ x. x) result (spec.nothing_further further) }
{
    match further {
        None => Ok(()),
        Some(left) => Err(LineFault::Refused(Fault {
            kind: ConfigKind::BadValue,
            left,
        })),
    }
}

fn push(actions: &mut Vec<Action>, action: Action) -> Result<(), OutOfMemory>
    ensures { IfOk result (λ _. actions.new.items ≡ actions.old.items ++ action ∷ []) }
{
    actions.push(action)?;
    Ok(())
}

#[tactic(auto, unfolding(crate::specs::Hotkeys::screen_named))]
fn screen_named(config: &Config, screen: ScreenWord<'_>) -> Result<Action, LineFault>
    ensures { Judges (λ x. x) result (spec.screen_named config.now (screen_text screen.entry)) }
{
    let number = found(
        config.find(screen.word.text),
        ConfigKind::UnknownScreen,
        screen.word.left,
    )?;
    nothing_further(screen.further)?;
    Ok(Action::SwitchTo(number))
}

fn meant(config: &Config, words: ActionWords<'_>) -> Result<Action, LineFault>
    ensures { Judges (λ x. x) result (spec.meant config.now (words_text words.entry)) }
{
    match words {
        ActionWords::Key { deed, id, mods } => Ok(deed.key_action(id, mods, Button(0))),
        ActionWords::Mouse { deed, b, mods } => Ok(deed.mouse_action(mods, b)),
        ActionWords::Lock(mode) => Ok(Action::Lock(mode)),
        ActionWords::SwitchTo(screen) => screen_named(config, screen),
        ActionWords::SwitchToward(side) => Ok(Action::SwitchToward(side)),
    }
}

#[tactic(auto, unfolding(crate::specs::Hotkeys::action_of))]
fn action_of(config: &Config, form: ActionForm<'_>) -> Result<Action, LineFault>
    ensures { Judges (λ x. x) result (spec.action_of config.now (form_text form.entry)) }
{
    let words = judged(hotkey_text::action_words(form))?;
    meant(config, words)
}

fn actions_of(config: &Config, list: ActionList<'_>) -> Result<Vec<Action>, LineFault>
    ensures judged { Judges (λ v. v.items) result
        (spec.actions_of config.now (list_text list.entry)) }
    ensures spelled { IfOk result
        (λ v. list_all (is_action_among (length config.now.screens)) v.items ≡ true) }
{
    config.assure_sound();
    let mut actions = Vec::new(config.alloc());
    let mut rest = list;
    while let Some((form, after)) = rest.split_first() {
        let action = action_of(config, form)?;
        push(&mut actions, action)?;
        rest = after;
    }
    Ok(actions)
}

/// A new hotkey, in whose line `whole` bytes stand.
#[tactic(auto, unfolding(crate::specs::Hotkeys::new_hotkey))]
pub(crate) fn new_hotkey(
    config: &mut Config,
    line: HotkeyForm<'_>,
    whole: usize,
) -> Result<(), LineFault>
    ensures judged { Judges (λ _. config.new) result
        (spec.new_hotkey whole config.old (line_text line.entry)) }
    ensures same_count { length config.new.screens ≡ length config.old.screens }
{
    let trigger = judged(hotkey_text::trigger(line))?;
    let press = actions_of(config, line.press)?;
    let release = actions_of(config, line.release)?;
    match config.add_hotkey(trigger, press.as_slice(), release.as_slice()) {
        Ok(()) => Ok(()),
        Err(HotkeysFault::Full) => Err(LineFault::Refused(Fault {
            kind: ConfigKind::TooMany,
            left: whole,
        })),
        Err(HotkeysFault::OutOfMemory) => Err(LineFault::OutOfMemory),
    }
}
