//! The hotkeys of a configuration, as they are printed.

ghost use Rattle.std.specs.Prelude.{◌≡◌, ◌++◌, OnOk, map, codes};
ghost use Rattle.std.specs.List.{flat_map};
ghost use Rattle.hotkey_text.specs.Printed as words;
ghost use Rattle.hotkey_text.specs.Printed.{and_further, with_commas, trigger_text};
ghost use Rattle.hotkey_text.specs.Shapes as shapes;
ghost use Rattle.config_text.specs.Normal as spec;
ghost use Rattle.config_text.specs.Normal.{action_of, further_action};

use crate::printing::name_bytes;
use hotkey_rules::{Action, Rule};
use hotkey_text::{between, put_action, put_trigger};
use screen_config::Config;
use share_base::{Octets, OutOfMemory};

fn has_some(actions: &[Action]) -> bool
    ensures { result ≡ shapes.has_some actions.now }
{
    match actions {
        [] => false,
        [_, ..] => true,
    }
}

fn screen_in(config: &Config, action: Action) -> &[u8]
    ensures { result.now ≡ spec.screen_in config.now action }
{
    match action {
        Action::SwitchTo(screen) => name_bytes(config, screen),
        Action::SwitchToward(_) => &[],
        Action::Lock(_) => &[],
        Action::KeyStroke { .. } => &[],
        Action::KeyPress { .. } => &[],
        Action::KeyRelease { .. } => &[],
        Action::MouseClick { .. } => &[],
        Action::MousePress { .. } => &[],
        Action::MouseRelease { .. } => &[],
    }
}

#[tactic(auto, unfolding(crate::specs::Normal::action_of))]
fn put_one(config: &Config, action: Action, out: &mut Octets) -> Result<(), OutOfMemory>
    ensures { OnOk result (out.new ≡ out.old ++ action_of config.now action) }
{
    put_action(action, screen_in(config, action), out)
}

fn put_one_more(config: &Config, action: Action, out: &mut Octets) -> Result<(), OutOfMemory>
    ensures { OnOk result (out.new ≡ out.old ++ further_action config.now action) }
{
    out.extend(b", ")?;
    put_one(config, action, out)
}

fn put_further(config: &Config, actions: &[Action], out: &mut Octets) -> Result<(), OutOfMemory>
    ensures { OnOk result (out.new ≡ out.old ++ flat_map (further_action config.now) actions.now) }
{
    for action in actions {
        put_one_more(config, *action, out)?;
    }
    Ok(())
}

fn put_actions(config: &Config, actions: &[Action], out: &mut Octets) -> Result<(), OutOfMemory>
    ensures { OnOk result
        (out.new ≡ out.old ++ with_commas (map (action_of config.now) actions.now)) }
{
    match actions {
        [] => Ok(()),
        [first, others @ ..] => {
            put_one(config, *first, out)?;
            put_further(config, others, out)
        }
    }
}

#[tactic(auto, using(crate::proofs::ActionTexts::some_texts), unfolding(hotkey_text::specs::Printed::hotkey_text))]
fn put_hotkey_words(config: &Config, rule: &Rule, out: &mut Octets) -> Result<(), OutOfMemory>
    ensures { OnOk result (out.new ≡ out.old ++ words.hotkey_text (trigger_text rule.now.trigger)
        (map (action_of config.now) rule.now.press) (map (action_of config.now) rule.now.release)) }
{
    let press = rule.press.as_slice();
    let release = rule.release.as_slice();
    put_trigger(rule.trigger, out)?;
    out.extend(b" = ")?;
    put_actions(config, press, out)?;
    out.extend(between(has_some(press), has_some(release)))?;
    put_actions(config, release, out)
}

#[tactic(auto, unfolding(crate::specs::Normal::hotkey_of))]
fn put_hotkey(config: &Config, rule: &Rule, out: &mut Octets) -> Result<(), OutOfMemory>
    ensures { OnOk result (out.new ≡ out.old ++ spec.hotkey_of config.now rule.now) }
{
    out.extend(b"\t")?;
    put_hotkey_words(config, rule, out)?;
    out.push(b'\n')
}

fn put_lines(config: &Config, rules: &[Rule], out: &mut Octets) -> Result<(), OutOfMemory>
    ensures { OnOk result (out.new ≡ out.old ++ flat_map (spec.hotkey_of config.now) rules.now) }
{
    for rule in rules {
        put_hotkey(config, rule, out)?;
    }
    Ok(())
}

/// Adds a line for each hotkey. After `OutOfMemory` some of it may have been added.
pub(crate) fn put_hotkeys(config: &Config, out: &mut Octets) -> Result<(), OutOfMemory>
    ensures { OnOk result (out.new ≡ out.old ++ spec.hotkeys_text config.now) }
{
    put_lines(config, config.rules().as_slice(), out)
}
