//! The hotkeys of a configuration.

ghost use Rattle.std.specs.Prelude.{◌≡◌, [], IfOk};
ghost use Rattle.screen_config.specs.AddingHotkeys.{AddsHotkey};

use crate::action_keys::{add_keys, numbered};
use hotkey_rules::{Action, Rules, RulesFault, Trigger};
use share_base::OutOfMemory;
use std::alloc::Global;
use std::marker::Model;

/// How many actions all hotkeys have at most.
pub const MOST_ACTIONS: usize = 4096;

/// Why a hotkey was not added.
#[derive(Clone, Copy, Debug, PartialEq, Eq)]
pub enum HotkeysFault {
    /// It would pass a limit: 256 hotkeys, 256 keys of actions, 4,096 actions.
    Full,
    /// Out of memory.
    OutOfMemory,
}

impl From<OutOfMemory> for HotkeysFault {
    ghost use Rattle.std.specs.Prelude.{◌≡◌};
    ghost use Rattle.screen_config.specs.declared.hotkeys.HotkeysFault.TheVariants as fault;

    ghost from_gives = { λ _ e. e ≡ fault.OutOfMemory };

    fn from(_error: OutOfMemory) -> HotkeysFault {
        HotkeysFault::OutOfMemory
    }
}

/// Hotkeys in the order of the text, with what the limits and the buttons of the next one need.
/// Contracts see a list of rules.
#[derive(Debug, Drop)]
pub(crate) struct Hotkeys {
    alloc: Global,
    rules: Rules,
    keys: Vec<u16>,
    actions: usize,
}

impl Model for Hotkeys {
    ghost use Rattle.std.specs.Prelude.{List};
    ghost use Rattle.hotkey_rules.specs.declared.rule.Rule.{Rule};
    ghost use Rattle.screen_config.specs.AddingHotkeys.{AreCounted};

    ghost Value = { List Rule };

    ghost view = { λ h. h.rules };

    ghost invariant = { λ h. AreCounted h.rules h.keys.items h.actions };
}

fn copied(alloc: Global, keys: &[u16]) -> Result<Vec<u16>, OutOfMemory>
    ensures { IfOk result (λ given. given.items ≡ keys.now) }
{
    Ok(keys.to_vec(alloc)?)
}

impl Hotkeys {
    /// No hotkeys.
    pub(crate) fn new(alloc: Global) -> Hotkeys
        ensures { result ≡ [] }
    {
        Hotkeys {
            alloc,
            rules: Rules::new(alloc),
            keys: Vec::new(alloc),
            actions: 0,
        }
    }

    /// The rules.
    pub(crate) fn rules(&self) -> &Rules
        ensures { result.now ≡ self.now }
    {
        &self.rules
    }

    /// A further hotkey, whose keys are given their buttons. `Full` if it would pass a limit: 256
    /// hotkeys, 256 keys of actions, 4,096 actions. After a fault the hotkeys are unchanged.
    pub(crate) fn add(
        &mut self,
        trigger: Trigger,
        press: &[Action],
        release: &[Action],
    ) -> Result<(), HotkeysFault>
        ensures { AddsHotkey result self.old trigger press.now release.now self.new }
    {
        let room = MOST_ACTIONS - self.actions;
        if press.len() > room {
            return Err(HotkeysFault::Full);
        }
        if release.len() > room - press.len() {
            return Err(HotkeysFault::Full);
        }
        let mut keys = copied(self.alloc, self.keys.as_slice())?;
        add_keys(&mut keys, press)?;
        add_keys(&mut keys, release)?;
        let pressed = numbered(self.alloc, keys.as_slice(), press)?;
        let released = numbered(self.alloc, keys.as_slice(), release)?;
        match self.rules.add(trigger, pressed, released) {
            Err(RulesFault::Full) => Err(HotkeysFault::Full),
            Err(RulesFault::OutOfMemory) => Err(HotkeysFault::OutOfMemory),
            Ok(()) => {
                self.keys = keys;
                self.actions += press.len() + release.len();
                Ok(())
            }
        }
    }
}
