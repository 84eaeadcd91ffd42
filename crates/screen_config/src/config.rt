//! A configuration, and the steps in which it is built.

ghost use Rattle.std.specs.Prelude.{◌≡◌, ◌<◌, ◌≤◌, ◌++◌, ◌∷◌, [], length, true, false, IfSome};
ghost use Rattle.std.specs.Prelude.{OnOk, OnErr, Option, None};
ghost use Rattle.std.specs.Option.{option_map, option_copied};
ghost use Rattle.std.specs.List.{position, find, list_all};
ghost use Rattle.share_base.specs.Names.{is_name, same_name};
ghost use Rattle.screen_links.specs.Adding.{Adds};
ghost use Rattle.option_table.specs.Table.{row_of};
ghost use Rattle.option_table.specs.Values.{suits};
ghost use Rattle.option_table.specs.Scopes.{stands_below_screen, stands_for_all};
ghost use Rattle.hotkey_rules.specs.WellFormed.{is_trigger};
ghost use Rattle.screen_config.specs.AddingHotkeys.{AddsHotkey};
ghost use Rattle.screen_config.specs.SoundHotkeys.{is_action_among};
ghost use Rattle.screen_config.specs.Configurations as spec;
ghost use Rattle.screen_config.specs.Configurations.{nothing, screen_of, screen_place, alias_place};
ghost use Rattle.screen_config.specs.Configurations.{with_screen, with_alias, with_global};
ghost use Rattle.screen_config.specs.Configurations.{with_own};
ghost use Rattle.screen_config.specs.Sound.{IsSound, is_end};

use crate::by_name::ByName;
use crate::hotkeys::{Hotkeys, HotkeysFault};
use crate::screens::{Alias, Screen};
use hotkey_rules::{Action, Rules, Trigger};
use option_table::{OptionName, Settings};
use screen_links::{Link, LinkFault, Links};
use share_base::{MOST_SCREENS, OutOfMemory, ScreenName, ScreenNo};
use std::alloc::Global;
use std::marker::Model;

/// How many aliases there are at most.
pub const MOST_ALIASES: usize = 256;

/// A configuration: its screens with their own options, their aliases and links, the options for
/// all screens, and the hotkeys. It is made by `parse` alone. Contracts see a `Configuration`.
#[derive(Debug, Drop)]
pub struct Config {
    alloc: Global,
    pub(crate) screens: ByName<Screen>,
    aliases: ByName<Alias>,
    pub(crate) links: Links,
    pub(crate) settings: Settings,
    hotkeys: Hotkeys,
}

impl Model for Config {
    ghost use Rattle.screen_config.specs.Configurations.{Configuration};
    ghost use Rattle.screen_config.specs.Sound.{IsSound};

    ghost Value = { Configuration };

    ghost view = { λ c. record {
      screens = c.screens;
      aliases = c.aliases;
      links = c.links;
      settings = c.settings;
      hotkeys = c.hotkeys;
    } };

    ghost invariant = { λ c. IsSound (record {
      screens = c.screens;
      aliases = c.aliases;
      links = c.links;
      settings = c.settings;
      hotkeys = c.hotkeys;
    }) };
}

fn screen_of_alias(aliases: &ByName<Alias>, name: &[u8]) -> Option<u16>
    ensures { result ≡ alias_place aliases.now name.now }
{
    match aliases.index_of(name) {
        Some(index) => Some(aliases.as_slice()[index].screen),
        None => None,
    }
}

impl Config {
    /// Holds nothing.
    pub fn new(alloc: Global) -> Config
        ensures { result ≡ nothing }
    {
        Config {
            alloc,
            screens: ByName::new(alloc),
            aliases: ByName::new(alloc),
            links: Links::new(alloc),
            settings: Settings::new(),
            hotkeys: Hotkeys::new(alloc),
        }
    }

    /// How many screens there are, at most 64. Their numbers are those below. Every configuration
    /// is sound: each number of a screen in it is one of them, its names are names of which no two
    /// are the same, its options are set where they may stand, to values that suit them, its links
    /// are apart, and a text can spell its hotkeys.
    pub fn count(&self) -> u16
        ensures count { result ≡ length self.now.screens }
        ensures bound { length self.now.screens ≤ MOST_SCREENS }
        ensures sound { IsSound self.now }
    {
        self.screens.as_slice().len() as u16
    }

    /// The hotkeys, in the order of the text: at most 256, with 4,096 actions. Each can be spelled
    /// by a text, each screen's number in them is below `count`, and the button of a key is 0xF000
    /// and the key's place among the keys of actions. It takes no memory.
    pub fn rules(&self) -> &Rules
        ensures { result.now ≡ self.now.hotkeys }
    {
        self.hotkeys.rules()
    }

    /// The screen of that name or alias, in capital or small letters. `None` if none has it. It
    /// takes no memory.
    #[tactic(auto, unfolding(crate::specs::Configurations::screen_of))]
    pub fn find(&self, name: &[u8]) -> Option<ScreenNo>
        ensures found { option_map (λ n. n.0) result ≡ screen_of self.now name.now }
        ensures known { IfSome result (λ n. n.0 < length self.now.screens) }
    {
        if let Some(index) = self.screens.index_of(name) {
            return Some(ScreenNo(index as u16));
        }
        match screen_of_alias(&self.aliases, name) {
            Some(screen) => Some(ScreenNo(screen)),
            None => None,
        }
    }

    /// Does nothing. Its contract says what every configuration keeps.
    pub fn assure_sound(&self)
        ensures { IsSound self.now }
    {
        let _ = &self.screens;
    }

    /// The allocator from which it takes its memory.
    pub fn alloc(&self) -> Global {
        self.alloc
    }

    /// The screens, in the order of the text. A screen's number is its index.
    pub fn screens(&self) -> &[Screen]
        ensures screens { result.now ≡ self.now.screens }
        ensures sound { IsSound self.now }
    {
        self.screens.as_slice()
    }

    /// The aliases, in the order of the text, at most 256.
    pub fn aliases(&self) -> &[Alias]
        ensures { result.now ≡ self.now.aliases }
    {
        self.aliases.as_slice()
    }

    /// The options that are set for all screens.
    pub fn settings(&self) -> &Settings
        ensures { result.now ≡ self.now.settings }
    {
        &self.settings
    }

    /// A further screen, which has the number `count`. No screen or alias has its name.
    pub fn add_screen(&mut self, name: ScreenName) -> Result<(), OutOfMemory>
        requires room { length self.old.screens < MOST_SCREENS }
        requires named { is_name name ≡ true }
        requires unknown { screen_of self.old name ≡ None }
        ensures ok { OnOk result (self.new ≡ with_screen self.old name) }
        ensures err { OnErr result (self.new ≡ self.old) }
    {
        self.screens.push(Screen {
            name,
            settings: Settings::new(),
        })
    }

    /// A further alias. No screen or alias has its name, and it isn't `end`, whose line closes a
    /// section.
    pub fn add_alias(&mut self, name: ScreenName, screen: u16) -> Result<(), OutOfMemory>
        requires room { length self.old.aliases < MOST_ALIASES }
        requires known { screen < length self.old.screens }
        requires named { is_name name ≡ true }
        requires no_end { is_end name ≡ false }
        requires unknown { screen_of self.old name ≡ None }
        ensures ok { OnOk result (self.new ≡ with_alias self.old name screen) }
        ensures err { OnErr result (self.new ≡ self.old) }
    {
        self.aliases.push(Alias { name, screen })
    }

    /// A further link.
    pub fn add_link(&mut self, link: Link) -> Result<(), LinkFault>
        requires leaves { link.from.0 < length self.old.screens }
        requires enters { link.to.0 < length self.old.screens }
        ensures links { Adds result self.old.links link self.new.links }
        ensures rest { self.new ≡ record self.old { links = self.new.links } }
    {
        self.links
            .add(link.from, link.side, link.range, link.to, link.onto)
    }

    /// A further hotkey, whose keys are given their buttons.
    pub fn add_hotkey(
        &mut self,
        trigger: Trigger,
        press: &[Action],
        release: &[Action],
    ) -> Result<(), HotkeysFault>
        requires trigger { is_trigger trigger ≡ true }
        requires press { list_all (is_action_among (length self.old.screens)) press.now ≡ true }
        requires release { list_all (is_action_among (length self.old.screens)) release.now ≡ true }
        ensures hotkeys { AddsHotkey result self.old.hotkeys trigger press.now release.now
            self.new.hotkeys }
        ensures rest { self.new ≡ record self.old { hotkeys = self.new.hotkeys } }
    {
        self.hotkeys.add(trigger, press, release)
    }

    /// Sets an option for all screens.
    pub fn set_global(&mut self, option: OptionName, value: u32)
        requires stands { stands_for_all (row_of option).scope ≡ true }
        requires suits { suits (row_of option).form value ≡ true }
        ensures { self.new ≡ with_global self.old option value }
    {
        self.settings.set(option, value);
    }

    /// Sets an option of one screen.
    #[tactic(auto, unfolding(crate::specs::Configurations::with_own))]
    pub fn set_own(&mut self, screen: u16, option: OptionName, value: u32)
        requires stands { stands_below_screen (row_of option).scope ≡ true }
        requires suits { suits (row_of option).form value ≡ true }
        requires known { screen < length self.old.screens }
        ensures set { self.new ≡ with_own self.old screen option value }
        ensures same_count { length self.new.screens ≡ length self.old.screens }
    {
        self.screens.set(screen as usize, option, value);
    }
}
