//! Laws of configurations. The calls do nothing: their contracts are the laws.

ghost use Rattle.std.specs.Prelude.{◌≡◌, ◌<◌, ℕ, List, true, Contains};
ghost use Rattle.screen_links.specs.declared.link.Link.{Link as OneLink};
ghost use Rattle.hotkey_rules.specs.declared.rule.Rule.{Rule as OneRule};
ghost use Rattle.screen_config.specs.ActionKeys.{action_keys, button_of, has_key, keys_of_rules};
ghost use Rattle.screen_config.specs.ActionKeys.{place_of};
ghost use Rattle.screen_config.specs.declared.action_keys.TheConstants.{MOST_ACTION_KEYS};
ghost use Rattle.screen_config.specs.Configurations.{Configuration};
ghost use Rattle.screen_config.specs.declared.screens.Alias.{Alias as OneAlias};
ghost use Rattle.screen_config.specs.Sound.{IsSound};
ghost use Rattle.screen_config.specs.SoundHotkeys.{AreHotkeys};
ghost use Rattle.screen_config.specs.Values.{aliases_in, links_on};

/// Each link of a configuration is in its value, among those of its side of its screen.
pub fn each_link_is_in_the_value()
    ensures { (config : Configuration) (link : OneLink) → IsSound config
        → Contains config.links link
        → Contains (links_on config link.from.0 link.side) link }
{}

/// Each alias of a configuration is in its value, among those of its screen.
pub fn each_alias_is_in_the_value()
    ensures { (config : Configuration) (alias : OneAlias) → Contains config.aliases alias
        → Contains (aliases_in config alias.screen) alias }
{}

/// Different keys of actions have different buttons. Their numbers follow the first appearances of
/// the keys over the whole text, and stay below 256.
pub fn action_keys_are_numbered()
    ensures apart { (hotkeys : List OneRule) (a b : ℕ) → has_key (keys_of_rules hotkeys) a ≡ true
        → has_key (keys_of_rules hotkeys) b ≡ true
        → button_of (action_keys hotkeys) a ≡ button_of (action_keys hotkeys) b → a ≡ b }
    ensures in_order { (hotkeys : List OneRule) (a b : ℕ)
        → place_of (keys_of_rules hotkeys) a < place_of (keys_of_rules hotkeys) b
        → place_of (action_keys hotkeys) a < place_of (action_keys hotkeys) b }
    ensures below { (count : ℕ) (hotkeys : List OneRule) (a : ℕ) → AreHotkeys count hotkeys
        → has_key (keys_of_rules hotkeys) a ≡ true
        → place_of (action_keys hotkeys) a < MOST_ACTION_KEYS }
{}
