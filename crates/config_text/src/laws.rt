//! Laws of the definitions by which a text is judged. The calls do nothing: their contracts are the
//! laws.

ghost use Rattle.std.specs.Prelude.{◌≡◌, ℕ, Bool, List, length, Ok, Err, Some, None};
ghost use Rattle.share_base.specs.declared.shape.Side.{Side};
ghost use Rattle.text_lines.specs.Reading.{Text};
ghost use Rattle.text_lines.specs.Spelling.{StopsAt};
ghost use Rattle.option_table.specs.declared.rows.Scope.{Scope};
ghost use Rattle.hotkey_text.specs.Shapes.{HotkeyForm};
ghost use Rattle.hotkey_text.specs.Spelling.{SpellsHotkey};
ghost use Rattle.screen_config.specs.Configurations.{Configuration};
ghost use Rattle.config_text.specs.Judging.{known_screen, new_screen, new_alias, new_link};
ghost use Rattle.config_text.specs.Judging.{new_setting};
ghost use Rattle.config_text.specs.FaultLists.{known_faults, screen_faults, alias_faults};
ghost use Rattle.config_text.specs.FaultLists.{link_faults, setting_faults, first, refusal_of};
ghost use Rattle.config_text.specs.FaultLists.{AreInOrder};
ghost use Rattle.config_text.specs.Hotkeys.{new_hotkey};
ghost use Rattle.config_text.specs.HotkeyFaults.{hotkey_faults};
ghost use Rattle.config_text.specs.HotkeyMeanings.{MeansHotkey};
ghost use Rattle.config_text.specs.Shapes.{SettingText, LinkText, section_at, header_at, alias_at};
ghost use Rattle.config_text.specs.Shapes.{link_at, setting_at};
ghost use Rattle.config_text.specs.Spelling.{SpellsSection, SpellsHeader, SpellsAlias};
ghost use Rattle.config_text.specs.Spelling.{SpellsSetting, IsSection, IsHeader, IsAlias};
ghost use Rattle.config_text.specs.Spelling.{IsSetting};
ghost use Rattle.config_text.specs.SpellingLinks.{SpellsLink, IsLink, side_first};

/// A line is read as `section: NAME` if and only if it is spelled so.
pub fn sections_are_spelled()
    ensures spelled { (xs : List ℕ) (name : Text) → section_at xs ≡ Ok name
        → SpellsSection xs name }
    ensures read { (xs : List ℕ) (name : Text) → SpellsSection xs name → section_at xs ≡ Ok name }
{}

/// A line is read as `NAME:` if and only if it is spelled so.
pub fn headers_are_spelled()
    ensures spelled { (xs : List ℕ) (name : Text) → header_at xs ≡ Ok name → SpellsHeader xs name }
    ensures read { (xs : List ℕ) (name : Text) → SpellsHeader xs name → header_at xs ≡ Ok name }
{}

/// A line is read as an alias if and only if it is spelled so.
pub fn aliases_are_spelled()
    ensures spelled { (xs : List ℕ) (name : Text) → alias_at xs ≡ Ok name → SpellsAlias xs name }
    ensures read { (xs : List ℕ) (name : Text) → SpellsAlias xs name → alias_at xs ≡ Ok name }
{}

/// A line is read as `SIDE[(a,b)] = NAME[(c,d)]` if and only if it is spelled so.
pub fn links_are_spelled()
    ensures spelled { (xs : List ℕ) (l : LinkText) → link_at xs ≡ Ok l → SpellsLink xs l }
    ensures read { (xs : List ℕ) (l : LinkText) → SpellsLink xs l → link_at xs ≡ Ok l }
{}

/// A line is read as `KEY = VALUE` if and only if it is spelled so.
pub fn settings_are_spelled()
    ensures spelled { (xs : List ℕ) (s : SettingText) → setting_at xs ≡ Ok s → SpellsSetting xs s }
    ensures read { (xs : List ℕ) (s : SettingText) → SpellsSetting xs s → setting_at xs ≡ Ok s }
{}

/// Where a line isn't read as one of a form, its bytes before that place begin a line of the form,
/// and with the byte that stands there they don't.
pub fn lines_stop_where_they_cannot_go_on()
    ensures section { (xs : List ℕ) (left : ℕ) → section_at xs ≡ Err left
        → StopsAt IsSection xs left }
    ensures header { (xs : List ℕ) (left : ℕ) → header_at xs ≡ Err left → StopsAt IsHeader xs left }
    ensures alias { (xs : List ℕ) (left : ℕ) → alias_at xs ≡ Err left → StopsAt IsAlias xs left }
    ensures setting { (xs : List ℕ) (left : ℕ) → setting_at xs ≡ Err left
        → StopsAt IsSetting xs left }
{}

/// A line whose first word is no side can't be a link from that word on. One whose first word is a
/// side stops to be a link as the other forms do.
pub fn links_stop_where_they_cannot_go_on()
    ensures no_side { (xs : List ℕ) → side_first xs ≡ None → link_at xs ≡ Err (length xs) }
    ensures side { (xs : List ℕ) (s : Side) (left : ℕ) → side_first xs ≡ Some s
        → link_at xs ≡ Err left → StopsAt IsLink xs left }
{}

/// A line is refused for the first of all faults of its words, and taken where they have none.
pub fn refused_for_the_first_fault()
    ensures known_screen { (c : Configuration) (name : Text)
        → refusal_of (known_screen c name) ≡ first (known_faults c name) }
    ensures new_screen { (whole : ℕ) (c : Configuration) (name : Text)
        → refusal_of (new_screen whole c name) ≡ first (screen_faults whole c name) }
    ensures new_alias { (whole : ℕ) (c : Configuration) (screen : ℕ) (name : Text)
        → refusal_of (new_alias whole c screen name) ≡ first (alias_faults whole c name) }
    ensures new_link { (whole : ℕ) (c : Configuration) (from : ℕ) (l : LinkText)
        → refusal_of (new_link whole c from l) ≡ first (link_faults whole c from l) }
    ensures new_setting { (stands : Scope → Bool) (s : SettingText)
        → refusal_of (new_setting stands s) ≡ first (setting_faults stands s) }
    ensures new_hotkey { (whole : ℕ) (c : Configuration) (line : HotkeyForm)
        → refusal_of (new_hotkey whole c line) ≡ first (hotkey_faults whole c line) }
{}

/// The faults of a line's words stand by class, and within a class from the left.
pub fn faults_stand_in_order()
    ensures known_screen { (c : Configuration) (name : Text) → AreInOrder (known_faults c name) }
    ensures new_screen { (whole : ℕ) (c : Configuration) (name : Text)
        → AreInOrder (screen_faults whole c name) }
    ensures new_alias { (whole : ℕ) (c : Configuration) (name : Text)
        → AreInOrder (alias_faults whole c name) }
    ensures new_link { (xs : List ℕ) (whole : ℕ) (c : Configuration) (from : ℕ) (l : LinkText)
        → SpellsLink xs l → AreInOrder (link_faults whole c from l) }
    ensures new_setting { (xs : List ℕ) (stands : Scope → Bool) (s : SettingText)
        → SpellsSetting xs s → AreInOrder (setting_faults stands s) }
    ensures new_hotkey { (xs : List ℕ) (whole : ℕ) (c : Configuration) (line : HotkeyForm)
        → SpellsHotkey xs line → AreInOrder (hotkey_faults whole c line) }
{}

/// A hotkey's line is taken if and only if it spells a trigger and actions of known screens that
/// are within the limits, and then it adds the rule that they mean.
pub fn hotkeys_mean_what_they_spell()
    ensures means { (whole : ℕ) (c more : Configuration) (line : HotkeyForm)
        → new_hotkey whole c line ≡ Ok more → MeansHotkey c line more }
    ensures taken { (whole : ℕ) (c more : Configuration) (line : HotkeyForm)
        → MeansHotkey c line more → new_hotkey whole c line ≡ Ok more }
{}
