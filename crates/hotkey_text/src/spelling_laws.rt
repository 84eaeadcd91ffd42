//! Laws that say in words, gaps and signs how a hotkey's line is spelled. The calls do nothing:
//! their contracts are the laws.

ghost use Rattle.std.specs.Prelude.{◌≡◌, ◌≤◌, ℕ, List, true, Ok, Err};
ghost use Rattle.text_lines.specs.Spelling.{StopsAt};
ghost use Rattle.hotkey_rules.specs.declared.trigger.Trigger.{Trigger};
ghost use Rattle.hotkey_text.specs.Shapes.{ActionForm, HotkeyForm, is_hotkey, hotkey_at};
ghost use Rattle.hotkey_text.specs.Arguments.{ActionText, trigger_of, action_of};
ghost use Rattle.hotkey_text.specs.Spelling.{BeginsHotkey, SpellsHotkey, IsHotkey};
ghost use Rattle.hotkey_text.specs.SpellingWords.{SpellsTrigger, SpellsWords};

/// A line is taken for a hotkey's if and only if it begins with one of the two words and a `(`.
pub fn hotkeys_begin_with_their_word()
    ensures begins { (xs : List ℕ) → is_hotkey xs ≡ true → BeginsHotkey xs }
    ensures taken { (xs : List ℕ) → BeginsHotkey xs → is_hotkey xs ≡ true }
{}

/// A line is read as a hotkey's if and only if it is spelled so.
pub fn hotkeys_are_spelled()
    ensures spelled { (xs : List ℕ) (line : HotkeyForm) → hotkey_at xs ≡ Ok line
        → SpellsHotkey xs line }
    ensures read { (xs : List ℕ) (line : HotkeyForm) → SpellsHotkey xs line
        → hotkey_at xs ≡ Ok line }
{}

/// If a line that is taken for a hotkey's isn't read as one, its bytes before that column begin a
/// hotkey's line, and with the byte in that column they don't.
pub fn hotkeys_stop_where_they_cannot_go_on()
    ensures { (xs : List ℕ) (left : ℕ) → is_hotkey xs ≡ true → hotkey_at xs ≡ Err left
        → StopsAt IsHotkey xs left }
{}

/// A trigger is read if and only if it is spelled.
pub fn triggers_are_spelled()
    ensures spelled { (line : HotkeyForm) (t : Trigger) → trigger_of line ≡ Ok t
        → SpellsTrigger line t }
    ensures read { (line : HotkeyForm) (t : Trigger) → SpellsTrigger line t
        → trigger_of line ≡ Ok t }
{}

/// The words of an action are read if and only if they are spelled.
pub fn actions_are_spelled()
    ensures spelled { (form : ActionForm) (text : ActionText) → action_of form ≡ Ok text
        → SpellsWords form text }
    ensures read { (form : ActionForm) (text : ActionText) → SpellsWords form text
        → action_of form ≡ Ok text }
{}
