//! Laws on the faults of the words in a hotkey's line. The calls do nothing: their contracts are
//! the laws.

ghost use Rattle.std.specs.Prelude.{◌≡◌, ℕ, List, Bool};
ghost use Rattle.hotkey_text.specs.Shapes.{ActionForm, HotkeyForm};
ghost use Rattle.hotkey_text.specs.Arguments.{trigger_of, action_of};
ghost use Rattle.hotkey_text.specs.Spelling.{SpellsHotkey};
ghost use Rattle.hotkey_text.specs.FaultLists.{trigger_faults, action_faults, line_faults, first};
ghost use Rattle.hotkey_text.specs.FaultLists.{refusal_of, refusal_among, StandFromTheLeft};

/// A trigger, and the words of an action, are refused for the first of all their faults, and taken
/// where they have none. Which words of screens are known is for others to say: that fault stays
/// open where an action's words are read.
pub fn words_are_refused_for_their_first_fault()
    ensures trigger { (line : HotkeyForm)
        → refusal_of (trigger_of line) ≡ first (trigger_faults line) }
    ensures action { (known : List ℕ → Bool) (form : ActionForm)
        → refusal_among known (action_of form) ≡ first (action_faults known form) }
{}

/// The faults of a line's words stand from the left.
pub fn words_faults_stand_from_the_left()
    ensures { (known : List ℕ → Bool) (xs : List ℕ) (line : HotkeyForm) → SpellsHotkey xs line
        → StandFromTheLeft (line_faults known line) }
{}
