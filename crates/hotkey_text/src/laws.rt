//! The law of printed hotkeys. The call does nothing: its contract is the law.

ghost use Rattle.std.specs.Prelude.{◌≡◌, ℕ, List, true};
ghost use Rattle.std.specs.List.{list_all};
ghost use Rattle.hotkey_rules.specs.declared.action.Action.{Action as OneAction};
ghost use Rattle.hotkey_rules.specs.declared.trigger.Trigger.{Trigger as OneTrigger};
ghost use Rattle.hotkey_rules.specs.WellFormed.{is_trigger};
ghost use Rattle.hotkey_text.specs.Printed.{trigger_text, hotkey_text};
ghost use Rattle.hotkey_text.specs.RoundTrip.{is_spelled, texts_of, ReadsAs};

/// The line that is printed of a hotkey is read as one of that trigger and of those actions, if the
/// name of each screen may stand in a line.
pub fn printed_hotkeys_are_read()
    ensures { (t : OneTrigger) (screen : OneAction → List ℕ) (press release : List OneAction)
        → is_trigger t ≡ true
        → list_all (λ a. is_spelled a (screen a)) press ≡ true
        → list_all (λ a. is_spelled a (screen a)) release ≡ true
        → ReadsAs (hotkey_text (trigger_text t) (texts_of screen press) (texts_of screen release))
        screen t press release }
{}
