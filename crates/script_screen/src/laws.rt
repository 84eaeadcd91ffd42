//! Laws of the texts. The call does nothing: its contract is the law.

ghost use Rattle.std.specs.Prelude.{ℕ, List};
ghost use Rattle.script_screen.specs.Screens.{KnownScreens};
ghost use Rattle.script_screen.specs.Verdicts.{HasOneVerdict, ScriptAccepts, ScriptRefuses};
ghost use Rattle.script_screen.specs.Verdicts.{ClientAccepts, ClientRefuses, TraceAccepts};
ghost use Rattle.script_screen.specs.Verdicts.{TraceRefuses};

/// Each text is accepted or refused as a server script, as a client script and as a trace, and not
/// both; and then with one value, or at one line for one reason.
pub fn each_text_has_one_verdict()
    ensures script { (config : KnownScreens) (text : List ℕ)
        → HasOneVerdict (ScriptAccepts config text) (ScriptRefuses config text) }
    ensures client { (text : List ℕ) → HasOneVerdict (ClientAccepts text) (ClientRefuses text) }
    ensures trace { (text : List ℕ) → HasOneVerdict (TraceAccepts text) (TraceRefuses text) }
{}
