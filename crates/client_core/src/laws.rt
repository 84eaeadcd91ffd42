//! Laws over all lists of happenings, on which other crates rest. The call does nothing: its
//! contract is the laws.

ghost use Rattle.std.specs.Prelude.{List, ℕ};
ghost use Rattle.script_screen.specs.declared.client_script.ClientLine.{ClientLine};
ghost use Rattle.client_core.specs.Happenings.{Happening, injecting, joining, run, TellsWholes};

/// Whatever happened to a client, those of its lines that tell the bytes of a clipboard are one for
/// each whole clipboard among the messages that it heard, in the order of their ends.
pub fn wholes_are_told()
    ensures injecting { (happenings : List Happening) → TellsWholes (run injecting happenings) }
    ensures joining { (name : List ℕ) (w h : ℕ) (script : List ClientLine) (now : ℕ)
        (happenings : List Happening)
        → TellsWholes (run (joining name w h script now) happenings) }
{}
