//! The buttons that a script's lines leave down.

ghost use Rattle.std.specs.Prelude.{◌≡◌, ◌++◌, ◌∷◌, [], List};
ghost use Rattle.script_screen.specs.declared.script.ScriptLine.{ScriptLine as Line};
ghost use Rattle.script_screen.specs.Holding.{IsHeldAfter};
ghost use Rattle.script_screen.specs.Scripts as spec;
ghost use Rattle.script_screen.specs.Scripts.{IsScriptLine, script_fault};

use crate::kinds::TextKind;
use crate::script::ScriptLine;

/// Which buttons of keys and of the mouse are down, each looked up at its number.
#[derive(Clone, Copy, Debug)]
pub(crate) struct Held {
    keys: [bool; 256],
    buttons: [bool; 256],
}

fn already_down(is_down: bool) -> Option<TextKind>
    ensures { result ≡ spec.if_down is_down }
{
    if is_down {
        Some(TextKind::AlreadyDown)
    } else {
        None
    }
}

fn not_down(is_down: bool) -> Option<TextKind>
    ensures { result ≡ spec.unless_down is_down }
{
    if is_down {
        None
    } else {
        Some(TextKind::NotDown)
    }
}

impl Held {
    /// Nothing is down.
    pub(crate) fn new() -> Held
        ensures { IsHeldAfter result [] }
    {
        Held {
            keys: [false; 256],
            buttons: [false; 256],
        }
    }

    /// What is wrong with one more line.
    pub(crate) fn fault(&self, line: &ScriptLine) -> Option<TextKind>
        requires { IsScriptLine line.now }
        ensures { (lines : List Line) → IsHeldAfter self.now lines
            → result ≡ script_fault lines line.now }
    {
        match line {
            ScriptLine::KeyDown { id: _, button } => already_down(self.keys[button.0 as usize]),
            ScriptLine::KeyRepeat { count: _, button } => not_down(self.keys[button.0 as usize]),
            ScriptLine::KeyUp(button) => not_down(self.keys[button.0 as usize]),
            ScriptLine::ButtonDown(button) => already_down(self.buttons[button.0 as usize]),
            ScriptLine::ButtonUp(button) => not_down(self.buttons[button.0 as usize]),
            _ => None,
        }
    }

    /// Goes on by one line.
    pub(crate) fn follow(&mut self, line: &ScriptLine)
        requires { IsScriptLine line.now }
        ensures { (lines : List Line) → IsHeldAfter self.old lines
            → IsHeldAfter self.new (lines ++ line.now ∷ []) }
    {
        match line {
            ScriptLine::KeyDown { id: _, button } => self.keys[button.0 as usize] = true,
            ScriptLine::KeyUp(button) => self.keys[button.0 as usize] = false,
            ScriptLine::ButtonDown(button) => self.buttons[button.0 as usize] = true,
            ScriptLine::ButtonUp(button) => self.buttons[button.0 as usize] = false,
            _ => {}
        }
    }
}
