//! What the machine's events make of the inputs. The call does nothing: its contract is the law.

ghost use Rattle.std.specs.Prelude.{◌≡◌, ℕ};
ghost use Rattle.machine.specs.States.{State};
ghost use Rattle.machine.specs.Scripts as line;
ghost use Rattle.machine.specs.Events.{holding};
ghost use Rattle.machine.specs.Routes.{key_rule, button_rule};
ghost use Rattle.pressed_inputs.specs.Inputs.{inputs_of, after_key_down, after_key_up, after_button_down, after_button_up};

/// What the machine's script holds down after a line is what the step of that line makes of what it
/// held before.
pub fn events_are_kept()
    ensures key_down { (s : State) (id button : ℕ)
        → inputs_of (holding (line.KeyDown id button) s)
        ≡ after_key_down id button (key_rule s id) (inputs_of s) }
    ensures key_up { (s : State) (button : ℕ)
        → inputs_of (holding (line.KeyUp button) s) ≡ after_key_up button (inputs_of s) }
    ensures button_down { (s : State) (b : ℕ)
        → inputs_of (holding (line.ButtonDown b) s)
        ≡ after_button_down b (button_rule s b) (inputs_of s) }
    ensures button_up { (s : State) (b : ℕ)
        → inputs_of (holding (line.ButtonUp b) s) ≡ after_button_up b (inputs_of s) }
{}
