//! The buttons that a script's events leave down.

ghost use Rattle.std.specs.Prelude.{◌≡◌, ◌++◌, ◌∷◌, [], List, ◌≤◌};
ghost use Rattle.generated_texts.specs.declared.event.Event.{Event as AnEvent};
ghost use Rattle.generated_texts.specs.Events.{IsEvent};
ghost use Rattle.generated_texts.specs.Holding.{IsDownAfter};
ghost use Rattle.generated_texts.specs.Lines as spec;

use crate::event::Event;

/// Which buttons of keys and of the mouse are down, each looked up at its number.
#[derive(Clone, Copy, Debug)]
pub(crate) struct Down {
    keys: [bool; 41],
    buttons: [bool; 4],
}

impl Down {
    /// Nothing is down.
    pub(crate) fn new() -> Down
        ensures { IsDownAfter result [] }
    {
        Down {
            keys: [false; 41],
            buttons: [false; 4],
        }
    }

    /// Whether a key's button is down.
    pub(crate) fn key(&self, button: u8) -> bool
        requires { button ≤ 40 }
        ensures { (events : List AnEvent) → IsDownAfter self.now events
            → result ≡ spec.is_key_down events button }
    {
        self.keys[button as usize]
    }

    /// Whether a mouse button is down.
    pub(crate) fn button(&self, button: u8) -> bool
        requires { button ≤ 3 }
        ensures { (events : List AnEvent) → IsDownAfter self.now events
            → result ≡ spec.is_button_down events button }
    {
        self.buttons[button as usize]
    }

    /// Goes on by one event.
    pub(crate) fn follow(&mut self, event: Event)
        requires { IsEvent event }
        ensures { (events : List AnEvent) → IsDownAfter self.old events
            → IsDownAfter self.new (events ++ event ∷ []) }
    {
        match event {
            Event::Key(button) => {
                self.keys[button as usize] = !self.keys[button as usize];
            }
            Event::Button(button) => {
                self.buttons[button as usize] = !self.buttons[button as usize];
            }
            _ => {}
        }
    }
}
