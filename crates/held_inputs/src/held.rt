//! What is down: keys with their ids, and buttons of the mouse.

ghost use Rattle.std.specs.Prelude.{◌≡◌, ◌↔◌, ◌≤◌, ◌<◌, ◌+◌, ◌*◌, ◌++◌, [], false, length, map};
ghost use Rattle.std.specs.Prelude.{replicate, slice_index_or, slice_set, IsTrue};
ghost use Rattle.std.specs.List.{flat_map, AllByRecursion};
ghost use Rattle.held_inputs.specs.Line.{line_of};
ghost use Rattle.held_inputs.specs.Ranges.{Fits};
ghost use Rattle.held_inputs.specs.Down.{up_of};
ghost use Rattle.held_inputs.specs.Table.{found, inserted, removed, places};
ghost use Rattle.held_inputs.specs.Stands.{AllUp, release_text};
ghost use Rattle.held_inputs.specs.declared.line.Line.TheVariants.{ButtonUp};

use crate::keys::{HeldKey, HeldKeys, MOST_KEYS};
use crate::line::Line;
use crate::printing::put_line;
use share_base::Buffer;

/// The longest lines of a release, in bytes: 512 keys at 19 bytes and 256 mouse buttons at 16.
pub const LONGEST_RELEASE: usize = 13_824;

/// At most 512 keys and 256 mouse buttons that are down, in tables of fixed size. No method
/// allocates.
#[derive(Drop)]
pub struct Held {
    keys: HeldKeys,
    buttons: [bool; 256],
}

impl Held {
    /// Nothing is down.
    pub fn new() -> Held
        ensures keys { result.keys ≡ [] }
        ensures buttons { result.buttons ≡ replicate 256 false }
    {
        Held {
            keys: HeldKeys::new(),
            buttons: [false; 256],
        }
    }

    /// The id with which the key at a button went down; `None` if it is up.
    pub fn id(&self, button: u16) -> Option<u16>
        ensures { result ≡ found self.now.keys button }
    {
        self.keys.id(button)
    }

    /// Whether there is no room for another key.
    pub fn is_full(&self) -> bool
        ensures { IsTrue result ↔ (MOST_KEYS ≤ length self.now.keys) }
    {
        self.keys.as_slice().len() >= MOST_KEYS
    }

    /// A key that is up goes down. There has to be room.
    pub fn press(&mut self, button: u16, id: u16)
        requires { length self.old.keys < MOST_KEYS }
        ensures keys { self.new.keys ≡ inserted self.old.keys button id }
        ensures buttons { self.new.buttons ≡ self.old.buttons }
    {
        self.keys.insert(button, id);
    }

    /// The key at a button goes up.
    pub fn lift(&mut self, button: u16)
        ensures keys { self.new.keys ≡ removed self.old.keys button }
        ensures buttons { self.new.buttons ≡ self.old.buttons }
    {
        self.keys.remove(button);
    }

    /// Whether a mouse button is down.
    pub fn is_button_down(&self, b: u8) -> bool
        ensures { result ≡ slice_index_or self.now.buttons b false }
    {
        self.buttons[b as usize]
    }

    /// A mouse button goes down, or up.
    pub fn set_button(&mut self, b: u8, down: bool)
        ensures keys { self.new.keys ≡ self.old.keys }
        ensures buttons { self.new.buttons ≡ slice_set self.old.buttons b down }
        ensures known { b < length self.old.buttons }
    {
        self.buttons[b as usize] = down;
    }

    /// Whether nothing is down.
    pub fn is_clear(&self) -> bool
        ensures { IsTrue result ↔ AllUp self.now }
    {
        for down in &self.buttons {
            if *down {
                return false;
            }
        }
        self.keys.as_slice().is_empty()
    }

    /// Releases all that is down: the keys by rising button, then the mouse buttons by rising
    /// number. Their lines have to fit; `bound` says how long they are.
    pub fn release<B: Buffer>(&mut self, lines: &mut B)
        requires { length (B.content lines.old) + LONGEST_RELEASE ≤ B.capacity lines.old }
        ensures printed { B.content lines.new ≡ B.content lines.old ++ release_text self.old }
        ensures fits { AllByRecursion Fits (map up_of self.old.keys) }
        ensures few { length self.old.buttons ≤ 256 }
        ensures keys { self.new.keys ≡ [] }
        ensures buttons { self.new.buttons ≡ replicate 256 false }
        ensures bound { length (B.content lines.new)
            ≤ length (B.content lines.old) + LONGEST_RELEASE }
        ensures capacity { B.capacity lines.old ≤ B.capacity lines.new }
    {
        put_key_ups(lines, self.keys.as_slice());
        put_button_ups(lines, &self.buttons);
        self.keys.clear();
        self.buttons = [false; 256];
    }
}

/// The line by which a key goes up.
fn up_of(key: HeldKey) -> Line
    ensures is { result ≡ up_of key }
    ensures fits { Fits result }
{
    let HeldKey { button, id } = key;
    Line::KeyUp { id, button }
}

fn put_key_ups<B: Buffer>(lines: &mut B, keys: &[HeldKey])
    requires { length (B.content lines.old) + 19 * length keys.now ≤ B.capacity lines.old }
    ensures printed { B.content lines.new
        ≡ B.content lines.old ++ flat_map line_of (map up_of keys.now) }
    ensures fits { AllByRecursion Fits (map up_of keys.now) }
    ensures bound { length (B.content lines.new)
        ≤ length (B.content lines.old) + 19 * length keys.now }
    ensures capacity { B.capacity lines.old ≤ B.capacity lines.new }
{
    for key in keys {
        put_line(lines, up_of(*key));
    }
}

#[tactic(auto, unfolding(crate::specs::Table::places))]
fn put_button_ups<B: Buffer>(lines: &mut B, buttons: &[bool])
    requires few { length buttons.now ≤ 256 }
    requires room { length (B.content lines.old) + 16 * length buttons.now ≤ B.capacity lines.old }
    ensures printed { B.content lines.new ≡ B.content lines.old
        ++ flat_map line_of (map ButtonUp (places buttons.now (length buttons.now))) }
    ensures bound { length (B.content lines.new)
        ≤ length (B.content lines.old) + 16 * length buttons.now }
    ensures capacity { B.capacity lines.old ≤ B.capacity lines.new }
{
    for (b, down) in buttons.iter().enumerate() {
        if *down {
            put_line(lines, Line::ButtonUp { b: b as u8 });
        }
    }
}
