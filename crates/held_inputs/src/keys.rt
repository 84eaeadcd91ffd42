//! The table of keys that are down.

ghost use Rattle.std.specs.Prelude.{◌≡◌, ◌≤◌, ◌<◌, [], length};
ghost use Rattle.held_inputs.specs.Table.{place, found, inserted, removed};

use arrayvec::ArrayVec;
use std::marker::Model;

/// How many keys a table has room for.
pub const MOST_KEYS: usize = 512;

/// A key that is down.
#[derive(Clone, Copy, Debug, Default, PartialEq, Eq)]
pub struct HeldKey {
    /// Which key it is.
    pub button: u16,
    /// What the key meant when it went down.
    pub id: u16,
}

/// The keys that are down, at most 512 of them, by rising button. Contracts see the list. No method
/// allocates.
#[derive(Drop)]
pub struct HeldKeys {
    slots: ArrayVec<HeldKey, MOST_KEYS>,
}

impl Model for HeldKeys {
    ghost use Rattle.std.specs.Prelude.{List};
    ghost use Rattle.held_inputs.specs.declared.keys.HeldKey.{HeldKey};

    ghost Value = { List HeldKey };

    ghost view = { λ h. h.slots.items };
}

impl HeldKeys {
    /// No key.
    pub fn new() -> HeldKeys
        ensures { result ≡ [] }
    {
        HeldKeys {
            slots: ArrayVec::new(),
        }
    }

    /// The keys, by rising button.
    pub fn as_slice(&self) -> &[HeldKey]
        ensures value { result.now ≡ self.now }
        ensures fits { length self.now ≤ MOST_KEYS }
    {
        self.slots.as_slice()
    }

    /// The id of the key at a button; `None` if it is up.
    pub fn id(&self, button: u16) -> Option<u16>
        ensures { result ≡ found self.now button }
    {
        let keys = self.slots.as_slice();
        let at = place_of(keys, button);
        if at >= keys.len() {
            return None;
        }
        let key = keys[at];
        if key.button == button {
            return Some(key.id);
        }
        None
    }

    /// Adds the key at a button at which none is held. There has to be room.
    pub fn insert(&mut self, button: u16, id: u16)
        requires { length self.old < MOST_KEYS }
        ensures { self.new ≡ inserted self.old button id }
    {
        let at = place_of(self.slots.as_slice(), button);
        self.slots.insert(at, HeldKey { button, id });
    }

    /// Takes the key at a button away. Where none is held there, nothing changes.
    pub fn remove(&mut self, button: u16)
        ensures { self.new ≡ removed self.old button }
    {
        let keys = self.slots.as_slice();
        let at = place_of(keys, button);
        if at >= keys.len() {
            return;
        }
        if keys[at].button != button {
            return;
        }
        self.slots.remove(at);
    }

    /// Takes all keys away.
    pub fn clear(&mut self)
        ensures { self.new ≡ [] }
    {
        self.slots.clear();
    }
}

/// How many keys come before a button.
fn place_of(keys: &[HeldKey], button: u16) -> usize
    ensures value { result ≡ place keys.now button }
    ensures within { result ≤ length keys.now }
{
    for (at, key) in keys.iter().enumerate() {
        if key.button >= button {
            return at;
        }
    }
    keys.len()
}
