//! What is kept of one clipboard.

ghost use Rattle.std.specs.Prelude.{◌≡◌, ◌<◌, ◌==◌, ◌&&◌, List, ℕ, false, nat_le, None};
ghost use Rattle.std.specs.Option.{option_map};
ghost use Rattle.std.specs.Borrow.{Bor};
ghost use Rattle.share_base.specs.Screens.{has};
ghost use Rattle.clip_chunks.specs.Clips.{Clip, is_dirty};
ghost use Rattle.clip_chunks.specs.Rules.{unknown, joined, left, entered};

use share_base::{Octets, ScreenNo, ScreenSet};

/// One clipboard: its owner, the sequence of the latest copy, grab or whole that counted, its bytes
/// where they are known, and the screens that are still to be sent them.
#[derive(Debug, Drop)]
pub(crate) struct Kept {
    owner: ScreenNo,
    seq: u32,
    bytes: Option<Octets>,
    dirty: ScreenSet,
    ghost clean: { bytes ≡ None → (k : ℕ) → has dirty k ≡ false },
}

impl Kept {
    ghost use Rattle.clip_chunks.specs.Books.{IsClip, IsKnown, Changes};

    /// Makes a clipboard whose bytes are unknown.
    pub(crate) fn unknown(owner: ScreenNo, seq: u32) -> Kept
        ensures { IsClip result (unknown owner.0 seq) }
    {
        Kept {
            owner,
            seq,
            bytes: None,
            dirty: ScreenSet::new(),
        }
    }

    /// Makes a clipboard whose bytes are known. Every joined screen but the owner is dirty.
    pub(crate) fn known(owner: ScreenNo, seq: u32, bytes: Octets, joined: &ScreenSet) -> Kept
        requires { owner.0 < 64 }
        ensures { IsKnown result owner.0 seq bytes joined.now }
    {
        let mut dirty = *joined;
        dirty.remove(owner);
        Kept {
            owner,
            seq,
            bytes: Some(bytes),
            dirty,
        }
    }

    /// Returns whether a sequence is at least the kept one and at most the machine's.
    pub(crate) fn is_current(&self, given: u32, machine: u32) -> bool
        ensures { result ≡ (nat_le self.now.seq given && nat_le given machine) }
    {
        self.seq <= given && given <= machine
    }

    /// Returns whether a screen owns it.
    pub(crate) fn is_owner(&self, no: ScreenNo) -> bool
        ensures { result ≡ (self.now.owner.0 == no.0) }
    {
        self.owner == no
    }

    /// Marks a screen that joined as dirty if the bytes are known.
    pub(crate) fn join(&mut self, no: ScreenNo)
        requires { no.0 < 64 }
        ensures { Changes self.old self.new (joined no.0) }
    {
        if self.bytes.is_some() {
            self.dirty.insert(no);
        }
    }

    /// Gives the clipboard to the primary if the screen that left owned it.
    pub(crate) fn leave(&mut self, no: ScreenNo, primary: ScreenNo)
        ensures { Changes self.old self.new (left primary.0 no.0) }
    {
        if self.owner == no {
            self.owner = primary;
        }
    }

    /// Makes a screen clean, and returns whether it was dirty.
    pub(crate) fn clean(&mut self, no: ScreenNo) -> bool
        requires { no.0 < 64 }
        ensures dirty { (c : Clip) → IsClip self.old c → result ≡ is_dirty no.0 c }
        ensures changes { Changes self.old self.new (entered no.0) }
    {
        let dirty = self.dirty.has(no);
        self.dirty.remove(no);
        dirty
    }

    /// Lends the bytes if they are known.
    pub(crate) fn bytes(&self) -> Option<&[u8]>
        ensures { option_map (λ (b : Bor (List ℕ)). b.now) result ≡ self.now.bytes }
    {
        match &self.bytes {
            Some(bytes) => Some(bytes.as_slice()),
            None => None,
        }
    }
}
