//! What the script copied and is still to be sent.

ghost use Rattle.std.specs.Prelude.{◌≡◌, List, ℕ, Some, None};
ghost use Rattle.std.specs.Option.{option_map};
ghost use Rattle.std.specs.Borrow.{Bor};
ghost use Rattle.client_talk.specs.Copies.{no_copies, copy_of, with_copy};

use share_base::{ClipId, Octets};

/// The bytes of each clipboard that the script copied and that are still to be sent.
#[derive(Debug, Drop)]
pub struct Copies {
    clipboard: Option<Octets>,
    selection: Option<Octets>,
}

impl Copies {
    /// Nothing was copied.
    pub fn new() -> Copies
        ensures { result ≡ no_copies }
    {
        Copies {
            clipboard: None,
            selection: None,
        }
    }

    /// Keeps the copy of a clipboard, in place of an earlier one.
    pub fn keep(&mut self, clip: ClipId, bytes: Octets)
        ensures { self.new ≡ with_copy clip (Some bytes) self.old }
    {
        match clip {
            ClipId::Clipboard => self.clipboard = Some(bytes),
            ClipId::Selection => self.selection = Some(bytes),
        }
    }

    /// Forgets the copy of a clipboard, if there is one.
    pub fn forget(&mut self, clip: ClipId)
        ensures { self.new ≡ with_copy clip None self.old }
    {
        match clip {
            ClipId::Clipboard => self.clipboard = None,
            ClipId::Selection => self.selection = None,
        }
    }

    /// Lends the copy of a clipboard, if there is one.
    pub fn get(&self, clip: ClipId) -> Option<&[u8]>
        ensures { option_map (λ (b : Bor (List ℕ)). b.now) result ≡ copy_of clip self.now }
    {
        let copy = match clip {
            ClipId::Clipboard => &self.clipboard,
            ClipId::Selection => &self.selection,
        };
        match copy {
            Some(bytes) => Some(bytes.as_slice()),
            None => None,
        }
    }
}
