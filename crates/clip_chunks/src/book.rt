//! Who owns which clipboard, and who is still to be sent it.

ghost use Rattle.std.specs.Prelude.{◌≡◌, ◌≤◌, ◌<◌, List, ℕ, false, IfOk, OnOk, OnErr, length};
ghost use Rattle.std.specs.Borrow.{sem};
ghost use Rattle.clip_chunks.specs.Clips.{Clips, clip_of};
ghost use Rattle.clip_chunks.specs.Rules.{copy_counts, first_clips};
ghost use Rattle.clip_chunks.specs.Calls.{Copied, Grabbed, Sent, Joined, Left, Entered};

use crate::kept::Kept;
use share_base::{ClipId, Octets, OutOfMemory, ScreenNo, ScreenSet};
use std::alloc::Global;

/// Both clipboards: who owns each, the sequence of the latest copy, grab or whole that counted, the
/// bytes where they are known, and the dirty screens, which are still to be sent them. Screens have
/// numbers below 64. Only `copied` and `whole` allocate.
#[derive(Drop)]
pub struct ClipBook {
    alloc: Global,
    primary: ScreenNo,
    limit: u32,
    clipboard: Kept,
    selection: Kept,
    ghost small: { primary.0 < 64 },
}

impl ClipBook {
    ghost use Rattle.clip_chunks.specs.Books.{StandsAt, Follows, FollowsWith, GrabAnswer};
    ghost use Rattle.clip_chunks.specs.Books.{WholeAnswer, WasDirty, Gives, RestsAfter, kept_of};
    ghost use Rattle.clip_chunks.specs.Books.{with_kept};

    /// Makes both clipboards the primary's, with sequence 0 and unknown bytes. A copy may have at
    /// most `limit` bytes, which are at most 4,194,304.
    pub fn new(alloc: Global, primary: ScreenNo, limit: u32) -> ClipBook
        requires screen { primary.0 < 64 }
        requires limit { limit ≤ 4194304 }
        ensures primary { result.primary ≡ primary }
        ensures limit { result.limit ≡ limit }
        ensures stands { StandsAt result (first_clips primary.0) }
    {
        ClipBook {
            alloc,
            primary,
            limit,
            clipboard: Kept::unknown(primary, 0),
            selection: Kept::unknown(primary, 0),
        }
    }

    /// Takes a copy that the primary made, at the machine's sequence and with these screens joined:
    /// the primary owns the clipboard, its bytes are known, and every other joined screen is dirty.
    /// Returns whether the copy counts, which it does unless it has more bytes than the limit. If
    /// it doesn't, or on `OutOfMemory`, nothing changes.
    pub fn copied(
        &mut self,
        clip: ClipId,
        bytes: &[u8],
        machine: u32,
        joined: &ScreenSet,
    ) -> Result<bool, OutOfMemory>
        ensures counts { IfOk result (λ is. is ≡ copy_counts self.old.limit bytes.now) }
        ensures follows { OnOk result (FollowsWith joined.now self.old self.new
            (Copied clip bytes.now machine)) }
        ensures unchanged { IfOk result (λ is. is ≡ false → self.new ≡ self.old) }
        ensures err { OnErr result (self.new ≡ self.old) }
    {
        if bytes.len() > self.limit as usize {
            return Ok(false);
        }
        let mut known = Octets::new(self.alloc);
        known.extend(bytes)?;
        let primary = self.primary;
        self.put(clip, Kept::known(primary, machine, known, joined));
        Ok(true)
    }

    /// Takes a grab by a client's screen, with the sequence of its message: the screen owns the
    /// clipboard, its bytes are unknown, and no screen is dirty. Returns whether the grab counts,
    /// which it does if its sequence is at least the kept one and at most the machine's. If it
    /// doesn't, nothing changes.
    pub fn grabbed(&mut self, clip: ClipId, by: ScreenNo, given: u32, machine: u32) -> bool
        ensures counts { GrabAnswer self.old clip given machine result }
        ensures follows { Follows self.old self.new (Grabbed clip by.0 given machine) }
        ensures unchanged { result ≡ false → self.new ≡ self.old }
    {
        if !self.kept(clip).is_current(given, machine) {
            return false;
        }
        self.put(clip, Kept::unknown(by, given));
        true
    }

    /// Takes a whole clipboard of at most 4,194,304 bytes from a client's screen, with the sequence
    /// of its messages and with these screens joined: its bytes are known, and every joined screen
    /// but that one is dirty. Returns whether it counts, which it does if the screen is the owner
    /// and the sequence is at least the kept one and at most the machine's. If it doesn't, or on
    /// `OutOfMemory`, nothing changes.
    pub fn whole(
        &mut self,
        clip: ClipId,
        by: ScreenNo,
        given: u32,
        machine: u32,
        bytes: &[u8],
        joined: &ScreenSet,
    ) -> Result<bool, OutOfMemory>
        requires screen { by.0 < 64 }
        requires short { length bytes.now ≤ 4194304 }
        ensures counts { IfOk result (λ is. WholeAnswer self.old clip by.0 given machine is) }
        ensures follows { OnOk result (FollowsWith joined.now self.old self.new
            (Sent clip by.0 given machine bytes.now)) }
        ensures unchanged { IfOk result (λ is. is ≡ false → self.new ≡ self.old) }
        ensures err { OnErr result (self.new ≡ self.old) }
    {
        let kept = self.kept(clip);
        if !kept.is_owner(by) || !kept.is_current(given, machine) {
            return Ok(false);
        }
        let mut known = Octets::new(self.alloc);
        known.extend(bytes)?;
        self.put(clip, Kept::known(by, given, known, joined));
        Ok(true)
    }

    /// Marks a screen that joined as dirty for each clipboard whose bytes are known.
    pub fn joined(&mut self, no: ScreenNo)
        requires { no.0 < 64 }
        ensures { Follows self.old self.new (Joined no.0) }
    {
        self.clipboard.join(no);
        self.selection.join(no);
    }

    /// Gives what a screen that left owned to the primary, with bytes, sequence and dirty screens
    /// unchanged.
    pub fn left(&mut self, no: ScreenNo)
        ensures { Follows self.old self.new (Left no.0) }
    {
        let primary = self.primary;
        self.clipboard.leave(no, primary);
        self.selection.leave(no, primary);
    }

    /// Lends the known bytes to a dirty screen that was entered, and makes it clean. `None` if it
    /// isn't dirty.
    pub fn entered(&mut self, clip: ClipId, no: ScreenNo) -> Option<&[u8]>
        requires { no.0 < 64 }
        ensures gives { Gives self.old clip no.0 result }
        ensures* rests { sem 𝓛 (RestsAfter self.entry clip no.0) }
    {
        if !self.clean(clip, no) {
            return None;
        }
        self.kept(clip).bytes()
    }

    fn clean(&mut self, clip: ClipId, no: ScreenNo) -> bool
        requires { no.0 < 64 }
        ensures dirty { WasDirty self.old clip no.0 result }
        ensures follows { Follows self.old self.new (Entered clip no.0) }
    {
        match clip {
            ClipId::Clipboard => self.clipboard.clean(no),
            ClipId::Selection => self.selection.clean(no),
        }
    }

    fn kept(&self, clip: ClipId) -> &Kept
        ensures { result.now ≡ kept_of clip self.now }
    {
        match clip {
            ClipId::Clipboard => &self.clipboard,
            ClipId::Selection => &self.selection,
        }
    }

    fn put(&mut self, clip: ClipId, kept: Kept)
        ensures { self.new ≡ with_kept clip kept self.old }
    {
        match clip {
            ClipId::Clipboard => self.clipboard = kept,
            ClipId::Selection => self.selection = kept,
        }
    }
}
