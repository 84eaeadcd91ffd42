//! The two clipboards.

ghost use Rattle.std.specs.Prelude.{◌≡◌, IfSome, IfNone};
ghost use Rattle.share_base.specs.declared.clip_id.ClipId.{ClipId as Clip};
ghost use Rattle.share_base.specs.Clips.{clip_number};

/// A clipboard.
#[derive(Clone, Copy, Debug, PartialEq, Eq)]
pub enum ClipId {
    /// What was copied, number 0.
    Clipboard,
    /// What was selected, number 1.
    Selection,
}

impl ClipId {
    /// Its number, 0 or 1.
    pub fn number(self) -> u8
        ensures { result ≡ clip_number self }
    {
        match self {
            ClipId::Clipboard => 0,
            ClipId::Selection => 1,
        }
    }

    /// The clipboard of a number; `None` above 1.
    pub fn of(number: u8) -> Option<ClipId>
        ensures found { IfSome result (λ clip. number ≡ clip_number clip) }
        ensures none { IfNone result ((clip : Clip) → number ≡ clip_number clip → ⊥) }
    {
        match number {
            0 => Some(ClipId::Clipboard),
            1 => Some(ClipId::Selection),
            _ => None,
        }
    }
}
