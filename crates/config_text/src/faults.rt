//! Why a text is refused.

ghost use Rattle.std.specs.Prelude.{◌≡◌};
ghost use Rattle.config_text.specs.Kinds.{kind_text};

use share_base::OutOfMemory;
use thiserror::Error;

/// What is wrong with a line. On one line the kinds are looked for in this order: `BadLine`,
/// `BadName`, the others, `BadRange`, `Overlap`, `TooMany`; of two in one of these classes the one
/// further to the left comes.
#[derive(Clone, Copy, Debug, PartialEq, Eq)]
pub enum ConfigKind {
    /// The line's form can't go on there.
    BadLine,
    /// No section has that name.
    UnknownSection,
    /// The section that the line opens is open at the end of the text.
    UnclosedSection,
    /// The word is no name of a screen.
    BadName,
    /// A new screen's name is that of a screen or an alias.
    DuplicateScreen,
    /// A new alias is a screen or an alias.
    DuplicateAlias,
    /// No line above names such a screen or alias.
    UnknownScreen,
    /// `a < b <= 100` doesn't hold of a range.
    BadRange,
    /// A link of the same side of the same screen has a part of the range.
    Overlap,
    /// No option has that key, or it doesn't belong into the section.
    UnknownOption,
    /// The value isn't one of the option's form, or a word of a hotkey isn't one that stands there;
    /// or a hotkey has no action and no `;`.
    BadValue,
    /// No key has that name; or the key of a hotkey is a modifier.
    UnknownKey,
    /// No action has that name.
    UnknownAction,
    /// The line passes a limit: 64 screens, 256 aliases, 1,024 links, 256 hotkeys, 256 keys of
    /// actions, 4,096 actions.
    TooMany,
}

impl ConfigKind {
    /// The word that it is printed as.
    pub fn text(self) -> &'static [u8]
        ensures { result.now ≡ kind_text self }
    {
        match self {
            ConfigKind::BadLine => b"BadLine",
            ConfigKind::UnknownSection => b"UnknownSection",
            ConfigKind::UnclosedSection => b"UnclosedSection",
            ConfigKind::BadName => b"BadName",
            ConfigKind::DuplicateScreen => b"DuplicateScreen",
            ConfigKind::DuplicateAlias => b"DuplicateAlias",
            ConfigKind::UnknownScreen => b"UnknownScreen",
            ConfigKind::BadRange => b"BadRange",
            ConfigKind::Overlap => b"Overlap",
            ConfigKind::UnknownOption => b"UnknownOption",
            ConfigKind::BadValue => b"BadValue",
            ConfigKind::UnknownKey => b"UnknownKey",
            ConfigKind::UnknownAction => b"UnknownAction",
            ConfigKind::TooMany => b"TooMany",
        }
    }
}

/// Where and why a text is refused. Lines and columns count from 1, in bytes.
#[derive(Clone, Copy, Debug, PartialEq, Eq)]
pub struct ConfigRefusal {
    /// The line.
    pub line: u32,
    /// The place in the line, or one past its last byte that isn't blank.
    pub column: u32,
    /// What is wrong there.
    pub kind: ConfigKind,
}

/// Why there is no configuration.
#[derive(Clone, Copy, Debug, PartialEq, Eq, Error)]
pub enum ConfigFault {
    /// The text is none.
    #[error("the configuration is refused")]
    Refused(ConfigRefusal),
    /// Memory could not be had.
    #[error("out of memory")]
    OutOfMemory,
}

/// A fault of a line, with how many of its bytes were left where it stands.
#[derive(Clone, Copy, Debug, PartialEq, Eq)]
pub(crate) struct Fault {
    pub kind: ConfigKind,
    pub left: usize,
}

/// Why a line was not taken.
#[derive(Clone, Copy, Debug, PartialEq, Eq)]
pub(crate) enum LineFault {
    Refused(Fault),
    OutOfMemory,
}

impl From<OutOfMemory> for LineFault {
    ghost use Rattle.std.specs.Prelude.{◌≡◌};
    ghost use Rattle.config_text.specs.declared.faults.LineFault.TheVariants as fault;

    ghost from_gives = { λ _ e. e ≡ fault.OutOfMemory };

    fn from(_error: OutOfMemory) -> LineFault {
        LineFault::OutOfMemory
    }
}
