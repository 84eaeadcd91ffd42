//! The table of options, which reading, printing, defaults and the wire follow.

ghost use Rattle.std.specs.Prelude.{◌≡◌, ◌<◌, ◌≤◌, IfSome, length};
ghost use Rattle.std.specs.Int.{from_be_bytes, w32};
ghost use Rattle.option_table.specs.Table.{row_of, option_named};
ghost use Rattle.option_table.specs.Places.{place_of};
ghost use Rattle.option_table.specs.Views.{row_text};

/// An option, in the order of the table.
#[derive(Clone, Copy, Debug, PartialEq, Eq)]
pub enum OptionName {
    /// `halfDuplexCapsLock`
    HalfDuplexCapsLock,
    /// `halfDuplexNumLock`
    HalfDuplexNumLock,
    /// `halfDuplexScrollLock`
    HalfDuplexScrollLock,
    /// `shift`
    Shift,
    /// `ctrl`
    Ctrl,
    /// `alt`
    Alt,
    /// `meta`
    Meta,
    /// `super`
    SuperKey,
    /// `xtestIsXineramaUnaware`
    XtestIsXineramaUnaware,
    /// `preserveFocus`
    PreserveFocus,
    /// `heartbeat`
    Heartbeat,
    /// `switchDelay`
    SwitchDelay,
    /// `switchDoubleTap`
    SwitchDoubleTap,
    /// `switchCorners`
    SwitchCorners,
    /// `switchCornerSize`
    SwitchCornerSize,
    /// `relativeMouseMoves`
    RelativeMouseMoves,
    /// `clipboardSharing`
    ClipboardSharing,
    /// `clipboardSharingSize`
    ClipboardSharingSize,
    /// `screenSaverSync`
    ScreenSaverSync,
    /// `switchNeedsShift`
    SwitchNeedsShift,
    /// `switchNeedsControl`
    SwitchNeedsControl,
    /// `switchNeedsAlt`
    SwitchNeedsAlt,
    /// `win32KeepForeground`
    Win32KeepForeground,
    /// `disableLockToScreen`
    DisableLockToScreen,
    /// `defaultLockToScreenState`
    DefaultLockToScreenState,
    /// `protocol`
    Protocol,
}

/// All options, in the order of the table.
pub const OPTIONS: [OptionName; 26] = [
    OptionName::HalfDuplexCapsLock,
    OptionName::HalfDuplexNumLock,
    OptionName::HalfDuplexScrollLock,
    OptionName::Shift,
    OptionName::Ctrl,
    OptionName::Alt,
    OptionName::Meta,
    OptionName::SuperKey,
    OptionName::XtestIsXineramaUnaware,
    OptionName::PreserveFocus,
    OptionName::Heartbeat,
    OptionName::SwitchDelay,
    OptionName::SwitchDoubleTap,
    OptionName::SwitchCorners,
    OptionName::SwitchCornerSize,
    OptionName::RelativeMouseMoves,
    OptionName::ClipboardSharing,
    OptionName::ClipboardSharingSize,
    OptionName::ScreenSaverSync,
    OptionName::SwitchNeedsShift,
    OptionName::SwitchNeedsControl,
    OptionName::SwitchNeedsAlt,
    OptionName::Win32KeepForeground,
    OptionName::DisableLockToScreen,
    OptionName::DefaultLockToScreenState,
    OptionName::Protocol,
];

/// Where an option may stand.
#[derive(Clone, Copy, Debug, PartialEq, Eq)]
pub enum Scope {
    /// Below a screen's header.
    Screen,
    /// Among the options of all screens.
    Global,
    /// In either place. A screen's own value stands in place of that for all.
    Both,
}

/// The form of an option's value, which is kept as a number.
#[derive(Clone, Copy, Debug, PartialEq, Eq)]
pub enum ValueForm {
    /// `false` 0 or `true` 1.
    Flag,
    /// `none` 0, `shift` 1, `ctrl` 2, `alt` 3, `meta` 4 or `super` 5.
    Modifier,
    /// A set of corners: the sum of top-left 1, top-right 2, bottom-left 4 and bottom-right 8.
    Corners,
    /// A number from 0 to this one.
    UpTo(u32),
    /// `synergy` 0 or `barrier` 1.
    Protocol,
}

/// What the table says of an option.
#[derive(Clone, Copy, Debug)]
pub struct Row {
    /// The word before the `=`.
    pub key: &'static str,
    /// Where it may stand.
    pub scope: Scope,
    /// The form of its value.
    pub form: ValueForm,
    /// The value where the text sets none.
    pub default: u32,
    /// Its code on the wire, four letters as a big-endian number. Without one it is not sent.
    pub code: Option<u32>,
}

fn make_row(
    key: &'static str,
    scope: Scope,
    form: ValueForm,
    default: u32,
    code: Option<u32>,
) -> Row
    ensures { row_text result
        ≡ record { key = key.now; scope = scope; form = form; default = default; code = code } }
{
    Row {
        key,
        scope,
        form,
        default,
        code,
    }
}

fn code(letters: &[u8; 4]) -> u32
    ensures { result ≡ from_be_bytes w32 letters.now }
{
    u32::from_be_bytes(*letters)
}

impl OptionName {
    /// Its row.
    #[tactic(auto, unfolding(crate::specs::Table::row_of))]
    pub fn row(self) -> Row
        ensures { row_text result ≡ row_of self }
    {
        match self {
            OptionName::HalfDuplexCapsLock => make_row(
                "halfDuplexCapsLock",
                Scope::Screen,
                ValueForm::Flag,
                0,
                Some(code(b"HDCS")),
            ),
            OptionName::HalfDuplexNumLock => make_row(
                "halfDuplexNumLock",
                Scope::Screen,
                ValueForm::Flag,
                0,
                Some(code(b"HDNL")),
            ),
            OptionName::HalfDuplexScrollLock => make_row(
                "halfDuplexScrollLock",
                Scope::Screen,
                ValueForm::Flag,
                0,
                Some(code(b"HDSL")),
            ),
            OptionName::Shift => make_row(
                "shift",
                Scope::Screen,
                ValueForm::Modifier,
                1,
                Some(code(b"MMFS")),
            ),
            OptionName::Ctrl => make_row(
                "ctrl",
                Scope::Screen,
                ValueForm::Modifier,
                2,
                Some(code(b"MMFC")),
            ),
            OptionName::Alt => make_row(
                "alt",
                Scope::Screen,
                ValueForm::Modifier,
                3,
                Some(code(b"MMFA")),
            ),
            OptionName::Meta => make_row(
                "meta",
                Scope::Screen,
                ValueForm::Modifier,
                4,
                Some(code(b"MMFM")),
            ),
            OptionName::SuperKey => make_row(
                "super",
                Scope::Screen,
                ValueForm::Modifier,
                5,
                Some(code(b"MMFR")),
            ),
            OptionName::XtestIsXineramaUnaware => make_row(
                "xtestIsXineramaUnaware",
                Scope::Screen,
                ValueForm::Flag,
                1,
                None,
            ),
            OptionName::PreserveFocus => make_row(
                "preserveFocus",
                Scope::Screen,
                ValueForm::Flag,
                0,
                None,
            ),
            OptionName::Heartbeat => make_row(
                "heartbeat",
                Scope::Global,
                ValueForm::UpTo(3_600_000),
                3000,
                Some(code(b"HART")),
            ),
            OptionName::SwitchDelay => make_row(
                "switchDelay",
                Scope::Global,
                ValueForm::UpTo(60_000),
                0,
                Some(code(b"SSWT")),
            ),
            OptionName::SwitchDoubleTap => make_row(
                "switchDoubleTap",
                Scope::Global,
                ValueForm::UpTo(60_000),
                0,
                Some(code(b"SSTT")),
            ),
            OptionName::SwitchCorners => make_row(
                "switchCorners",
                Scope::Both,
                ValueForm::Corners,
                0,
                Some(code(b"SSCC")),
            ),
            OptionName::SwitchCornerSize => make_row(
                "switchCornerSize",
                Scope::Both,
                ValueForm::UpTo(32_767),
                0,
                Some(code(b"SSCS")),
            ),
            OptionName::RelativeMouseMoves => make_row(
                "relativeMouseMoves",
                Scope::Global,
                ValueForm::Flag,
                0,
                Some(code(b"MDLT")),
            ),
            OptionName::ClipboardSharing => make_row(
                "clipboardSharing",
                Scope::Global,
                ValueForm::Flag,
                1,
                Some(code(b"CLPS")),
            ),
            OptionName::ClipboardSharingSize => make_row(
                "clipboardSharingSize",
                Scope::Global,
                ValueForm::UpTo(4_096),
                3072,
                None,
            ),
            OptionName::ScreenSaverSync => make_row(
                "screenSaverSync",
                Scope::Global,
                ValueForm::Flag,
                1,
                None,
            ),
            OptionName::SwitchNeedsShift => make_row(
                "switchNeedsShift",
                Scope::Global,
                ValueForm::Flag,
                0,
                None,
            ),
            OptionName::SwitchNeedsControl => make_row(
                "switchNeedsControl",
                Scope::Global,
                ValueForm::Flag,
                0,
                None,
            ),
            OptionName::SwitchNeedsAlt => make_row(
                "switchNeedsAlt",
                Scope::Global,
                ValueForm::Flag,
                0,
                None,
            ),
            OptionName::Win32KeepForeground => make_row(
                "win32KeepForeground",
                Scope::Global,
                ValueForm::Flag,
                1,
                None,
            ),
            OptionName::DisableLockToScreen => make_row(
                "disableLockToScreen",
                Scope::Global,
                ValueForm::Flag,
                0,
                None,
            ),
            OptionName::DefaultLockToScreenState => make_row(
                "defaultLockToScreenState",
                Scope::Global,
                ValueForm::Flag,
                0,
                None,
            ),
            OptionName::Protocol => make_row(
                "protocol",
                Scope::Global,
                ValueForm::Protocol,
                0,
                None,
            ),
        }
    }

    /// The option of that key. `None` if no row has it.
    #[tactic(auto, unfolding(crate::specs::Table::option_named))]
    pub fn named(key: &[u8]) -> Option<OptionName>
        ensures { result ≡ option_named key.now }
    {
        OPTIONS
            .iter()
            .copied()
            .find(|option| option.row().key.as_bytes() == key)
    }

    /// Its place in the table, from 0.
    pub fn place(self) -> usize
        ensures place { result ≡ place_of self }
        ensures bound { result < 26 }
    {
        self as usize
    }
}
