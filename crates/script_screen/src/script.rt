//! The script of a server: what its user does.

ghost use Rattle.std.specs.Prelude.{◌≡◌};
ghost use Rattle.script_screen.specs.Scripts.{IsScript};

use share_base::{Button, ClipId, KeyId, MouseButton, Octets, ScreenNo};
use std::marker::Model;

/// A line of a server script, in the order of the grammar's forms.
#[derive(Debug, Drop)]
pub enum ScriptLine {
    /// Holds the next line for that many milliseconds, 0 to 86,400,000.
    Sleep(u32),
    /// Holds the script until that screen has joined.
    Await(ScreenNo),
    /// A key goes down: its id, 1 to 65,535, and its button, 1 to 255, which is up.
    KeyDown {
        /// What the key means.
        id: KeyId,
        /// Which key it is.
        button: Button,
    },
    /// A key that is down repeats, 1 to 65,535 times.
    KeyRepeat {
        /// How often.
        count: u16,
        /// Which key it is.
        button: Button,
    },
    /// A key that is down goes up.
    KeyUp(Button),
    /// A mouse button, 1 to 255, which is up, goes down.
    ButtonDown(MouseButton),
    /// A mouse button that is down goes up.
    ButtonUp(MouseButton),
    /// The pointer moves by that many pixels.
    Motion {
        /// To the right; below 0 to the left.
        dx: i16,
        /// Down; below 0 up.
        dy: i16,
    },
    /// The wheel turns; a tick is 120.
    Wheel {
        /// To the right; below 0 to the left.
        x: i16,
        /// Up; below 0 down.
        y: i16,
    },
    /// The screen saver begins, or ends.
    Saver(bool),
    /// At most 4,194,304 bytes are copied to a clipboard.
    Copy {
        /// The clipboard.
        clip: ClipId,
        /// The bytes.
        bytes: Octets,
    },
    /// The server ends its connections and accepts no more.
    Quit,
}

/// The primary screen of a script, with its size in pixels, each 1 to 32,767.
#[derive(Clone, Copy, Debug, PartialEq, Eq)]
pub struct Primary {
    /// The screen.
    pub screen: ScreenNo,
    /// Its width.
    pub w: u16,
    /// Its height.
    pub h: u16,
}

/// What a line of a server script is: the primary screen, or one of the lines after it.
#[derive(Debug, Drop)]
pub(crate) enum ScriptItem {
    Primary(Primary),
    Line(ScriptLine),
}

/// The script of a server. It is made by `read_script` alone. Contracts see a `ScriptText`.
///
/// In every script the numbers are in their ranges, and the downs and ups of each button alternate.
#[derive(Debug, Drop)]
pub struct Script {
    pub(crate) primary: Primary,
    pub(crate) lines: Vec<ScriptLine>,
}

impl Model for Script {
    ghost use Rattle.script_screen.specs.Scripts.{ScriptText, IsScript};

    ghost Value = { ScriptText };

    ghost view = { λ s. record { primary = s.primary; lines = s.lines.items } };

    ghost invariant = { λ s. IsScript (record { primary = s.primary; lines = s.lines.items }) };
}

impl Script {
    /// The screen of the `primary` line.
    pub fn primary(&self) -> ScreenNo
        ensures { result ≡ self.now.primary.screen }
    {
        self.primary.screen
    }

    /// The width of the primary screen, in pixels.
    pub fn w(&self) -> u16
        ensures w { result ≡ self.now.primary.w }
        ensures sound { IsScript self.now }
    {
        self.primary.w
    }

    /// The height of the primary screen, in pixels.
    pub fn h(&self) -> u16
        ensures h { result ≡ self.now.primary.h }
        ensures sound { IsScript self.now }
    {
        self.primary.h
    }

    /// The lines after the first, in their order: at most 1,000,000.
    pub fn lines(&self) -> &[ScriptLine]
        ensures lines { result.now ≡ self.now.lines }
        ensures sound { IsScript self.now }
    {
        self.lines.as_slice()
    }
}
