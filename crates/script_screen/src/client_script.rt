//! The script of a client: what the user of its own screen does.

ghost use Rattle.std.specs.Prelude.{◌≡◌, All};
ghost use Rattle.script_screen.specs.ClientScripts.{IsClientLine};

use share_base::{ClipId, Octets};
use std::marker::Model;

/// A line of a client script.
#[derive(Debug, Drop)]
pub enum ClientLine {
    /// Holds the next line for that many milliseconds, 0 to 86,400,000.
    Sleep(u32),
    /// At most 4,194,304 bytes are copied to a clipboard.
    Copy {
        /// The clipboard.
        clip: ClipId,
        /// The bytes.
        bytes: Octets,
    },
    /// The screen has a new size in pixels, each 1 to 32,767.
    Resize {
        /// Its width.
        w: u16,
        /// Its height.
        h: u16,
    },
}

/// The script of a client. It is made by `read_client_script` alone. Contracts see the list of its
/// lines. In every script the numbers are in their ranges.
#[derive(Debug, Drop)]
pub struct ClientScript {
    pub(crate) lines: Vec<ClientLine>,
}

impl Model for ClientScript {
    ghost use Rattle.std.specs.Prelude.{List, All};
    ghost use Rattle.script_screen.specs.declared.client_script.ClientLine.{ClientLine};
    ghost use Rattle.script_screen.specs.ClientScripts.{IsClientLine};

    ghost Value = { List ClientLine };

    ghost view = { λ s. s.lines.items };

    ghost invariant = { λ s. All IsClientLine s.lines.items };
}

impl ClientScript {
    /// The lines, in their order: at most 1,000,000.
    pub fn lines(&self) -> &[ClientLine]
        ensures lines { result.now ≡ self.now }
        ensures sound { All IsClientLine self.now }
    {
        self.lines.as_slice()
    }
}
