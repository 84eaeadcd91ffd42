//! The messages.

use crate::clip_mark::ClipMark;
use share_base::{ClipId, Octets, Words32};

/// An end of a connection, which sends messages.
#[derive(Clone, Copy, Debug, PartialEq, Eq)]
pub enum End {
    /// The one that has the keyboard and the mouse.
    Server,
    /// The one that is entered and left.
    Client,
}

/// A message. Its fields stand in the order of its body.
#[derive(Debug, Drop)]
pub enum Msg {
    /// `Synergy`: the server names its version.
    Hello {
        /// The protocol's major version.
        major: u16,
        /// The protocol's minor version.
        minor: u16,
    },
    /// `Synergy`: the client names its version and its screen.
    HelloBack {
        /// The protocol's major version.
        major: u16,
        /// The protocol's minor version.
        minor: u16,
        /// The screen's name.
        name: Octets,
    },
    /// `QINF`: the server asks for the shape of the screen.
    QueryInfo,
    /// `CIAK`: the server has taken a screen information.
    InfoAck,
    /// `CROP`: all options go back to their defaults.
    ResetOptions,
    /// `CBYE`: the server closes the connection.
    Bye,
    /// `CINN`: the cursor enters the client's screen.
    Enter {
        /// The cursor's column, in pixels.
        x: i16,
        /// The cursor's row, in pixels.
        y: i16,
        /// The number of the entering.
        seq: u32,
        /// The toggles that are on, a bit each.
        mask: u16,
    },
    /// `COUT`: the cursor leaves the client's screen.
    Leave,
    /// `CSEC`: the screen saver begins or ends.
    Saver {
        /// 0 where it ends.
        on: u8,
    },
    /// `DSOP`: options are set.
    SetOptions {
        /// An option and its value in turn.
        words: Words32,
    },
    /// `DKDN`: a key goes down.
    KeyDown {
        /// What the key means.
        id: u16,
        /// The modifiers that are down and the toggles that are on, a bit each.
        mask: u16,
        /// Which key it is.
        button: u16,
    },
    /// `DKRP`: a key that is down repeats.
    KeyRepeat {
        /// What the key means.
        id: u16,
        /// The modifiers that are down and the toggles that are on, a bit each.
        mask: u16,
        /// How many times it repeats.
        count: u16,
        /// Which key it is.
        button: u16,
    },
    /// `DKUP`: a key goes up.
    KeyUp {
        /// What the key means.
        id: u16,
        /// The modifiers that are down and the toggles that are on, a bit each.
        mask: u16,
        /// Which key it is.
        button: u16,
    },
    /// `DMDN`: a button of the mouse goes down.
    ButtonDown {
        /// Which button: left 1, middle 2, right 3.
        b: u8,
    },
    /// `DMUP`: a button of the mouse goes up.
    ButtonUp {
        /// Which button: left 1, middle 2, right 3.
        b: u8,
    },
    /// `DMMV`: the cursor moves to a place.
    MoveTo {
        /// The cursor's column, in pixels.
        x: i16,
        /// The cursor's row, in pixels.
        y: i16,
    },
    /// `DMRM`: the cursor moves by a distance.
    MoveBy {
        /// Columns to the right, in pixels.
        dx: i16,
        /// Rows down, in pixels.
        dy: i16,
    },
    /// `DMWM`: the wheel turns.
    Wheel {
        /// To the right, 120 a tick.
        dx: i16,
        /// Up, 120 a tick.
        dy: i16,
    },
    /// `EICV`: the server refuses the version.
    BadVersion {
        /// The server's major version.
        major: u16,
        /// The server's minor version.
        minor: u16,
    },
    /// `EBSY`: a screen of that name is there already.
    Busy,
    /// `EUNK`: the server knows no screen of that name.
    Unknown,
    /// `EBAD`: the client sent a bad frame.
    Malformed,
    /// `CNOP`: nothing.
    Noop,
    /// `DINF`: the shape of the screen and the place of the cursor.
    Info {
        /// The screen's first column, in pixels.
        x: i16,
        /// The screen's first row, in pixels.
        y: i16,
        /// The screen's width, in pixels.
        w: u16,
        /// The screen's height, in pixels.
        h: u16,
        /// Obsolete.
        warp: u16,
        /// The cursor's column, in pixels.
        mx: i16,
        /// The cursor's row, in pixels.
        my: i16,
    },
    /// `CALV`: the sender is there.
    Alive,
    /// `CCLP`: the sender has a clipboard from now on.
    Grab {
        /// Which clipboard.
        clip: ClipId,
        /// The number of the latest entering; 0 from the server.
        seq: u32,
    },
    /// `DCLP`: a part of a clipboard.
    ClipPart {
        /// Which clipboard.
        clip: ClipId,
        /// The number of the latest entering; 0 from the server.
        seq: u32,
        /// Which part.
        mark: ClipMark,
        /// The part's bytes.
        bytes: Octets,
    },
    /// `DFTR`: a part of a file; it is read and dropped.
    FilePart {
        /// Which part, any number.
        mark: u8,
        /// The part's bytes.
        bytes: Octets,
    },
    /// `DDRG`: the names of files that are dragged; it is read and dropped.
    DragInfo {
        /// How many files.
        count: u16,
        /// Their names.
        bytes: Octets,
    },
}
