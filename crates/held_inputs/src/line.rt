//! The lines that a screen prints.

use share_base::{ClipId, Octets};

/// A printed line: what is injected into a screen, or what its clipboards are told.
/// `specs/Line.antt` has the text of each. Ids, buttons and masks are as they are injected, so
/// after the map of modifiers.
#[derive(Debug, Drop)]
pub enum Line {
    /// The cursor enters the screen.
    Enter {
        /// The cursor's column, in pixels.
        x: i16,
        /// The cursor's row, in pixels.
        y: i16,
        /// The number of the entering.
        seq: u32,
        /// The toggles that are on, a bit each.
        mask: u16,
    },
    /// The cursor leaves the screen.
    Leave,
    /// A key goes down.
    KeyDown {
        /// What the key means.
        id: u16,
        /// Which key it is.
        button: u16,
        /// The modifiers that are down, a bit each.
        mask: u16,
    },
    /// A key that is down is repeated.
    KeyRepeat {
        /// What the key meant when it went down.
        id: u16,
        /// How often.
        count: u16,
        /// Which key it is.
        button: u16,
        /// The modifiers that are down, a bit each.
        mask: u16,
    },
    /// A key goes up.
    KeyUp {
        /// What the key meant when it went down.
        id: u16,
        /// Which key it is.
        button: u16,
    },
    /// A button of the mouse goes down.
    ButtonDown {
        /// Which button: left 1, middle 2, right 3.
        b: u8,
    },
    /// A button of the mouse goes up.
    ButtonUp {
        /// Which button: left 1, middle 2, right 3.
        b: u8,
    },
    /// The cursor moves to a place.
    MoveTo {
        /// The cursor's column, in pixels.
        x: i16,
        /// The cursor's row, in pixels.
        y: i16,
    },
    /// The cursor moves by a distance.
    MoveBy {
        /// Columns to the right, in pixels.
        dx: i16,
        /// Rows down, in pixels.
        dy: i16,
    },
    /// The wheel turns. A tick is 120.
    Wheel {
        /// To the right.
        dx: i16,
        /// Up.
        dy: i16,
    },
    /// The screen saver starts.
    SaverOn,
    /// The screen saver stops.
    SaverOff,
    /// All options are forgotten.
    ResetOptions,
    /// An option is set.
    SetOption {
        /// Which option: the four letters of its code, big-endian.
        code: u32,
        /// Its value.
        value: u32,
    },
    /// A clipboard was taken by another screen.
    Grab {
        /// Which clipboard.
        clip: ClipId,
    },
    /// A clipboard's contents.
    Clip {
        /// Which clipboard.
        clip: ClipId,
        /// Its bytes.
        bytes: Octets,
    },
}
