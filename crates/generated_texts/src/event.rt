//! What a user does, one event after another.

/// One event of a script. A key's button and a mouse button go down and up in turn, so their events
/// don't say which.
#[derive(Clone, Copy, Debug)]
pub(crate) enum Event {
    /// The mouse moves, in pixels: from -400 to 400 to the right, and from -200 to 200 down.
    Motion { dx: i16, dy: i16 },
    /// The wheel turns up by one tick.
    Wheel,
    /// A key's button, from 1 to 40, goes down or up.
    Key(u8),
    /// A mouse button, from 1 to 3, goes down or up.
    Button(u8),
    /// So many bytes, at most 64, are copied to the first clipboard.
    Copy(u8),
}
