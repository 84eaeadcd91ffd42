//! Limits of framing.

/// How long the body of a frame may be, in bytes.
pub const BODY_LIMIT: u32 = 4_194_304;
