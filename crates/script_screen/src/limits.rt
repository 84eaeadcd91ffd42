//! Limits of scripts and traces.

/// How many lines a text may have, empty ones among them.
pub const MAX_LINES: u32 = 1_000_000;

/// How long a script may sleep, in milliseconds: a day.
pub const MAX_SLEEP: u32 = 86_400_000;

/// The greatest number of a key or a button: keys 1 to 255, mouse buttons 1 to 255.
pub const MAX_BUTTON: u8 = 255;

/// The greatest width and height of a screen, in pixels.
pub const MAX_SIZE: u16 = 32_767;

/// How many bytes a `copy` line may have.
pub const MAX_COPY: usize = 4_194_304;
