//! The protocol's version, as a client speaks it.

ghost use Rattle.std.specs.Prelude.{◌≡◌};
ghost use Rattle.client_talk.specs.Answers as spec;

/// The protocol's major version.
pub const MAJOR: u16 = 1;

/// The protocol's minor version.
pub const MINOR: u16 = 6;

/// Tells whether a client joins a server of that version: one of the same major version whose minor
/// is the client's or a later one.
pub fn is_welcome(major: u16, minor: u16) -> bool
    ensures { result ≡ spec.is_welcome major minor }
{
    major == MAJOR && minor >= MINOR
}
