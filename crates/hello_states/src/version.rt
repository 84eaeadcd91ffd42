//! The protocol's version.

ghost use Rattle.std.specs.Prelude.{◌≡◌};
ghost use Rattle.hello_states.specs.Handshake as spec;

/// The protocol's major version.
pub const PROTOCOL_MAJOR: u16 = 1;

/// The protocol's minor version.
pub const PROTOCOL_MINOR: u16 = 6;

/// Tells whether a peer of that version is admitted.
pub(crate) fn is_admitted(major: u16, minor: u16) -> bool
    ensures { result ≡ spec.is_admitted major minor }
{
    major == PROTOCOL_MAJOR && minor == PROTOCOL_MINOR
}
