//! Bytes as hexadecimal digits.

ghost use Rattle.std.specs.Prelude.{◌≡◌, ◌<◌};
ghost use Rattle.share_base.specs.Hex as spec;

fn digit(number: u8) -> u8
    requires { number < 16 }
    ensures { result ≡ spec.hex_digit number }
{
    if number < 10 {
        b'0' + number
    } else {
        b'a' + (number - 10)
    }
}

/// The two digits of a byte, in lower case.
pub fn hex_pair(byte: u8) -> [u8; 2]
    ensures { result ≡ spec.hex_pair byte }
{
    [digit(byte / 16), digit(byte % 16)]
}
