//! Printing numbers: decimal, without leading zeros, with `-` before a negative one.

ghost use Rattle.std.specs.Prelude.{◌≡◌, ◌+◌, ◌≤◌, ◌++◌, length};
ghost use Rattle.std.specs.Fmt.{decimal, signed_decimal};

use crate::buffer::Buffer;
use itoa::write_digits;

fn put_digits<B: Buffer>(out: &mut B, number: u64)
    requires { length (B.content out.old) + length (decimal number) ≤ B.capacity out.old }
    ensures printed { B.content out.new ≡ B.content out.old ++ decimal number }
    ensures capacity { B.capacity out.old ≤ B.capacity out.new }
{
    let mut digits = [0; 20];
    let start = write_digits(number, &mut digits, 20);
    out.extend(&digits[start..]);
}

/// Appends a number of eight bytes, in at most 20 digits, which have to fit.
pub fn put_u64<B: Buffer>(out: &mut B, number: u64)
    requires { length (B.content out.old) + 20 ≤ B.capacity out.old }
    ensures printed { B.content out.new ≡ B.content out.old ++ decimal number }
    ensures bound { length (B.content out.new) ≤ length (B.content out.old) + 20 }
    ensures capacity { B.capacity out.old ≤ B.capacity out.new }
{
    put_digits(out, number);
}

/// Appends a number of four bytes, in at most 10 digits, which have to fit.
pub fn put_u32<B: Buffer>(out: &mut B, number: u32)
    requires { length (B.content out.old) + 10 ≤ B.capacity out.old }
    ensures printed { B.content out.new ≡ B.content out.old ++ decimal number }
    ensures bound { length (B.content out.new) ≤ length (B.content out.old) + 10 }
    ensures capacity { B.capacity out.old ≤ B.capacity out.new }
{
    put_digits(out, number as u64);
}

/// Appends a number of two bytes, in at most 5 digits, which have to fit.
pub fn put_u16<B: Buffer>(out: &mut B, number: u16)
    requires { length (B.content out.old) + 5 ≤ B.capacity out.old }
    ensures printed { B.content out.new ≡ B.content out.old ++ decimal number }
    ensures bound { length (B.content out.new) ≤ length (B.content out.old) + 5 }
    ensures capacity { B.capacity out.old ≤ B.capacity out.new }
{
    put_digits(out, number as u64);
}

/// Appends a signed number of two bytes, in at most 6 characters, which have to fit.
pub fn put_i16<B: Buffer>(out: &mut B, number: i16)
    requires { length (B.content out.old) + 6 ≤ B.capacity out.old }
    ensures printed { B.content out.new ≡ B.content out.old ++ signed_decimal number }
    ensures bound { length (B.content out.new) ≤ length (B.content out.old) + 6 }
    ensures capacity { B.capacity out.old ≤ B.capacity out.new }
{
    if number < 0 {
        out.extend(b"-");
        put_u16(out, number.unsigned_abs());
    } else {
        put_u16(out, number as u16);
    }
}
