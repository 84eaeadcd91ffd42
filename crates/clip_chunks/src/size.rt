//! The size that a start says.

ghost use Rattle.std.specs.Prelude.{◌≡◌, ◌≤◌, true, length};
ghost use Rattle.std.specs.List.{list_all};
ghost use Rattle.std.specs.Char.{is_ascii_digit};
ghost use Rattle.std.specs.Str.Parse.{digits_value};
ghost use Rattle.clip_chunks.specs.Wholes.{size_of};

/// The greatest number of digits that a size may have.
const SIZE_DIGITS: usize = 10;

/// Reads a size of 1 to 10 decimal digits, among which leading zeros may stand. `None` if the text
/// is not that.
pub(crate) fn size_of(text: &[u8]) -> Option<u64>
    ensures { result ≡ size_of text.now }
{
    if text.is_empty() || text.len() > SIZE_DIGITS || !are_digits(text) {
        return None;
    }
    Some(number(text))
}

fn are_digits(text: &[u8]) -> bool
    ensures { result ≡ list_all is_ascii_digit text.now }
{
    text.iter().all(|byte| byte.is_ascii_digit())
}

/// The number of at most 10 digits.
fn number(digits: &[u8]) -> u64
    requires short { length digits.now ≤ 10 }
    requires digits { list_all is_ascii_digit digits.now ≡ true }
    ensures { result ≡ digits_value 10 digits.now }
{
    let mut number = 0;
    for digit in digits {
        number = 10 * number + (*digit - b'0') as u64;
    }
    number
}
