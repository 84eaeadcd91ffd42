//! Numbers as texts spell them.

ghost use Rattle.std.specs.Prelude.{◌≡◌, ◌≤◌, IfSome};
ghost use Rattle.text_lines.specs.Numbers.{digits_from, decimal_of};

#[tactic(auto, unfolding(crate::specs::Numbers::digits_from))]
fn digits(text: &[u8], max: u64) -> Option<u64>
    ensures value { result ≡ digits_from max 0 text.now }
    ensures bound { IfSome result (λ n. n ≤ max) }
{
    let mut number: u128 = 0;
    let mut rest = text;
    while let [byte, after @ ..] = rest {
        if !byte.is_ascii_digit() {
            return None;
        }
        number = 10 * number + u128::from(*byte - b'0');
        if number > u128::from(max) {
            return None;
        }
        rest = after;
    }
    Some(number as u64)
}

/// The number that the text spells: digits, with no leading 0, at most `max`. `None` if it spells
/// no such number.
pub fn decimal(text: &[u8], max: u32) -> Option<u32>
    ensures value { result ≡ decimal_of max text.now }
    ensures bound { IfSome result (λ n. n ≤ max) }
{
    let number = decimal_u64(text, u64::from(max))?;
    Some(number as u32)
}

/// The same for numbers of 64 bits.
#[tactic(auto, unfolding(crate::specs::Numbers::decimal_of))]
pub fn decimal_u64(text: &[u8], max: u64) -> Option<u64>
    ensures value { result ≡ decimal_of max text.now }
    ensures bound { IfSome result (λ n. n ≤ max) }
{
    match text {
        [] => None,
        [b'0'] => Some(0),
        [b'0', ..] => None,
        _ => digits(text, max),
    }
}
