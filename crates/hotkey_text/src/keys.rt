//! How a text spells a key.

ghost use Rattle.std.specs.Prelude.{◌≡◌, ◌<◌, true};
ghost use Rattle.std.specs.Char.{is_ascii_hexdigit, digit_value};
ghost use Rattle.hotkey_rules.specs.WellFormed as well_formed;
ghost use Rattle.hotkey_text.specs.Keys as spec;
ghost use Rattle.hotkey_text.specs.Keys.{four_digits};

use hotkey_rules::key_of_name;
use modifier_map::key_bit;
use share_base::KeyId;

/// Whether a key of this number is spelled by its character.
pub(crate) fn is_plain(number: u16) -> bool
    ensures { result ≡ spec.is_plain number }
{
    (33 <= number && number <= 126)
        && !(number == u16::from(b'(')
            || number == u16::from(b')')
            || number == u16::from(b',')
            || number == u16::from(b';')
            || number == u16::from(b'+')
            || number == u16::from(b'=')
            || number == u16::from(b'#')
            || number == u16::from(b'\\'))
}

fn plain_key(word: &[u8]) -> Option<KeyId>
    ensures { result ≡ spec.plain_key word.now }
{
    match word {
        [byte] => {
            let number = u16::from(*byte);
            if is_plain(number) {
                Some(KeyId(number))
            } else {
                None
            }
        }
        _ => None,
    }
}

fn digit(byte: u8) -> u16
    requires { is_ascii_hexdigit byte ≡ true }
    ensures value { result ≡ digit_value byte }
    ensures below { result < 16 }
{
    match byte {
        b'0'..=b'9' => u16::from(byte - b'0'),
        b'A'..=b'F' => u16::from(byte - b'A' + 10),
        b'a'..=b'f' => u16::from(byte - b'a' + 10),
        _ => unreachable!(),
    }
}

fn number_of_digits(a: u8, b: u8, c: u8, d: u8) -> Option<KeyId>
    ensures { result ≡ spec.number_of_digits a b c d }
{
    if !(a.is_ascii_hexdigit()
        && b.is_ascii_hexdigit()
        && c.is_ascii_hexdigit()
        && d.is_ascii_hexdigit())
    {
        return None;
    }
    let number = 4096 * digit(a) + 256 * digit(b) + 16 * digit(c) + digit(d);
    if number == 0 {
        None
    } else {
        Some(KeyId(number))
    }
}

fn coded_key(word: &[u8]) -> Option<KeyId>
    ensures { result ≡ spec.coded_key word.now }
{
    match word {
        [b'\\', b'u', a, b, c, d] => number_of_digits(*a, *b, *c, *d),
        _ => None,
    }
}

/// The key that a word spells. `None` if it spells none.
#[tactic(auto, unfolding(crate::specs::Keys::key_named))]
pub(crate) fn key_named(word: &[u8]) -> Option<KeyId>
    ensures { result ≡ spec.key_named word.now }
{
    key_of_name(word).or(plain_key(word)).or(coded_key(word))
}

/// Whether it is a key of one of the classes of modifiers.
pub(crate) fn is_modifier_key(id: KeyId) -> bool
    ensures { result ≡ well_formed.is_modifier_key id }
{
    key_bit(id) != 0
}
