//! The options of one message.

ghost use Rattle.std.specs.Prelude.{◌≡◌, ◌∷◌, [], MatchOption};
ghost use Rattle.client_talk.specs.Options as spec;
ghost use Rattle.client_talk.specs.Options.{pairs};

/// The code of the option that sets the rate of the server's beats, in milliseconds: `HART`.
pub const HEARTBEAT: u32 = 0x4841_5254;

/// Splits off the first option, a code and its value; `None` if there are fewer than two numbers.
pub fn first_option(words: &[u32]) -> Option<(u32, u32, &[u32])>
    ensures { MatchOption result (pairs words.now ≡ []) (λ p. words.now ≡ p.0 ∷ p.1 ∷ p.2.now) }
{
    if words.len() < 2 {
        return None;
    }
    Some((words[0], words[1], &words[2..]))
}

// The rate after one option.
fn set_rate(rate: u32, code: u32, value: u32) -> u32
    ensures { result ≡ spec.set_rate rate (code, value) }
{
    if code == HEARTBEAT { value } else { rate }
}

/// Returns the rate of the server's beats after these options, in milliseconds: that of the last
/// heartbeat among them, or `rate` if there is none.
pub fn rate_after(rate: u32, words: &[u32]) -> u32
    ensures { result ≡ spec.rate_after rate words.now }
{
    let mut found = rate;
    let mut rest = words;
    while let Some((code, value, more)) = first_option(rest) {
        found = set_rate(found, code, value);
        rest = more;
    }
    found
}
