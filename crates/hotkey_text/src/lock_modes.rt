//! The words of the lock's modes.

ghost use Rattle.std.specs.Prelude.{◌≡◌};
ghost use Rattle.hotkey_text.specs.LockModes.{lock_word, lock_named};

use hotkey_rules::LockMode;

const MODES: [LockMode; 3] = [LockMode::On, LockMode::Off, LockMode::Toggle];

pub(crate) fn lock_word(mode: LockMode) -> &'static [u8]
    ensures { result.now ≡ lock_word mode }
{
    match mode {
        LockMode::On => b"on",
        LockMode::Off => b"off",
        LockMode::Toggle => b"toggle",
    }
}

/// The mode of that word. `None` if it is none of them.
pub(crate) fn lock_named(word: &[u8]) -> Option<LockMode>
    ensures { result ≡ lock_named word.now }
{
    MODES.iter().copied().find(|mode| lock_word(*mode) == word)
}
