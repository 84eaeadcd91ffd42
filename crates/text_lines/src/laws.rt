//! Laws that say in plain words how lines and numbers are spelled. The calls do nothing: their
//! contracts are the laws.

ghost use Rattle.std.specs.Prelude.{◌≡◌, ◌≤◌, ◌<◌, ◌^◌, ℕ, List, Some};
ghost use Rattle.std.specs.Fmt.{decimal};
ghost use Rattle.text_lines.specs.Lines.{Empty, Forbidden, Words, line_text};
ghost use Rattle.text_lines.specs.Numbers.{decimal_of};
ghost use Rattle.text_lines.specs.SpellingLines.{SpellsEmpty, SpellsContent, SpellsForbidden};

/// A line counts for nothing exactly where it has blanks and a comment alone; it has words, with
/// their place, exactly where they stand between gaps, before a comment or the end; and a byte is
/// refused exactly where it is the first that may not stand outside a comment.
pub fn lines_are_spelled()
    ensures empty { (raw : List ℕ) → line_text raw ≡ Empty → SpellsEmpty raw }
    ensures empty_read { (raw : List ℕ) → SpellsEmpty raw → line_text raw ≡ Empty }
    ensures words { (raw words : List ℕ) (end : ℕ) → line_text raw ≡ Words words end
        → SpellsContent raw words end }
    ensures words_read { (raw words : List ℕ) (end : ℕ) → SpellsContent raw words end
        → line_text raw ≡ Words words end }
    ensures forbidden { (raw : List ℕ) (place : ℕ) → line_text raw ≡ Forbidden place
        → SpellsForbidden raw place }
    ensures forbidden_read { (raw : List ℕ) (place : ℕ) → SpellsForbidden raw place
        → line_text raw ≡ Forbidden place }
{}

/// A text is read as a number of at most `max`, which is below 2^64, if and only if it is that
/// number's decimal digits.
pub fn numbers_are_spelled()
    ensures spelled { (max n : ℕ) (text : List ℕ) → max < 2 ^ 64 → decimal_of max text ≡ Some n
        → text ≡ decimal n }
    ensures within { (max n : ℕ) (text : List ℕ) → decimal_of max text ≡ Some n → n ≤ max }
    ensures read { (max n : ℕ) → max < 2 ^ 64 → n ≤ max → decimal_of max (decimal n) ≡ Some n }
{}
