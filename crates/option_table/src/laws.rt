//! Laws of printed options and of corners. The calls do nothing: their contracts are the laws.

ghost use Rattle.std.specs.Prelude.{◌≡◌, ◌≤◌, ◌&&◌, ℕ, List, true, is_some, Some};
ghost use Rattle.std.specs.List.{list_all};
ghost use Rattle.option_table.specs.declared.rows.OptionName.{OptionName};
ghost use Rattle.option_table.specs.Table.{row_of, option_named};
ghost use Rattle.option_table.specs.Corners.{of_words};
ghost use Rattle.option_table.specs.CornersByWords.{Corner, has, IsAdded, is_corner_word};
ghost use Rattle.option_table.specs.CornersByWords.{is_some_word};
ghost use Rattle.option_table.specs.Values.{suits, value_of};
ghost use Rattle.option_table.specs.Printed.{value_text};

/// What is printed of an option is read as what it was printed from: its key as that option, and
/// the text of a value of its form as that value.
pub fn printed_option_is_read()
    ensures key { (option : OptionName) → option_named (row_of option).key ≡ Some option }
    ensures value { (option : OptionName) (v : ℕ) → suits (row_of option).form v ≡ true
        → value_of (row_of option).form (value_text (row_of option).form v) ≡ Some v }
{}

/// Words make a set of the four corners if and only if there are some, and each is one for corners.
/// A corner is in the set if and only if a word adds it and none after that word takes it away.
pub fn corners_go_by_the_last_word()
    ensures some { (words : List (List ℕ))
        → is_some (of_words words) ≡ (is_some_word words && list_all is_corner_word words) }
    ensures few { (words : List (List ℕ)) (set : ℕ) → of_words words ≡ Some set → set ≤ 15 }
    ensures held { (words : List (List ℕ)) (set : ℕ) (c : Corner) → of_words words ≡ Some set
        → has set c ≡ true → IsAdded c words }
    ensures added { (words : List (List ℕ)) (set : ℕ) (c : Corner) → of_words words ≡ Some set
        → IsAdded c words → has set c ≡ true }
{}
