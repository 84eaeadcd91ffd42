//! Values of options, as texts spell them.

ghost use Rattle.std.specs.Prelude.{◌≡◌, ◌<◌, ◌≤◌, map, length, IfSome, true};
ghost use Rattle.std.specs.List.{position};
ghost use Rattle.std.specs.Str.{bytes_eq};
ghost use Rattle.option_table.specs.Values as spec;
ghost use Rattle.option_table.specs.Values.{words_of_form, suits};

use crate::corners::corners;
use crate::rows::ValueForm;
use text_lines::decimal;

fn place_of_word(words: &[&str], text: &[u8]) -> Option<usize>
    ensures gives { result ≡ position (λ w. bytes_eq w.now text.now) words.now }
    ensures below { IfSome result (λ i. i < length words.now) }
{
    words.iter().position(|word| word.as_bytes() == text)
}

impl ValueForm {
    /// The words of a form, in the order of their values, from 0. A form of numbers or corners has
    /// none.
    pub(crate) fn words(self) -> &'static [&'static str]
        ensures words { map (λ w. w.now) result.now ≡ words_of_form self }
        ensures count { length result.now ≡ length (words_of_form self) }
        ensures few { length result.now ≤ 6 }
    {
        match self {
            ValueForm::Flag => &["false", "true"],
            ValueForm::Modifier => &["none", "shift", "ctrl", "alt", "meta", "super"],
            ValueForm::Corners => &[],
            ValueForm::UpTo(_) => &[],
            ValueForm::Protocol => &["synergy", "barrier"],
        }
    }

    #[tactic(auto, using(crate::proofs::WordPlaces::position_map), unfolding(crate::specs::Values::word_value))]
    fn word_value(self, text: &[u8]) -> Option<u32>
        ensures value { result ≡ spec.word_value self text.now }
        ensures below { IfSome result (λ v. v < length (words_of_form self)) }
    {
        match place_of_word(self.words(), text) {
            Some(place) => Some(place as u32),
            None => None,
        }
    }

    /// The value that a text spells. `None` if it spells none of this form.
    #[tactic(auto, unfolding(crate::specs::Values::value_of))]
    pub fn value(self, text: &[u8]) -> Option<u32>
        ensures value { result ≡ spec.value_of self text.now }
        ensures suits { IfSome result (λ v. suits self v ≡ true) }
    {
        match self {
            ValueForm::Flag => self.word_value(text),
            ValueForm::Modifier => self.word_value(text),
            ValueForm::Corners => corners(text),
            ValueForm::UpTo(max) => decimal(text, max),
            ValueForm::Protocol => self.word_value(text),
        }
    }
}
