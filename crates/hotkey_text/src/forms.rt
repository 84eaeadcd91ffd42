//! Forms in a hotkey's line. An error says how many bytes of the line were left where its form
//! can't go on.

ghost use Rattle.std.specs.Prelude.{◌≡◌};
ghost use Rattle.text_lines.specs.Reading.{Gives};
ghost use Rattle.hotkey_text.specs.Shapes.{argument_at, action_at};
ghost use Rattle.hotkey_text.specs.Views.{form_text};

use text_lines::{Word, WordKind, sign, whole_word, word_len};

/// An action as the line spells it.
#[derive(Clone, Copy, Debug, Drop)]
pub struct ActionForm<'a> {
    /// Its word.
    pub word: Word<'a>,
    /// The line from the action's argument on, which goes to the next `)`. No blank stands in
    /// front.
    pub argument: &'a [u8],
}

/// What stands in brackets: the line from there on, and what follows the brackets.
#[tactic(auto, unfolding(crate::specs::Shapes::argument_at))]
pub(crate) fn argument(bytes: &[u8]) -> Result<(&[u8], &[u8]), usize>
    ensures { Gives (λ x. (x.0.now, x.1.now)) result (argument_at bytes.now) }
{
    let argument = sign(bytes, b'(')?;
    let (_, closing) = argument.split_at(word_len(argument, WordKind::Argument));
    let rest = sign(closing, b')')?;
    Ok((argument, rest))
}

/// `WORD(ARGUMENT)`, and what follows it.
#[tactic(auto, unfolding(crate::specs::Shapes::action_at))]
pub(crate) fn action(bytes: &[u8]) -> Result<(ActionForm<'_>, &[u8]), usize>
    ensures { Gives (λ x. (form_text x.0, x.1.now)) result (action_at bytes.now) }
{
    let (word, rest) = whole_word(bytes, WordKind::Action)?;
    let (argument, rest) = argument(rest)?;
    Ok((ActionForm { word, argument }, rest))
}
