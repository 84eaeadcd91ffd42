//! Lists of actions.

ghost use Rattle.std.specs.Prelude.{◌≡◌, ◌∷◌, [], MatchOption, not, true, is_ok};
ghost use Rattle.hotkey_text.specs.Shapes.{actions_at};
ghost use Rattle.hotkey_text.specs.Lists.{is_formed, read_actions};

use crate::forms::{ActionForm, action};
use text_lines::maybe_sign;

/// A list of actions as a line spells it.
#[derive(Clone, Copy, Debug, Drop)]
pub struct ActionList<'a> {
    rest: Option<&'a [u8]>,
    ghost formed: { is_formed rest ≡ true },
}

impl<'a> ActionList<'a> {
    ghost use Rattle.hotkey_text.specs.Shapes.{has_some};
    ghost use Rattle.hotkey_text.specs.Views.{form_text, list_text};

    /// The list with no action.
    pub(crate) fn empty() -> ActionList<'a>
        ensures { list_text result ≡ [] }
    {
        ActionList { rest: None }
    }

    /// The actions that stand here, one at least.
    pub(crate) fn from_form(line: &'a [u8]) -> ActionList<'a>
        requires { is_ok (actions_at line.now) ≡ true }
        ensures { list_text result ≡ read_actions (actions_at line.now) }
    {
        ActionList { rest: Some(line) }
    }

    /// Whether it has no action.
    pub fn is_empty(&self) -> bool
        ensures { result ≡ not (has_some (list_text self.now)) }
    {
        self.rest.is_none()
    }

    /// The first action, and the list of the others. `None` if the list has no action.
    pub fn split_first(&self) -> Option<(ActionForm<'a>, ActionList<'a>)>
        ensures { MatchOption result (list_text self.now ≡ [])
            (λ x. list_text self.now ≡ form_text x.0 ∷ list_text x.1) }
    {
        match self.rest {
            None => None,
            Some(line) => match action(line) {
                Err(_) => None,
                Ok((first, behind)) => {
                    let rest = maybe_sign(behind, b',');
                    Some((first, ActionList { rest }))
                }
            },
        }
    }
}
