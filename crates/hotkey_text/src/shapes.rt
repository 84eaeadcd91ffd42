//! The line of a hotkey. An error says how many bytes of the line were left where its form can't go
//! on.

ghost use Rattle.std.specs.Prelude.{◌≡◌};
ghost use Rattle.text_lines.specs.Reading.{Gives};
ghost use Rattle.hotkey_text.specs.Shapes as spec;
ghost use Rattle.hotkey_text.specs.Shapes.{actions_at, list_at, press_at, release_at, hotkey_at};
ghost use Rattle.hotkey_text.specs.Lists.{behind_of};
ghost use Rattle.hotkey_text.specs.Views.{list_text, line_text};

use crate::forms::{action, argument};
use crate::lists::ActionList;
use crate::names::TriggerKind;
use text_lines::{WordKind, begins, end, maybe_sign, run, sign, whole_word};

/// The parts of a hotkey's line.
#[derive(Clone, Copy, Debug, Drop)]
pub struct HotkeyForm<'a> {
    /// What sets it off.
    pub kind: TriggerKind,
    /// The line from the trigger's argument on, which goes to the next `)`. No blank stands in
    /// front.
    pub argument: &'a [u8],
    /// The actions when the trigger goes down.
    pub press: ActionList<'a>,
    /// Whether a `;` follows them.
    pub released: bool,
    /// The actions when the trigger goes up.
    pub release: ActionList<'a>,
}

/// Whether the words of a line are those of a hotkey: the first is `keystroke` or `mousebutton`,
/// and a `(` stands after it.
pub fn is_hotkey(bytes: &[u8]) -> bool
    ensures { result ≡ spec.is_hotkey bytes.now }
{
    let (word, rest) = run(bytes, WordKind::Key);
    TriggerKind::named(word.text).is_some() && begins(rest, b'(')
}

/// What follows the actions that stand here, one at least.
fn behind_actions(bytes: &[u8]) -> Result<&[u8], usize>
    ensures { Gives (λ x. x.now) result (behind_of (actions_at bytes.now)) }
{
    let mut rest = bytes;
    loop {
        let (_, behind) = action(rest)?;
        match maybe_sign(behind, b',') {
            None => return Ok(behind),
            Some(next) => rest = next,
        }
    }
}

/// A list of actions, which is empty where the line ends, and what follows it.
#[tactic(auto, unfolding(crate::specs::Shapes::list_at))]
fn list(bytes: &[u8]) -> Result<(ActionList<'_>, &[u8]), usize>
    ensures { Gives (λ x. (list_text x.0, x.1.now)) result (list_at bytes.now) }
{
    if bytes.is_empty() {
        return Ok((ActionList::empty(), bytes));
    }
    let rest = behind_actions(bytes)?;
    Ok((ActionList::from_form(bytes), rest))
}

#[tactic(auto, unfolding(crate::specs::Shapes::press_at))]
fn press(bytes: &[u8]) -> Result<(ActionList<'_>, &[u8]), usize>
    ensures { Gives (λ x. (list_text x.0, x.1.now)) result (press_at bytes.now) }
{
    if begins(bytes, b';') {
        return Ok((ActionList::empty(), bytes));
    }
    list(bytes)
}

#[tactic(auto, unfolding(crate::specs::Shapes::release_at))]
fn release(bytes: &[u8]) -> Result<(bool, ActionList<'_>), usize>
    ensures { Gives (λ x. (x.0, list_text x.1)) result (release_at bytes.now) }
{
    if bytes.is_empty() {
        return Ok((false, ActionList::empty()));
    }
    let rest = sign(bytes, b';')?;
    let (actions, rest) = list(rest)?;
    end(rest)?;
    Ok((true, actions))
}

/// The parts of a line of a hotkey, which is given without its comment and without blanks at its
/// ends. An error says how many of its bytes were left where its form can't go on, 0 where it ends
/// too early.
#[tactic(auto, unfolding(crate::specs::Shapes::hotkey_at))]
pub fn hotkey(bytes: &[u8]) -> Result<HotkeyForm<'_>, usize>
    ensures { Gives line_text result (hotkey_at bytes.now) }
{
    let (word, rest) = whole_word(bytes, WordKind::Key)?;
    let kind = TriggerKind::named(word.text).ok_or(word.left)?;
    let (argument, rest) = argument(rest)?;
    let rest = sign(rest, b'=')?;
    let (press, rest) = press(rest)?;
    let (released, release) = release(rest)?;
    Ok(HotkeyForm {
        kind,
        argument,
        press,
        released,
        release,
    })
}
