//! The forms of lines: which words they begin with, and how many arguments they have.

ghost use Rattle.std.specs.Prelude.{◌≡◌, map, length, drop, true};
ghost use Rattle.std.specs.List.{find};
ghost use Rattle.script_screen.specs.Forms.{script_row, script_forms, client_row, client_forms};
ghost use Rattle.script_screen.specs.Forms.{trace_row, trace_forms};
ghost use Rattle.script_screen.specs.Grammar.{takes};
ghost use Rattle.script_screen.specs.Views.{IsRowOf};

use crate::rows::{Row, make_row};

/// A form of a line of a server script.
#[derive(Clone, Copy, Debug, PartialEq, Eq)]
pub(crate) enum ScriptForm {
    Primary,
    Sleep,
    Await,
    KeyDown,
    KeyRepeat,
    KeyUp,
    ButtonDown,
    ButtonUp,
    Motion,
    Wheel,
    SaverOn,
    SaverOff,
    Copy,
    Quit,
}

/// A form of a line of a client script.
#[derive(Clone, Copy, Debug, PartialEq, Eq)]
pub(crate) enum ClientForm {
    Sleep,
    Copy,
    Resize,
}

/// A form of a line of a trace.
#[derive(Clone, Copy, Debug, PartialEq, Eq)]
pub(crate) enum TraceForm {
    Turn,
    Join,
    Got,
    End,
    Fail,
    Room,
}

const SCRIPT_FORMS: [ScriptForm; 14] = [
    ScriptForm::Primary,
    ScriptForm::Sleep,
    ScriptForm::Await,
    ScriptForm::KeyDown,
    ScriptForm::KeyRepeat,
    ScriptForm::KeyUp,
    ScriptForm::ButtonDown,
    ScriptForm::ButtonUp,
    ScriptForm::Motion,
    ScriptForm::Wheel,
    ScriptForm::SaverOn,
    ScriptForm::SaverOff,
    ScriptForm::Copy,
    ScriptForm::Quit,
];

const CLIENT_FORMS: [ClientForm; 3] = [ClientForm::Sleep, ClientForm::Copy, ClientForm::Resize];

const TRACE_FORMS: [TraceForm; 6] = [
    TraceForm::Turn,
    TraceForm::Join,
    TraceForm::Got,
    TraceForm::End,
    TraceForm::Fail,
    TraceForm::Room,
];

impl ScriptForm {
    /// Its row of the grammar.
    #[tactic(auto, unfolding(crate::specs::Forms::script_row))]
    pub(crate) fn row(self) -> Row
        ensures { IsRowOf result (script_row self) }
    {
        match self {
            ScriptForm::Primary => make_row(&["primary"], 3),
            ScriptForm::Sleep => make_row(&["sleep"], 1),
            ScriptForm::Await => make_row(&["await"], 1),
            ScriptForm::KeyDown => make_row(&["key", "down"], 2),
            ScriptForm::KeyRepeat => make_row(&["key", "repeat"], 2),
            ScriptForm::KeyUp => make_row(&["key", "up"], 1),
            ScriptForm::ButtonDown => make_row(&["button", "down"], 1),
            ScriptForm::ButtonUp => make_row(&["button", "up"], 1),
            ScriptForm::Motion => make_row(&["motion"], 2),
            ScriptForm::Wheel => make_row(&["wheel"], 2),
            ScriptForm::SaverOn => make_row(&["saver", "on"], 0),
            ScriptForm::SaverOff => make_row(&["saver", "off"], 0),
            ScriptForm::Copy => make_row(&["copy"], 2),
            ScriptForm::Quit => make_row(&["quit"], 0),
        }
    }

    /// The arguments of a line of this form.
    pub(crate) fn arguments<'a, 'w>(self, words: &'a [&'w [u8]]) -> &'a [&'w [u8]]
        requires { takes (script_row self) (map (λ w. w.now) words.now) ≡ true }
        ensures rest { map (λ w. w.now) result.now
            ≡ drop (length (script_row self).words) (map (λ w. w.now) words.now) }
        ensures count { length result.now ≡ length (script_row self).parts }
    {
        self.row().arguments(words)
    }

    /// The form of a line of these words.
    pub(crate) fn of(words: &[&[u8]]) -> Option<ScriptForm>
        ensures { result
            ≡ find (λ f. takes (script_row f) (map (λ w. w.now) words.now)) script_forms }
    {
        SCRIPT_FORMS
            .iter()
            .copied()
            .find(|form| form.row().takes(words))
    }
}

impl ClientForm {
    /// Its row of the grammar.
    #[tactic(auto, unfolding(crate::specs::Forms::client_row))]
    pub(crate) fn row(self) -> Row
        ensures { IsRowOf result (client_row self) }
    {
        match self {
            ClientForm::Sleep => make_row(&["sleep"], 1),
            ClientForm::Copy => make_row(&["copy"], 2),
            ClientForm::Resize => make_row(&["resize"], 2),
        }
    }

    /// The arguments of a line of this form.
    pub(crate) fn arguments<'a, 'w>(self, words: &'a [&'w [u8]]) -> &'a [&'w [u8]]
        requires { takes (client_row self) (map (λ w. w.now) words.now) ≡ true }
        ensures rest { map (λ w. w.now) result.now
            ≡ drop (length (client_row self).words) (map (λ w. w.now) words.now) }
        ensures count { length result.now ≡ length (client_row self).parts }
    {
        self.row().arguments(words)
    }

    /// The form of a line of these words.
    pub(crate) fn of(words: &[&[u8]]) -> Option<ClientForm>
        ensures { result
            ≡ find (λ f. takes (client_row f) (map (λ w. w.now) words.now)) client_forms }
    {
        CLIENT_FORMS
            .iter()
            .copied()
            .find(|form| form.row().takes(words))
    }
}

impl TraceForm {
    /// Its row of the grammar.
    #[tactic(auto, unfolding(crate::specs::Forms::trace_row))]
    pub(crate) fn row(self) -> Row
        ensures { IsRowOf result (trace_row self) }
    {
        match self {
            TraceForm::Turn => make_row(&["turn"], 1),
            TraceForm::Join => make_row(&["join"], 1),
            TraceForm::Got => make_row(&["got"], 2),
            TraceForm::End => make_row(&["end"], 1),
            TraceForm::Fail => make_row(&["fail"], 1),
            TraceForm::Room => make_row(&["room"], 2),
        }
    }

    /// The arguments of a line of this form.
    pub(crate) fn arguments<'a, 'w>(self, words: &'a [&'w [u8]]) -> &'a [&'w [u8]]
        requires { takes (trace_row self) (map (λ w. w.now) words.now) ≡ true }
        ensures rest { map (λ w. w.now) result.now
            ≡ drop (length (trace_row self).words) (map (λ w. w.now) words.now) }
        ensures count { length result.now ≡ length (trace_row self).parts }
    {
        self.row().arguments(words)
    }

    /// The form of a line of these words.
    pub(crate) fn of(words: &[&[u8]]) -> Option<TraceForm>
        ensures { result
            ≡ find (λ f. takes (trace_row f) (map (λ w. w.now) words.now)) trace_forms }
    {
        TRACE_FORMS
            .iter()
            .copied()
            .find(|form| form.row().takes(words))
    }
}
