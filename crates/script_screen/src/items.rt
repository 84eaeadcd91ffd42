//! The lines that forms and their arguments make.

ghost use Rattle.std.specs.Prelude.{◌≡◌, ℕ, List, Option, IfOk, length, map};
ghost use Rattle.script_screen.specs.Answers.{LineGives};
ghost use Rattle.script_screen.specs.ClientScripts.{IsClientLine};
ghost use Rattle.script_screen.specs.Forms.{script_row, client_row, trace_row};
ghost use Rattle.script_screen.specs.Grammar.{line_of};
ghost use Rattle.script_screen.specs.Screens.{screen_named, screen_count};
ghost use Rattle.script_screen.specs.Scripts.{IsScriptItem, NamesItemBelow};
ghost use Rattle.script_screen.specs.Texts.{script_language, client_language, trace_language};
ghost use Rattle.script_screen.specs.Texts.{clip_of};
ghost use Rattle.script_screen.specs.Traces.{IsTraceLine};
ghost use Rattle.script_screen.specs.Tracking.{MakesTurn};

use crate::arguments::{
    Sizes, Within, number_and_bytes, one_number, one_screen, sized_screen, two_numbers, two_signed,
};
use crate::client_script::ClientLine;
use crate::forms::{ClientForm, ScriptForm, TraceForm};
use crate::kinds::LineFault;
use crate::limits::{MAX_BUTTON, MAX_COPY, MAX_SIZE, MAX_SLEEP};
use crate::script::{Primary, ScriptItem, ScriptLine};
use crate::trace::TraceLine;
use screen_config::Config;
use share_base::{Button, ClipId, KeyId, MouseButton};
use std::alloc::Global;

const SLEEP: Within = Within {
    least: 0,
    most: MAX_SLEEP as u64,
};

const KEY: Within = Within {
    least: 1,
    most: u16::MAX as u64,
};

const BUTTON: Within = Within {
    least: 1,
    most: MAX_BUTTON as u64,
};

const SIZE: Within = Within {
    least: 1,
    most: MAX_SIZE as u64,
};

const CLIP: Within = Within { least: 0, most: 1 };

const ANY: Within = Within {
    least: 0,
    most: u64::MAX,
};

const COPIED: Sizes = Sizes {
    least: 0,
    most: MAX_COPY,
};

const RECEIVED: Sizes = Sizes {
    least: 1,
    most: usize::MAX,
};

fn clip_numbered(number: u64) -> ClipId
    ensures { result ≡ clip_of number }
{
    if number == 0 {
        ClipId::Clipboard
    } else {
        ClipId::Selection
    }
}

impl ScriptForm {
    /// The line of these arguments.
    #[tactic(auto, unfolding(crate::specs::Forms::script_row))]
    pub(crate) fn item(
        self,
        alloc: Global,
        arguments: &[&[u8]],
        config: &Config,
    ) -> Result<ScriptItem, LineFault>
        requires { length arguments.now ≡ length (script_row self).parts }
        ensures gives { LineGives (λ i. i) result
            (line_of script_language (screen_named config.now) self
            (map (λ w. w.now) arguments.now)) }
        ensures sound { IfOk result IsScriptItem }
        ensures known { IfOk result (NamesItemBelow (screen_count config.now)) }
    {
        match self {
            ScriptForm::Primary => {
                let (screen, w, h) = sized_screen(arguments, config, SIZE)?;
                Ok(ScriptItem::Primary(Primary {
                    screen,
                    w: w as u16,
                    h: h as u16,
                }))
            }
            ScriptForm::Sleep => {
                let ms = one_number(arguments, SLEEP)?;
                Ok(ScriptItem::Line(ScriptLine::Sleep(ms as u32)))
            }
            ScriptForm::Await => {
                let screen = one_screen(arguments, config)?;
                Ok(ScriptItem::Line(ScriptLine::Await(screen)))
            }
            ScriptForm::KeyDown => {
                let (id, number) = two_numbers(arguments, KEY, BUTTON)?;
                Ok(ScriptItem::Line(ScriptLine::KeyDown {
                    id: KeyId(id as u16),
                    button: Button(number as u16),
                }))
            }
            ScriptForm::KeyRepeat => {
                let (count, number) = two_numbers(arguments, KEY, BUTTON)?;
                Ok(ScriptItem::Line(ScriptLine::KeyRepeat {
                    count: count as u16,
                    button: Button(number as u16),
                }))
            }
            ScriptForm::KeyUp => {
                let number = one_number(arguments, BUTTON)?;
                Ok(ScriptItem::Line(ScriptLine::KeyUp(Button(number as u16))))
            }
            ScriptForm::ButtonDown => {
                let number = one_number(arguments, BUTTON)?;
                Ok(ScriptItem::Line(ScriptLine::ButtonDown(MouseButton(number as u8))))
            }
            ScriptForm::ButtonUp => {
                let number = one_number(arguments, BUTTON)?;
                Ok(ScriptItem::Line(ScriptLine::ButtonUp(MouseButton(number as u8))))
            }
            ScriptForm::Motion => {
                let (dx, dy) = two_signed(arguments)?;
                Ok(ScriptItem::Line(ScriptLine::Motion { dx, dy }))
            }
            ScriptForm::Wheel => {
                let (x, y) = two_signed(arguments)?;
                Ok(ScriptItem::Line(ScriptLine::Wheel { x, y }))
            }
            ScriptForm::SaverOn => Ok(ScriptItem::Line(ScriptLine::Saver(true))),
            ScriptForm::SaverOff => Ok(ScriptItem::Line(ScriptLine::Saver(false))),
            ScriptForm::Copy => {
                let (clip, bytes) = number_and_bytes(alloc, arguments, CLIP, COPIED)?;
                Ok(ScriptItem::Line(ScriptLine::Copy {
                    clip: clip_numbered(clip),
                    bytes,
                }))
            }
            ScriptForm::Quit => Ok(ScriptItem::Line(ScriptLine::Quit)),
        }
    }
}

impl ClientForm {
    /// The line of these arguments.
    #[tactic(auto, unfolding(crate::specs::Forms::client_row))]
    pub(crate) fn item(self, alloc: Global, arguments: &[&[u8]]) -> Result<ClientLine, LineFault>
        requires { length arguments.now ≡ length (client_row self).parts }
        ensures gives { (screens : List ℕ → Option ℕ)
            → LineGives (λ i. i) result
            (line_of client_language screens self (map (λ w. w.now) arguments.now)) }
        ensures sound { IfOk result IsClientLine }
    {
        match self {
            ClientForm::Sleep => {
                let ms = one_number(arguments, SLEEP)?;
                Ok(ClientLine::Sleep(ms as u32))
            }
            ClientForm::Copy => {
                let (clip, bytes) = number_and_bytes(alloc, arguments, CLIP, COPIED)?;
                Ok(ClientLine::Copy {
                    clip: clip_numbered(clip),
                    bytes,
                })
            }
            ClientForm::Resize => {
                let (w, h) = two_numbers(arguments, SIZE, SIZE)?;
                Ok(ClientLine::Resize {
                    w: w as u16,
                    h: h as u16,
                })
            }
        }
    }
}

impl TraceForm {
    /// The line of these arguments.
    #[tactic(auto, unfolding(crate::specs::Forms::trace_row))]
    pub(crate) fn item(self, alloc: Global, arguments: &[&[u8]]) -> Result<TraceLine, LineFault>
        requires { length arguments.now ≡ length (trace_row self).parts }
        ensures gives { (screens : List ℕ → Option ℕ)
            → LineGives (λ i. i) result
            (line_of trace_language screens self (map (λ w. w.now) arguments.now)) }
        ensures sound { IfOk result IsTraceLine }
        ensures turn { IfOk result (MakesTurn self) }
    {
        match self {
            TraceForm::Turn => Ok(TraceLine::Turn(one_number(arguments, ANY)?)),
            TraceForm::Join => Ok(TraceLine::Join(one_number(arguments, ANY)?)),
            TraceForm::Got => {
                let (connection, bytes) = number_and_bytes(alloc, arguments, ANY, RECEIVED)?;
                Ok(TraceLine::Got { connection, bytes })
            }
            TraceForm::End => Ok(TraceLine::End(one_number(arguments, ANY)?)),
            TraceForm::Fail => Ok(TraceLine::Fail(one_number(arguments, ANY)?)),
            TraceForm::Room => {
                let (connection, room) = two_numbers(arguments, ANY, ANY)?;
                Ok(TraceLine::Room { connection, room })
            }
        }
    }
}
