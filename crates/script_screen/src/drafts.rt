//! A text, read line by line.

ghost use Rattle.std.specs.Prelude.{◌≡◌, ◌+◌, ◌≤◌, List, ℕ, Result, OnOk};
ghost use Rattle.text_lines.specs.Lines.{line_text};
ghost use Rattle.text_lines.specs.Words.{words_of};
ghost use Rattle.script_screen.specs.declared.kinds.TextKind.{TextKind as Kind};
ghost use Rattle.script_screen.specs.Answers.{LineGives, TextGives};
ghost use Rattle.script_screen.specs.NumberedLines.{line_judged, text_judged};

use crate::kinds::{LineFault, TextFault, TextKind};
use crate::limits::MAX_LINES;
use text_lines::{TextLine, cut_line, text_line};

/// What the lines of a text gave so far.
pub(crate) trait Draft {
    /// What it is after a line of these words, or why that line is refused.
    ghost judged: { Self → List (List ℕ) → Result Self Kind };

    /// How many lines it holds.
    ghost size: { Self → ℕ };

    /// Takes one more line, of these words and the blanks between them.
    fn take(&mut self, line: &[u8]) -> Result<(), LineFault>
        ensures gives { LineGives (λ _. self.new) result (judged self.old (words_of line.now)) }
        ensures grows { OnOk result (size self.new ≤ size self.old + 1) };
}

fn take_line<D: Draft>(draft: &mut D, raw: &[u8]) -> Result<(), LineFault>
    ensures gives { LineGives (λ _. draft.new) result
        (line_judged D.judged draft.old (line_text raw.now)) }
    ensures grows { OnOk result (D.size draft.new ≤ D.size draft.old + 1) }
{
    match text_line(raw) {
        TextLine::Empty => Ok(()),
        TextLine::Forbidden(_) => Err(LineFault::Refused(TextKind::BadWord)),
        TextLine::Words(line, _) => draft.take(line),
    }
}

/// Takes the lines of a text, to the first that is refused.
#[tactic(auto, unfolding(text_lines::specs::LineByLine::all_lines))]
pub(crate) fn take_lines<D: Draft>(draft: &mut D, text: &[u8]) -> Result<(), TextFault>
    ensures gives { TextGives (λ _. draft.new) result (text_judged D.judged draft.old text.now) }
    ensures grows { OnOk result (D.size draft.new ≤ D.size draft.old + 1000000) }
{
    let mut line = 0;
    let mut rest = text;
    while !rest.is_empty() {
        let (raw, after) = cut_line(rest);
        line += 1;
        if line > MAX_LINES {
            return Err(TextFault::Refused {
                line,
                kind: TextKind::TooLong,
            });
        }
        match take_line(draft, raw) {
            Ok(()) => rest = after,
            Err(LineFault::Refused(kind)) => return Err(TextFault::Refused { line, kind }),
            Err(LineFault::OutOfMemory) => return Err(TextFault::OutOfMemory),
        }
    }
    Ok(())
}
