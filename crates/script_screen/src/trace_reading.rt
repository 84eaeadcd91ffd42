//! Reading a trace.

ghost use Rattle.std.specs.Prelude.{◌≡◌, ◌≤◌, ◌+◌, ◌++◌, ◌∷◌, [], List, length, IfOk, IfErr, OnOk};
ghost use Rattle.std.specs.Prelude.{OnErr, Ok, Err};
ghost use Rattle.script_screen.specs.declared.trace.TraceLine.{TraceLine as Line};
ghost use Rattle.script_screen.specs.Answers.{LineGives, TextGives, RefusedBy};
ghost use Rattle.script_screen.specs.NumberedLines.{TextRefusal, text_judged};
ghost use Rattle.script_screen.specs.Texts.{trace_judged, before_turn, trace_add};
ghost use Rattle.script_screen.specs.Traces.{IsTraceLine, BeginsWithTurn};
ghost use Rattle.script_screen.specs.Verdicts.{TraceAccepts, TraceRefuses};

use crate::drafts::{Draft, take_lines};
use crate::forms::TraceForm;
use crate::kinds::{LineFault, TextFault, TextKind};
use crate::trace::{Trace, TraceLine};
use crate::track::Track;
use crate::words::split_words;
use share_base::OutOfMemory;
use std::alloc::Global;
use std::marker::Model;

/// The lines of a trace so far.
#[derive(Drop)]
struct TraceDraft {
    alloc: Global,
    lines: Vec<TraceLine>,
    track: Track,
}

impl Model for TraceDraft {
    ghost use Rattle.std.specs.Prelude.{List};
    ghost use Rattle.script_screen.specs.declared.trace.TraceLine.{TraceLine};
    ghost use Rattle.script_screen.specs.Tracking.{IsTracedBy};

    ghost Value = { List TraceLine };

    ghost view = { λ d. d.lines.items };

    ghost invariant = { λ d. IsTracedBy d.track d.lines.items };
}

impl TraceDraft {
    /// Why a line of this form may not stand next, if so.
    fn misplaced(&self, form: TraceForm) -> Option<TextKind>
        ensures { result ≡ before_turn self.now form }
    {
        if !self.lines.is_empty() {
            return None;
        }
        match form {
            TraceForm::Turn => None,
            TraceForm::Join => Some(TextKind::NoTurn),
            TraceForm::Got => Some(TextKind::NoTurn),
            TraceForm::End => Some(TextKind::NoTurn),
            TraceForm::Fail => Some(TextKind::NoTurn),
            TraceForm::Room => Some(TextKind::NoTurn),
        }
    }

    /// Adds a line, which may stand there.
    fn add(&mut self, line: TraceLine) -> Result<(), LineFault>
        requires sound { IsTraceLine line }
        requires placed { BeginsWithTurn (self.old ++ line ∷ []) }
        ensures gives { LineGives (λ _. self.new) result (trace_add self.old line) }
        ensures grows { OnOk result (length self.new ≤ length self.old + 1) }
    {
        if let Some(kind) = self.track.fault(&line) {
            return Err(LineFault::Refused(kind));
        }
        self.lines.reserve(1)?;
        self.track.follow(&line)?;
        self.lines.push_reserved(line);
        Ok(())
    }

    fn finish(self) -> Trace
        requires { length self ≤ 1000000 }
        ensures { result ≡ self }
    {
        Trace { lines: self.lines }
    }
}

impl Draft for TraceDraft {
    ghost use Rattle.std.specs.Prelude.{length};
    ghost use Rattle.script_screen.specs.Texts.{trace_judged};

    ghost judged = { trace_judged };

    ghost size = { λ lines. length lines };

    #[tactic(auto, unfolding(crate::specs::Grammar::words_judged))]
    fn take(&mut self, line: &[u8]) -> Result<(), LineFault> {
        let Some(words) = split_words(line) else {
            return Err(LineFault::Refused(TextKind::BadWord));
        };
        let words = words.as_slice();
        let Some(form) = TraceForm::of(words) else {
            return Err(LineFault::Refused(TextKind::BadWord));
        };
        if let Some(kind) = self.misplaced(form) {
            return Err(LineFault::Refused(kind));
        }
        let line = form.item(self.alloc, form.arguments(words))?;
        self.add(line)
    }
}

fn read(alloc: Global, text: &[u8]) -> Result<Trace, TextFault>
    ensures { TextGives (λ s. s) result (text_judged trace_judged [] text.now) }
{
    let Ok(track) = Track::new(alloc) else {
        return Err(TextFault::OutOfMemory);
    };
    let mut draft = TraceDraft {
        alloc,
        lines: Vec::new(alloc),
        track,
    };
    match take_lines(&mut draft, text) {
        Ok(()) => Ok(draft.finish()),
        Err(fault) => Err(fault),
    }
}

/// Reads a trace. The text is refused at its first bad line. A text without lines is a trace.
pub fn read_trace(alloc: Global, text: &[u8]) -> Result<Trace, TextFault>
    // What is given is what the text says.
    ensures found { IfOk result (TraceAccepts text.now) }
    // What a text says is given, unless memory runs out.
    ensures only { (lines : List Line) → TraceAccepts text.now lines
        → TextGives (λ s. s) result (Ok lines) }
    // A refusal is that of the text.
    ensures refused { IfErr result (RefusedBy (TraceRefuses text.now)) }
    // The text's refusal is given, unless memory runs out.
    ensures refuses { (r : TextRefusal) → TraceRefuses text.now r
        → TextGives {Y = List Line} (λ s. s) result (Err r) }
{
    read(alloc, text)
}
