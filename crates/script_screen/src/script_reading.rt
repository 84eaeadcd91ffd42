//! Reading a server script.

ghost use Rattle.std.specs.Prelude.{◌≡◌, ◌≤◌, ◌<◌, ◌+◌, length, IfOk, IfErr, OnOk, Ok, Err};
ghost use Rattle.script_screen.specs.Answers.{LineGives, TextGives, RefusedBy};
ghost use Rattle.script_screen.specs.NumberedLines.{TextRefusal, text_judged};
ghost use Rattle.script_screen.specs.Screens.{screen_count};
ghost use Rattle.script_screen.specs.Scripts.{ScriptText, IsScriptLine, IsScriptItem, NamesBelow};
ghost use Rattle.script_screen.specs.Scripts.{NamesItemBelow, ScreensBelow};
ghost use Rattle.script_screen.specs.Texts.{misplaced_by, script_add, script_closed};
ghost use Rattle.script_screen.specs.Texts.{script_reading, script_start, script_judged};
ghost use Rattle.script_screen.specs.Verdicts.{ScriptAccepts, ScriptRefuses};

use crate::drafts::{Draft, take_lines};
use crate::forms::ScriptForm;
use crate::held::Held;
use crate::kinds::{LineFault, TextFault, TextKind};
use crate::script::{Primary, Script, ScriptItem, ScriptLine};
use crate::words::split_words;
use screen_config::Config;
use std::alloc::Global;
use std::marker::Model;

/// The lines of a server script so far.
#[derive(Drop)]
struct ScriptDraft<'a> {
    alloc: Global,
    config: &'a Config,
    primary: Option<Primary>,
    lines: Vec<ScriptLine>,
    held: Held,
}

impl<'a> Model for ScriptDraft<'a> {
    ghost use Rattle.script_screen.specs.Texts.{ScriptSoFar};
    ghost use Rattle.script_screen.specs.Holding.{IsScriptedBy};

    ghost Value = { ScriptSoFar };

    ghost view = { λ d.
        record { config = d.config.now; primary = d.primary; lines = d.lines.items } };

    ghost invariant = { λ d.
        IsScriptedBy d.held
        (record { config = d.config.now; primary = d.primary; lines = d.lines.items }) };
}

impl ScriptDraft<'_> {
    ghost use Rattle.script_screen.specs.Holding.{lines_held};

    fn config(&self) -> &Config
        ensures { result.now ≡ self.now.config }
    {
        self.config
    }

    /// Why a line of this form may not stand next, if so.
    fn misplaced(&self, form: ScriptForm) -> Option<TextKind>
        ensures { result ≡ misplaced_by self.now.primary form }
    {
        match (self.primary.is_some(), form) {
            (false, ScriptForm::Primary) => None,
            (false, _) => Some(TextKind::NoPrimary),
            (true, ScriptForm::Primary) => Some(TextKind::SecondPrimary),
            (true, _) => None,
        }
    }

    fn add_line(&mut self, line: ScriptLine) -> Result<(), LineFault>
        requires sound { IsScriptLine line }
        requires known { NamesBelow (screen_count self.old.config) line }
        ensures gives { LineGives (λ _. self.new) result
            (script_add self.old (ScriptItem.Line line)) }
        ensures grows { OnOk result (lines_held self.new ≤ lines_held self.old + 1) }
    {
        if let Some(kind) = self.held.fault(&line) {
            return Err(LineFault::Refused(kind));
        }
        self.lines.reserve(1)?;
        self.held.follow(&line);
        self.lines.push_reserved(line);
        Ok(())
    }

    /// Adds the primary screen or a line.
    fn add(&mut self, item: ScriptItem) -> Result<(), LineFault>
        requires sound { IsScriptItem item }
        requires known { NamesItemBelow (screen_count self.old.config) item }
        ensures gives { LineGives (λ _. self.new) result (script_add self.old item) }
        ensures grows { OnOk result (lines_held self.new ≤ lines_held self.old + 1) }
    {
        match item {
            ScriptItem::Primary(primary) => {
                self.primary = Some(primary);
                Ok(())
            }
            ScriptItem::Line(line) => self.add_line(line),
        }
    }

    fn finish(self) -> Result<Script, TextFault>
        requires { lines_held self ≤ 1000000 }
        ensures gives { TextGives (λ s. s) result
            (script_closed self.entry.primary self.entry.lines) }
        ensures known { IfOk result (ScreensBelow (screen_count self.entry.config)) }
    {
        match self.primary {
            None => Err(TextFault::Refused {
                line: 1,
                kind: TextKind::NoPrimary,
            }),
            Some(primary) => Ok(Script {
                primary,
                lines: self.lines,
            }),
        }
    }
}

impl Draft for ScriptDraft<'_> {
    ghost use Rattle.script_screen.specs.Holding.{lines_held};
    ghost use Rattle.script_screen.specs.Texts.{script_judged};

    ghost judged = { script_judged };

    ghost size = { lines_held };

    #[tactic(auto, unfolding(crate::specs::Grammar::words_judged))]
    fn take(&mut self, line: &[u8]) -> Result<(), LineFault> {
        let Some(words) = split_words(line) else {
            return Err(LineFault::Refused(TextKind::BadWord));
        };
        let words = words.as_slice();
        let Some(form) = ScriptForm::of(words) else {
            return Err(LineFault::Refused(TextKind::BadWord));
        };
        if let Some(kind) = self.misplaced(form) {
            return Err(LineFault::Refused(kind));
        }
        match form.item(self.alloc, form.arguments(words), self.config()) {
            Ok(item) => self.add(item),
            Err(fault) => Err(fault),
        }
    }
}

fn read(alloc: Global, text: &[u8], config: &Config) -> Result<Script, TextFault>
    ensures gives { TextGives (λ s. s) result (script_reading config.now text.now) }
    ensures known { IfOk result (ScreensBelow (screen_count config.now)) }
{
    let mut draft = ScriptDraft {
        alloc,
        config,
        primary: None,
        lines: Vec::new(alloc),
        held: Held::new(),
    };
    match take_lines(&mut draft, text) {
        Ok(()) => draft.finish(),
        Err(fault) => Err(fault),
    }
}

/// Reads a server script, whose screens are those of `config`. The text is refused at its first bad
/// line, and as `NoPrimary` at line 1 if no line has words.
pub fn read_script(alloc: Global, text: &[u8], config: &Config) -> Result<Script, TextFault>
    // What is given is what the text says.
    ensures found { IfOk result (ScriptAccepts config.now text.now) }
    // What a text says is given, unless memory runs out.
    ensures only { (script : ScriptText) → ScriptAccepts config.now text.now script
        → TextGives (λ s. s) result (Ok script) }
    // A refusal is that of the text.
    ensures refused { IfErr result (RefusedBy (ScriptRefuses config.now text.now)) }
    // The text's refusal is given, unless memory runs out.
    ensures refuses { (r : TextRefusal) → ScriptRefuses config.now text.now r
        → TextGives {Y = ScriptText} (λ s. s) result (Err r) }
    // The script's screens are screens of the configuration.
    ensures known { IfOk result (ScreensBelow (screen_count config.now)) }
{
    read(alloc, text, config)
}
