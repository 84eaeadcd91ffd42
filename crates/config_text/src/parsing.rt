//! The whole text.

ghost use Rattle.std.specs.Prelude.{◌≡◌, ◌<◌, ◌^◌, ◌-◌, length, IfOk, IfErr, Ok, Err};
ghost use Rattle.std.specs.Str.Lines.{lines};
ghost use Rattle.text_lines.specs.LineByLine.{all_lines};
ghost use Rattle.config_text.specs.Lines as spec;
ghost use Rattle.config_text.specs.Answering.{Answers, PlacedAs, RefusesBy};
ghost use Rattle.config_text.specs.Accepting.{Accepts, Refuses};
ghost use Rattle.screen_config.specs.Configurations.{Configuration};
ghost use Rattle.config_text.specs.declared.faults.ConfigRefusal.{ConfigRefusal as Refusal};

use crate::drafts::Draft;
use crate::faults::{ConfigFault, ConfigKind, ConfigRefusal, LineFault};
use screen_config::Config;
use std::alloc::Global;
use text_lines::{TextLine, cut_line, text_line};

/// A line's answer with its place in the text.
fn placed(answer: Result<(), LineFault>, line: u32, end: usize) -> Result<(), ConfigFault>
    requires { end < 2 ^ 32 - 1 }
    ensures { PlacedAs line end answer result }
{
    match answer {
        Ok(()) => Ok(()),
        Err(LineFault::OutOfMemory) => Err(ConfigFault::OutOfMemory),
        Err(LineFault::Refused(fault)) => {
            let column = (end.saturating_sub(fault.left) + 1) as u32;
            Err(ConfigFault::Refused(ConfigRefusal {
                line,
                column,
                kind: fault.kind,
            }))
        }
    }
}

impl Draft {
    #[tactic(auto, unfolding(crate::specs::Lines::judged))]
    fn line(&mut self, raw: &[u8], line: u32) -> Result<(), ConfigFault>
        requires { length raw.now < 2 ^ 32 - 1 }
        ensures { Answers (λ _. self.new) result (spec.judged line self.old raw.now) }
    {
        match text_line(raw) {
            TextLine::Empty => Ok(()),
            TextLine::Forbidden(place) => Err(ConfigFault::Refused(ConfigRefusal {
                line,
                column: (place + 1) as u32,
                kind: ConfigKind::BadLine,
            })),
            TextLine::Words(words, end) => {
                let column = (end.saturating_sub(words.len()) + 1) as u32;
                placed(self.words(words, line, column), line, end)
            }
        }
    }

    fn lines(&mut self, text: &[u8]) -> Result<(), ConfigFault>
        requires { length text.now < 2 ^ 32 - 1 }
        ensures { Answers (λ _. self.new) result
            (all_lines spec.judged 1 self.old (lines text.now)) }
    {
        let mut line = 0;
        let mut rest = text;
        while !rest.is_empty() {
            let (raw, after) = cut_line(rest);
            line += 1;
            match self.line(raw, line) {
                Err(fault) => return Err(fault),
                Ok(()) => rest = after,
            }
        }
        Ok(())
    }

    fn finish(self) -> Result<Config, ConfigFault>
        ensures { Answers (λ c. c) result (spec.closed self.opened self.config) }
    {
        match self.opened {
            None => Ok(self.config),
            Some(opened) => Err(ConfigFault::Refused(ConfigRefusal {
                line: opened.line,
                column: opened.column,
                kind: ConfigKind::UnclosedSection,
            })),
        }
    }
}

#[tactic(auto, unfolding(crate::specs::Lines::reading))]
fn read(alloc: Global, text: &[u8]) -> Result<Config, ConfigFault>
    requires { length text.now < 2 ^ 32 - 1 }
    ensures { Answers (λ c. c) result (spec.reading text.now) }
{
    let mut draft = Draft {
        opened: None,
        header: None,
        config: Config::new(alloc),
    };
    match draft.lines(text) {
        Err(fault) => Err(fault),
        Ok(()) => draft.finish(),
    }
}

/// The configuration that a text of fewer than 4,294,967,295 bytes spells, or its first fault.
/// `OutOfMemory` if memory runs out.
pub fn parse(alloc: Global, text: &[u8]) -> Result<Config, ConfigFault>
    requires { length text.now < 2 ^ 32 - 1 }
    // What is given is what the text spells.
    ensures found { IfOk result (Accepts text.now) }
    // What a text spells is given, unless memory runs out.
    ensures only { (config : Configuration) → Accepts text.now config
        → Answers (λ c. c) result (Ok config) }
    // A refusal is that of the text.
    ensures refused { IfErr result (RefusesBy text.now) }
    // The text's refusal is given, unless memory runs out.
    ensures refuses { (r : Refusal) → Refuses text.now r
        → Answers {Y = Configuration} (λ c. c) result (Err r) }
{
    read(alloc, text)
}
