//! Reading a client script.

ghost use Rattle.std.specs.Prelude.{◌≡◌, ◌++◌, ◌∷◌, [], List, IfOk, IfErr, OnOk, OnErr, Ok, Err};
ghost use Rattle.script_screen.specs.declared.client_script.ClientLine.{ClientLine as Line};
ghost use Rattle.script_screen.specs.NumberedLines.{TextRefusal, text_judged};
ghost use Rattle.script_screen.specs.Answers.{TextGives, RefusedBy};
ghost use Rattle.script_screen.specs.ClientScripts.{IsClientLine};
ghost use Rattle.script_screen.specs.Texts.{client_judged};
ghost use Rattle.script_screen.specs.Verdicts.{ClientAccepts, ClientRefuses};

use crate::client_script::{ClientLine, ClientScript};
use crate::drafts::{Draft, take_lines};
use crate::forms::ClientForm;
use crate::kinds::{LineFault, TextFault, TextKind};
use crate::words::split_words;
use share_base::OutOfMemory;
use std::alloc::Global;
use std::marker::Model;

/// The lines of a client script so far.
#[derive(Drop)]
struct ClientDraft {
    alloc: Global,
    lines: Vec<ClientLine>,
}

impl Model for ClientDraft {
    ghost use Rattle.std.specs.Prelude.{List, All};
    ghost use Rattle.script_screen.specs.declared.client_script.ClientLine.{ClientLine};
    ghost use Rattle.script_screen.specs.ClientScripts.{IsClientLine};

    ghost Value = { List ClientLine };

    ghost view = { λ d. d.lines.items };

    ghost invariant = { λ d. All IsClientLine d.lines.items };
}

impl ClientDraft {
    fn add(&mut self, line: ClientLine) -> Result<(), OutOfMemory>
        requires { IsClientLine line }
        ensures { OnOk result (self.new ≡ self.old ++ line ∷ []) }
    {
        self.lines.push(line)?;
        Ok(())
    }

    fn finish(self) -> ClientScript
        ensures { result ≡ self }
    {
        ClientScript { lines: self.lines }
    }
}

impl Draft for ClientDraft {
    ghost use Rattle.std.specs.Prelude.{length};
    ghost use Rattle.script_screen.specs.Texts.{client_judged};

    ghost judged = { client_judged };

    ghost size = { λ lines. length lines };

    #[tactic(auto, unfolding(crate::specs::Grammar::words_judged))]
    fn take(&mut self, line: &[u8]) -> Result<(), LineFault> {
        let Some(words) = split_words(line) else {
            return Err(LineFault::Refused(TextKind::BadWord));
        };
        let words = words.as_slice();
        let Some(form) = ClientForm::of(words) else {
            return Err(LineFault::Refused(TextKind::BadWord));
        };
        let line = form.item(self.alloc, form.arguments(words))?;
        self.add(line)?;
        Ok(())
    }
}

fn read(alloc: Global, text: &[u8]) -> Result<ClientScript, TextFault>
    ensures { TextGives (λ s. s) result (text_judged client_judged [] text.now) }
{
    let mut draft = ClientDraft {
        alloc,
        lines: Vec::new(alloc),
    };
    match take_lines(&mut draft, text) {
        Ok(()) => Ok(draft.finish()),
        Err(fault) => Err(fault),
    }
}

/// Reads a client script. The text is refused at its first bad line. A text without lines is a
/// script.
pub fn read_client_script(alloc: Global, text: &[u8]) -> Result<ClientScript, TextFault>
    // What is given is what the text says.
    ensures found { IfOk result (ClientAccepts text.now) }
    // What a text says is given, unless memory runs out.
    ensures only { (lines : List Line) → ClientAccepts text.now lines
        → TextGives (λ s. s) result (Ok lines) }
    // A refusal is that of the text.
    ensures refused { IfErr result (RefusedBy (ClientRefuses text.now)) }
    // The text's refusal is given, unless memory runs out.
    ensures refuses { (r : TextRefusal) → ClientRefuses text.now r
        → TextGives {Y = List Line} (λ s. s) result (Err r) }
{
    read(alloc, text)
}
