//! A line's words, taken by the section in which they stand.

ghost use Rattle.std.specs.Prelude.{◌≡◌, length, false};
ghost use Rattle.std.specs.Str.{bytes_eq};
ghost use Rattle.text_lines.specs.Lines.{trimmed};
ghost use Rattle.config_text.specs.Answering.{Judges};
ghost use Rattle.config_text.specs.Sections as spec;
ghost use Rattle.screen_config.specs.Sound.{is_end};

use crate::faults::{ConfigKind, Fault, LineFault};
use crate::hotkey_judging::new_hotkey;
use crate::judging::{known_screen, new_alias, new_link, new_screen};
use crate::sections::{Opened, Section, is_header};
use crate::shapes;
use crate::words::{formed, found, global_setting, own_setting};
use screen_config::Config;
use std::marker::Model;

/// What the lines so far have given.
#[derive(Debug, Drop)]
pub(crate) struct Draft {
    pub opened: Option<Opened>,
    pub header: Option<u16>,
    pub config: Config,
}

impl Model for Draft {
    ghost use Rattle.std.specs.Prelude.{◌<◌, length};
    ghost use Rattle.std.specs.Option.{ForSome};
    ghost use Rattle.config_text.specs.Drafts.{Draft as Lines};

    ghost Value = { Lines };

    ghost view = { λ d. record { opened = d.opened; header = d.header; config = d.config } };

    ghost invariant = { λ d. ForSome d.header (λ n. n < length d.config.screens) };
}

fn bad_from_its_begin(bytes: &[u8]) -> LineFault
    ensures { result
        ≡ LineFault.Refused (record { kind = ConfigKind.BadLine; left = length bytes.now }) }
{
    LineFault::Refused(Fault {
        kind: ConfigKind::BadLine,
        left: bytes.len(),
    })
}

impl Draft {
    #[tactic(auto, unfolding(crate::specs::Sections::outside))]
    fn outside(&mut self, bytes: &[u8], line: u32, column: u32) -> Result<(), LineFault>
        ensures { Judges (λ _. self.new) result (spec.outside line column self.old bytes.now) }
    {
        let name = formed(shapes::section(bytes))?;
        let section = found(
            Section::named(name.text),
            ConfigKind::UnknownSection,
            name.left,
        )?;
        self.opened = Some(Opened {
            section,
            line,
            column,
        });
        self.header = None;
        Ok(())
    }

    #[tactic(auto, unfolding(crate::specs::Sections::screen_header))]
    fn screen_header(&mut self, bytes: &[u8]) -> Result<(), LineFault>
        ensures { Judges (λ _. self.new) result (spec.screen_header self.old bytes.now) }
    {
        let name = formed(shapes::header(bytes))?;
        let screen = self.config.count();
        new_screen(&mut self.config, name, bytes.len())?;
        self.header = Some(screen);
        Ok(())
    }

    #[tactic(auto, unfolding(crate::specs::Sections::known_header))]
    fn known_header(&mut self, bytes: &[u8]) -> Result<(), LineFault>
        ensures { Judges (λ _. self.new) result (spec.known_header self.old bytes.now) }
    {
        let name = formed(shapes::header(bytes))?;
        let screen = known_screen(&self.config, name)?;
        self.header = Some(screen);
        Ok(())
    }

    #[tactic(auto, unfolding(crate::specs::Sections::screen_line))]
    fn screen_line(&mut self, bytes: &[u8]) -> Result<(), LineFault>
        ensures { Judges (λ _. self.new) result (spec.screen_line self.old bytes.now) }
    {
        let Some(screen) = self.header else {
            return Err(bad_from_its_begin(bytes));
        };
        let text = formed(shapes::setting(bytes))?;
        let setting = own_setting(text)?;
        self.config.set_own(screen, setting.option, setting.value);
        Ok(())
    }

    #[tactic(auto, unfolding(crate::specs::Sections::alias_line))]
    fn alias_line(&mut self, bytes: &[u8]) -> Result<(), LineFault>
        requires whole { trimmed bytes.now ≡ bytes.now }
        requires no_end { is_end bytes.now ≡ false }
        ensures { Judges (λ _. self.new) result (spec.alias_line self.old bytes.now) }
    {
        let Some(screen) = self.header else {
            return Err(bad_from_its_begin(bytes));
        };
        let name = formed(shapes::alias(bytes))?;
        new_alias(&mut self.config, screen, name, bytes.len())
    }

    #[tactic(auto, unfolding(crate::specs::Sections::link_line))]
    fn link_line(&mut self, bytes: &[u8]) -> Result<(), LineFault>
        ensures { Judges (λ _. self.new) result (spec.link_line self.old bytes.now) }
    {
        let Some(screen) = self.header else {
            return Err(bad_from_its_begin(bytes));
        };
        let text = formed(shapes::link(bytes))?;
        new_link(&mut self.config, screen, text, bytes.len())
    }

    #[tactic(auto, unfolding(crate::specs::Sections::global_line))]
    fn global_line(&mut self, bytes: &[u8]) -> Result<(), LineFault>
        ensures { Judges (λ _. self.new) result (spec.global_line self.old bytes.now) }
    {
        let text = formed(shapes::setting(bytes))?;
        let setting = global_setting(text)?;
        self.config.set_global(setting.option, setting.value);
        Ok(())
    }

    #[tactic(auto, unfolding(crate::specs::Sections::hotkey_line))]
    fn hotkey_line(&mut self, bytes: &[u8]) -> Result<(), LineFault>
        ensures { Judges (λ _. self.new) result (spec.hotkey_line self.old bytes.now) }
    {
        let form = formed(hotkey_text::hotkey(bytes))?;
        new_hotkey(&mut self.config, form, bytes.len())
    }

    fn option_line(&mut self, bytes: &[u8]) -> Result<(), LineFault>
        ensures { Judges (λ _. self.new) result (spec.option_line self.old bytes.now) }
    {
        if hotkey_text::is_hotkey(bytes) {
            return self.hotkey_line(bytes);
        }
        self.global_line(bytes)
    }

    #[tactic(auto, unfolding(crate::specs::Sections::in_section))]
    fn in_section(&mut self, section: Section, bytes: &[u8]) -> Result<(), LineFault>
        requires whole { trimmed bytes.now ≡ bytes.now }
        requires no_end { is_end bytes.now ≡ false }
        ensures { Judges (λ _. self.new) result (spec.in_section section self.old bytes.now) }
    {
        let headed = is_header(bytes);
        match section {
            Section::Screens => {
                if headed {
                    return self.screen_header(bytes);
                }
                self.screen_line(bytes)
            }
            Section::Aliases => {
                if headed {
                    return self.known_header(bytes);
                }
                self.alias_line(bytes)
            }
            Section::Links => {
                if headed {
                    return self.known_header(bytes);
                }
                self.link_line(bytes)
            }
            Section::Options => {
                if headed {
                    return Err(bad_from_its_begin(bytes));
                }
                self.option_line(bytes)
            }
        }
    }

    fn close(&mut self)
        ensures { self.new ≡ record self.old { opened = None; header = None } }
    {
        self.opened = None;
        self.header = None;
    }

    /// The words of a line, of which there is one at least. No blank stands after the last.
    #[tactic(auto, unfolding(crate::specs::Sections::words_in))]
    pub(crate) fn words(&mut self, bytes: &[u8], line: u32, column: u32) -> Result<(), LineFault>
        requires { trimmed bytes.now ≡ bytes.now }
        ensures { Judges (λ _. self.new) result (spec.words_in line column self.old bytes.now) }
    {
        let Some(opened) = self.opened else {
            return self.outside(bytes, line, column);
        };
        if bytes == b"end".as_slice() {
            self.close();
            return Ok(());
        }
        self.in_section(opened.section, bytes)
    }
}
