//! Lines of the script, one after another.

ghost use Rattle.std.specs.Prelude.{◌≡◌, ◌<◌, ℕ, List, ◌∷◌, Some, slice_get, length, OnOk};
ghost use Rattle.std.specs.Option.{option_to_list};
ghost use Rattle.script_screen.specs.declared.script.ScriptLine.{ScriptLine as Text};
ghost use Rattle.machine.specs.Scripts.{Line};
ghost use Rattle.machine.specs.Scripts as line;
ghost use Rattle.machine.specs.States.{State};
ghost use Rattle.machine.specs.Screens.{is_screen_joined};
ghost use Rattle.machine.specs.Readings.{sleep_due};
ghost use Rattle.machine.specs.Running as running;
ghost use Rattle.server_core.specs.Lines.{line_of};
ghost use Rattle.server_core.specs.NextLine as next_line;
ghost use Rattle.server_core.specs.Goodbyes.{say_bye_at};
ghost use Rattle.server_core.specs.Standing.{Beside, Stands};
ghost use Rattle.server_core.specs.Leading.{Leads, Reads};

use crate::server::ServerCore;
use hello_states::PartCause;
use script_screen::ScriptLine;
use share_base::{Octets, OutOfMemory, ScreenNo};

impl ServerCore {
    /// Runs lines of the script while they may run.
    pub(crate) fn run_script(&mut self) -> Result<(), OutOfMemory>
        ensures { OnOk result (Leads self.old self.new running.run_script) }
    {
        let most = self.script.lines().len();
        for turn in 0..most {
            let _ = turn;
            if !self.may_run_next() {
                return Ok(());
            }
            self.run_next()?;
        }
        Ok(())
    }

    /// Tells whether there is a next line and it may run.
    pub(crate) fn may_run_next(&self) -> bool
        ensures { Reads self.now result next_line.may_run_next }
    {
        let Some(next) = self.script.lines().get(self.ran) else {
            return false;
        };
        !self.has_quit && self.is_awake() && self.is_met(next)
    }

    /// Returns the end of a sleep that holds the script, in milliseconds.
    pub(crate) fn sleep_end(&self) -> Option<u64>
        ensures { Reads self.now (option_to_list result) sleep_due }
    {
        if self.has_quit || self.is_awake() {
            return None;
        }
        self.sleeps_until
    }

    // Tells whether no sleep holds the script.
    fn is_awake(&self) -> bool
        ensures { Reads self.now result running.is_awake }
    {
        match self.sleeps_until {
            None => true,
            Some(end) => end <= self.at.moment(),
        }
    }

    // Tells whether what a line waits for is there.
    fn is_met(&self, line: &ScriptLine) -> bool
        ensures { Reads self.now result (λ s. running.is_met s (line_of line.now)) }
    {
        match line {
            ScriptLine::Await(screen) => self.has_joined(*screen),
            _ => true,
        }
    }

    // Tells whether a screen is joined. The primary always is.
    fn has_joined(&self, screen: ScreenNo) -> bool
        ensures { Reads self.now result (λ s. is_screen_joined s screen.0) }
    {
        if screen.0 == self.primary_screen().0 {
            return true;
        }
        self.table.joined_as(screen).is_some()
    }

    // Runs the next line, if there is one.
    fn run_next(&mut self) -> Result<(), OutOfMemory>
        ensures { OnOk result (Leads self.old self.new next_line.run_next) }
    {
        let next = self.ran;
        if next >= self.script.lines().len() {
            return Ok(());
        }
        self.pass_line();
        self.does(next)?;
        self.part_slow()?;
        Ok(())
    }

    // The next line, which is there, is no longer ahead.
    fn pass_line(&mut self)
        requires { self.old.ran < length self.old.script.lines }
        ensures leads { (b : Beside) (s : State) (l : Line) (rest : List Line)
            → s.lines ≡ l ∷ rest → Stands b self.old s
            → Stands b self.new (running.past rest s) }
        ensures script { self.new.script ≡ self.old.script }
    {
        let _count = self.script.lines().len();
        self.ran += 1;
        self.sleeps_until = None;
    }

    // Does what the line of that index says.
    fn does(&mut self, index: usize) -> Result<(), OutOfMemory>
        requires { index < length self.old.script.lines }
        ensures { OnOk result ((number : ℕ) (l : Text)
            → slice_get self.old.script.lines index ≡ Some l
            → Leads self.old self.new (running.does number (line_of l))) }
    {
        match &self.script.lines()[index] {
            ScriptLine::Sleep(ms) => {
                let ms = *ms;
                self.sleep(ms);
                Ok(())
            }
            ScriptLine::Await(_) => Ok(()),
            ScriptLine::KeyDown { id, button } => {
                let (id, button) = (*id, *button);
                self.key_down(id, button)?;
                Ok(())
            }
            ScriptLine::KeyRepeat { count, button } => {
                let (count, button) = (*count, *button);
                self.key_repeat(count, button)?;
                Ok(())
            }
            ScriptLine::KeyUp(button) => {
                let button = *button;
                self.key_up(button)?;
                Ok(())
            }
            ScriptLine::ButtonDown(b) => {
                let b = *b;
                self.button_down(b)?;
                Ok(())
            }
            ScriptLine::ButtonUp(b) => {
                let b = *b;
                self.button_up(b)?;
                Ok(())
            }
            ScriptLine::Motion { dx, dy } => {
                let (dx, dy) = (*dx, *dy);
                self.motion(dx, dy)?;
                Ok(())
            }
            ScriptLine::Wheel { x, y } => {
                let (x, y) = (*x, *y);
                self.wheel(x, y)?;
                Ok(())
            }
            ScriptLine::Saver(on) => {
                let on = *on;
                self.save(on)?;
                Ok(())
            }
            ScriptLine::Copy { clip, bytes } => {
                let clip = *clip;
                let mut copy = Octets::new(self.config.alloc());
                copy.extend(bytes.as_slice())?;
                self.copy(clip, copy.as_slice())?;
                Ok(())
            }
            ScriptLine::Quit => {
                self.quit()?;
                Ok(())
            }
        }
    }

    // The script sleeps for that many milliseconds from now on.
    fn sleep(&mut self, ms: u32)
        ensures { (number : ℕ) → Leads self.old self.new (running.does number (line.Sleep ms)) }
    {
        self.sleeps_until = Some(self.at.moment() + ms as u64);
    }

    // No line runs any more, and the connections that live are told goodbye and part, one after
    // another.
    fn quit(&mut self) -> Result<(), OutOfMemory>
        ensures { OnOk result (Leads self.old self.new running.quit) }
    {
        self.has_quit = true;
        let most = self.table.as_slice().len();
        for index in 0..most {
            self.say_bye_at(index)?;
        }
        Ok(())
    }

    // Tells the connection of that index goodbye and parts it, if it is there and lives.
    fn say_bye_at(&mut self, index: usize) -> Result<(), OutOfMemory>
        ensures { OnOk result (Leads self.old self.new (say_bye_at index)) }
    {
        let Some(connection) = self.table.as_slice().get(index) else {
            return Ok(());
        };
        let serial = connection.serial();
        self.say_bye(serial)?;
        Ok(())
    }

    // Tells a connection goodbye and parts it, if it lives.
    fn say_bye(&mut self, serial: u64) -> Result<(), OutOfMemory>
        ensures { OnOk result (Leads self.old self.new (running.say_bye serial)) }
    {
        if !self.lives(serial) {
            return Ok(());
        }
        self.part(PartCause::Bye, serial)?;
        Ok(())
    }
}
