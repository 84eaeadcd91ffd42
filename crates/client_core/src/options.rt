//! The options of one message.

ghost use Rattle.std.specs.Prelude.{◌≡◌, ◌≤◌, ◌++◌, List, ℕ, OnOk, OnErr};
ghost use Rattle.std.specs.List.{flat_map};
ghost use Rattle.held_inputs.specs.Line.{line_of, room_of};
ghost use Rattle.client_core.specs.Hearing.{option_lines, SetsAll};

use client_talk::first_option;
use held_inputs::{Injector, Line, put_line};
use share_base::{OutOfMemory, ShortLine};

/// Adds one line. After `OutOfMemory` there is none more.
pub fn add_line(lines: &mut Vec<u8>, line: Line) -> Result<(), OutOfMemory>
    requires { room_of line ≤ 64 }
    ensures ok { OnOk result (lines.new.items ≡ lines.old.items ++ line_of line) }
    ensures err { OnErr result (lines.new.items ≡ lines.old.items) }
{
    let mut text = ShortLine::new();
    put_line(&mut text, line);
    lines.extend_from_slice(text.as_slice())?;
    Ok(())
}

/// Adds a line for each option. After `OutOfMemory` those of some of them are there.
pub fn add_options(lines: &mut Vec<u8>, words: &[u32]) -> Result<(), OutOfMemory>
    ensures ok { OnOk result
        (lines.new.items ≡ lines.old.items ++ flat_map line_of (option_lines words.now)) }
    ensures err { OnErr result ((more : List ℕ) × (lines.new.items ≡ lines.old.items ++ more)) }
{
    let mut rest = words;
    while let Some((code, value, more)) = first_option(rest) {
        add_line(lines, Line::SetOption { code, value })?;
        rest = more;
    }
    Ok(())
}

/// Changes the map by each option in turn.
pub fn set_options(injector: &mut Injector, words: &[u32])
    ensures { SetsAll injector.old injector.new words.now }
{
    let mut rest = words;
    while let Some((code, value, more)) = first_option(rest) {
        injector.set_option(code, value);
        rest = more;
    }
}
