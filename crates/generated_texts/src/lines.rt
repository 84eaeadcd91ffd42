//! Printing the lines of a script's events.

ghost use Rattle.std.specs.Prelude.{◌≡◌, ◌≤◌, ◌++◌, ◌∷◌, [], List, OnOk};
ghost use Rattle.std.specs.List.{range_with_len};
ghost use Rattle.share_base.specs.Hex.{hex};
ghost use Rattle.generated_texts.specs.declared.event.Event.{Event as AnEvent};
ghost use Rattle.generated_texts.specs.Events.{IsEvent};
ghost use Rattle.generated_texts.specs.Holding.{IsDownAfter};
ghost use Rattle.generated_texts.specs.Lines as spec;

use crate::down::Down;
use crate::event::Event;
use itoa::{Buffer, Integer};
use share_base::{Octets, OutOfMemory, hex_pair};

/// How much a key's id is above its button.
const FIRST_ID: u8 = 96;

/// Appends a number in decimal digits.
fn put_number<I: Integer>(out: &mut Octets, number: I) -> Result<(), OutOfMemory>
    ensures { OnOk result (out.new ≡ out.old ++ I.text number) }
{
    out.extend(Buffer::new().format(number).as_bytes())
}

/// Appends words, a number and a newline.
fn put_one<I: Integer>(out: &mut Octets, words: &[u8], number: I) -> Result<(), OutOfMemory>
    ensures { OnOk result (out.new ≡ out.old ++ (words.now ++ (I.text number ++ 10 ∷ []))) }
{
    out.extend(words)?;
    put_number(out, number)?;
    out.push(b'\n')
}

/// Appends words, two numbers and a newline.
fn put_two<I: Integer>(
    out: &mut Octets,
    words: &[u8],
    first: I,
    second: I,
) -> Result<(), OutOfMemory>
    ensures { OnOk result (out.new
        ≡ out.old ++ (words.now ++ (I.text first ++ 32 ∷ (I.text second ++ 10 ∷ [])))) }
{
    out.extend(words)?;
    put_number(out, first)?;
    out.push(b' ')?;
    put_number(out, second)?;
    out.push(b'\n')
}

/// Appends the digits of the bytes 0, 1, 2 and so on.
fn put_bytes(out: &mut Octets, count: u8) -> Result<(), OutOfMemory>
    ensures { OnOk result (out.new ≡ out.old ++ hex (range_with_len 0 count)) }
{
    if count == 0 {
        return out.push(b'-');
    }
    for byte in 0..count {
        out.extend(&hex_pair(byte))?;
    }
    Ok(())
}

/// Appends the line of a key's button that goes down or up.
fn put_key(out: &mut Octets, is_down: bool, button: u8) -> Result<(), OutOfMemory>
    requires { button ≤ 40 }
    ensures { OnOk result (out.new ≡ out.old ++ spec.key_line is_down button) }
{
    if is_down {
        put_one(out, b"key up ", button)
    } else {
        put_two(out, b"key down ", FIRST_ID + button, button)
    }
}

/// Appends the line of a mouse button that goes down or up.
fn put_button(out: &mut Octets, is_down: bool, button: u8) -> Result<(), OutOfMemory>
    ensures { OnOk result (out.new ≡ out.old ++ spec.button_line is_down button) }
{
    if is_down {
        put_one(out, b"button up ", button)
    } else {
        put_one(out, b"button down ", button)
    }
}

/// Appends the line of a motion.
fn put_motion(out: &mut Octets, dx: i16, dy: i16) -> Result<(), OutOfMemory>
    ensures { OnOk result (out.new ≡ out.old ++ spec.motion_line dx dy) }
{
    put_two(out, b"motion ", dx, dy)
}

/// Appends the line of bytes that are copied.
fn put_copy(out: &mut Octets, count: u8) -> Result<(), OutOfMemory>
    ensures { OnOk result (out.new ≡ out.old ++ spec.copy_line count) }
{
    out.extend(b"copy 0 ")?;
    put_bytes(out, count)?;
    out.push(b'\n')
}

/// Appends the line of an event. `down` has what is down before it.
#[tactic(auto, unfolding(crate::specs::Lines::line_after))]
pub(crate) fn put_event(out: &mut Octets, down: &Down, event: Event) -> Result<(), OutOfMemory>
    requires { IsEvent event }
    ensures { (events : List AnEvent) → IsDownAfter down.now events
        → OnOk result (out.new ≡ out.old ++ spec.line_after events event) }
{
    match event {
        Event::Motion { dx, dy } => put_motion(out, dx, dy),
        Event::Wheel => out.extend(b"wheel 0 120\n"),
        Event::Key(button) => put_key(out, down.key(button), button),
        Event::Button(button) => put_button(out, down.button(button), button),
        Event::Copy(count) => put_copy(out, count),
    }
}
