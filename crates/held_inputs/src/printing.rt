//! Lines as text.

ghost use Rattle.std.specs.Prelude.{◌≡◌, ◌≤◌, ◌<◌, ◌+◌, ◌*◌, ◌++◌, [], ◌∷◌, codes, length, map};
ghost use Rattle.std.specs.Int.{w32, to_be_bytes};
ghost use Rattle.std.specs.Fmt.{decimal, signed_decimal};
ghost use Rattle.held_inputs.specs.Line.{line_of, room_of, text};
ghost use Rattle.share_base.specs.Hex.{hex};
ghost use Rattle.message_codec.specs.Showing.{after_blank};

use crate::line::Line;
use share_base::{Buffer, hex_pair, put_i16, put_u16, put_u32};

/// The longest line of a message other than an option or a clipboard, in bytes.
pub const LONGEST_LINE: usize = 37;

/// Appends a line and its newline, which have to fit: `room_of` has the most bytes that each kind
/// of line takes.
pub fn put_line<B: Buffer>(lines: &mut B, line: Line)
    requires { length (B.content lines.old) + room_of line ≤ B.capacity lines.old }
    ensures printed { B.content lines.new ≡ B.content lines.old ++ line_of line }
    ensures bound { length (B.content lines.new) ≤ length (B.content lines.old) + room_of line }
    ensures capacity { B.capacity lines.old ≤ B.capacity lines.new }
{
    match line {
        Line::Enter { x, y, seq, mask } => put_enter(lines, x, y, seq, mask),
        Line::Leave => lines.extend(b"leave\n"),
        Line::KeyDown { id, button, mask } => put_numbers(lines, b"key down", &[id, button, mask]),
        Line::KeyRepeat {
            id,
            count,
            button,
            mask,
        } => put_numbers(lines, b"key rep", &[id, count, button, mask]),
        Line::KeyUp { id, button } => put_numbers(lines, b"key up", &[id, button]),
        Line::ButtonDown { b } => put_numbers(lines, b"button down", &[b as u16]),
        Line::ButtonUp { b } => put_numbers(lines, b"button up", &[b as u16]),
        Line::MoveTo { x, y } => put_pair(lines, b"move", x, y),
        Line::MoveBy { dx, dy } => put_pair(lines, b"moveby", dx, dy),
        Line::Wheel { dx, dy } => put_pair(lines, b"wheel", dx, dy),
        Line::SaverOn => lines.extend(b"saver on\n"),
        Line::SaverOff => lines.extend(b"saver off\n"),
        Line::ResetOptions => lines.extend(b"reset options\n"),
        Line::SetOption { code, value } => put_option(lines, code, value),
        Line::Grab { clip } => put_numbers(lines, b"grab", &[clip.number() as u16]),
        Line::Clip { clip, bytes } => put_clip(lines, clip.number(), bytes.as_slice()),
    }
}

fn put_enter<B: Buffer>(lines: &mut B, x: i16, y: i16, seq: u32, mask: u16)
    requires { length (B.content lines.old) + LONGEST_LINE ≤ B.capacity lines.old }
    ensures printed { B.content lines.new ≡ B.content lines.old ++ text (codes "enter")
        (signed_decimal x ∷ signed_decimal y ∷ decimal seq ∷ decimal mask ∷ []) }
    ensures bound { length (B.content lines.new) ≤ length (B.content lines.old) + LONGEST_LINE }
    ensures capacity { B.capacity lines.old ≤ B.capacity lines.new }
{
    lines.extend(b"enter");
    put_signed_field(lines, x);
    put_signed_field(lines, y);
    lines.extend(b" ");
    put_u32(lines, seq);
    put_field(lines, mask);
    lines.extend(b"\n");
}

/// Words, and then two signed numbers.
fn put_pair<B: Buffer>(lines: &mut B, words: &[u8], first: i16, second: i16)
    requires { length (B.content lines.old) + length words.now + 15 ≤ B.capacity lines.old }
    ensures printed { B.content lines.new ≡ B.content lines.old
        ++ text words.now (signed_decimal first ∷ signed_decimal second ∷ []) }
    ensures bound { length (B.content lines.new)
        ≤ length (B.content lines.old) + length words.now + 15 }
    ensures capacity { B.capacity lines.old ≤ B.capacity lines.new }
{
    lines.extend(words);
    put_signed_field(lines, first);
    put_signed_field(lines, second);
    lines.extend(b"\n");
}

/// Words, and then numbers of two bytes.
fn put_numbers<B: Buffer>(lines: &mut B, words: &[u8], numbers: &[u16])
    requires { length (B.content lines.old) + (length words.now + 6 * length numbers.now + 1)
        ≤ B.capacity lines.old }
    ensures printed { B.content lines.new
        ≡ B.content lines.old ++ text words.now (map decimal numbers.now) }
    ensures bound { length (B.content lines.new)
        ≤ length (B.content lines.old) + (length words.now + 6 * length numbers.now + 1) }
    ensures capacity { B.capacity lines.old ≤ B.capacity lines.new }
{
    lines.extend(words);
    for number in numbers {
        put_field(lines, *number);
    }
    lines.extend(b"\n");
}

fn put_option<B: Buffer>(lines: &mut B, code: u32, value: u32)
    requires { length (B.content lines.old) + 28 ≤ B.capacity lines.old }
    ensures printed { B.content lines.new ≡ B.content lines.old
        ++ text (codes "option") (hex (to_be_bytes w32 code) ∷ decimal value ∷ []) }
    ensures bound { length (B.content lines.new) ≤ length (B.content lines.old) + 28 }
    ensures capacity { B.capacity lines.old ≤ B.capacity lines.new }
{
    lines.extend(b"option ");
    put_hex(lines, &code.to_be_bytes());
    lines.extend(b" ");
    put_u32(lines, value);
    lines.extend(b"\n");
}

fn put_clip<B: Buffer>(lines: &mut B, clip: u8, bytes: &[u8])
    requires { length (B.content lines.old) + (2 * length bytes.now + 13) ≤ B.capacity lines.old }
    ensures printed { B.content lines.new
        ≡ B.content lines.old ++ text (codes "clip") (decimal clip ∷ hex bytes.now ∷ []) }
    ensures bound { length (B.content lines.new)
        ≤ length (B.content lines.old) + (2 * length bytes.now + 13) }
    ensures capacity { B.capacity lines.old ≤ B.capacity lines.new }
{
    lines.extend(b"clip");
    put_field(lines, clip as u16);
    lines.extend(b" ");
    put_hex(lines, bytes);
    lines.extend(b"\n");
}

fn put_field<B: Buffer>(lines: &mut B, number: u16)
    requires { length (B.content lines.old) + 6 ≤ B.capacity lines.old }
    ensures printed { B.content lines.new ≡ B.content lines.old ++ after_blank (decimal number) }
    ensures bound { length (B.content lines.new) ≤ length (B.content lines.old) + 6 }
    ensures capacity { B.capacity lines.old ≤ B.capacity lines.new }
{
    lines.extend(b" ");
    put_u16(lines, number);
}

fn put_signed_field<B: Buffer>(lines: &mut B, number: i16)
    requires { length (B.content lines.old) + 7 ≤ B.capacity lines.old }
    ensures printed { B.content lines.new
        ≡ B.content lines.old ++ after_blank (signed_decimal number) }
    ensures bound { length (B.content lines.new) ≤ length (B.content lines.old) + 7 }
    ensures capacity { B.capacity lines.old ≤ B.capacity lines.new }
{
    lines.extend(b" ");
    put_i16(lines, number);
}

/// Bytes as pairs of digits, or `-` for none.
fn put_hex<B: Buffer>(lines: &mut B, bytes: &[u8])
    requires { length (B.content lines.old) + (2 * length bytes.now + 1) ≤ B.capacity lines.old }
    ensures printed { B.content lines.new ≡ B.content lines.old ++ hex bytes.now }
    ensures bound { length (B.content lines.new)
        ≤ length (B.content lines.old) + (2 * length bytes.now + 1) }
    ensures capacity { B.capacity lines.old ≤ B.capacity lines.new }
{
    if bytes.is_empty() {
        lines.extend(b"-");
        return;
    }
    for byte in bytes {
        lines.extend(&hex_pair(*byte));
    }
}
