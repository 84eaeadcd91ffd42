//! Lines of a text, and what of a line counts.

ghost use Rattle.std.specs.Prelude.{◌≡◌, ◌≤◌, ◌<◌, ◌∷◌, ◌==◌, length, IfSome, not};
ghost use Rattle.std.specs.List.{position};
ghost use Rattle.std.specs.Str.Lines.{lines, strip_carriage_return};
ghost use Rattle.text_lines.specs.Bytes.{is_allowed as is_allowed_byte};
ghost use Rattle.text_lines.specs.Lines as spec;
ghost use Rattle.text_lines.specs.Views.{line_seen};
ghost use Rattle.text_lines.specs.Fits.{FitsLine};

use crate::bytes::{is_allowed, is_blank, unblanked};

/// What of a line counts.
#[derive(Clone, Copy, Debug, Drop)]
pub enum TextLine<'a> {
    /// It has blanks and a comment at most.
    Empty,
    /// Outside its comment stands a byte that isn't a tab or one of the printed ones of ASCII; the
    /// first of them stands that many bytes after the line's beginning.
    Forbidden(usize),
    /// Its words, without comment and with blanks at neither end, and how many bytes the line has
    /// up to their end.
    Words(&'a [u8], usize),
}

fn place_of(bytes: &[u8], wanted: u8) -> Option<usize>
    ensures gives { result ≡ position (λ b. b == wanted) bytes.now }
    ensures below { IfSome result (λ i. i < length bytes.now) }
{
    bytes.iter().position(|byte| *byte == wanted)
}

fn first_forbidden(bytes: &[u8]) -> Option<usize>
    ensures gives { result ≡ position (λ b. not (is_allowed_byte b)) bytes.now }
    ensures below { IfSome result (λ i. i < length bytes.now) }
{
    bytes.iter().position(|byte| !is_allowed(*byte))
}

fn uncommented(bytes: &[u8]) -> &[u8]
    ensures gives { result.now ≡ spec.uncommented bytes.now }
    ensures below { length result.now ≤ length bytes.now }
{
    match place_of(bytes, b'#') {
        Some(place) => &bytes[..place],
        None => bytes,
    }
}

fn trimmed(bytes: &[u8]) -> &[u8]
    ensures gives { result.now ≡ spec.trimmed bytes.now }
    ensures below { length result.now ≤ length bytes.now }
{
    let mut rest = bytes;
    while let [front @ .., last] = rest {
        if !is_blank(*last) {
            return rest;
        }
        rest = front;
    }
    rest
}

/// What counts of a line, which is given without its line end.
#[tactic(auto, unfolding(crate::specs::Lines::line_text))]
pub fn text_line(raw: &[u8]) -> TextLine<'_>
    ensures gives { line_seen result ≡ spec.line_text raw.now }
    ensures fits { FitsLine result (length raw.now) }
{
    let text = uncommented(raw);
    if let Some(place) = first_forbidden(text) {
        return TextLine::Forbidden(place);
    }
    let text = trimmed(text);
    let words = unblanked(text);
    match words {
        [] => TextLine::Empty,
        [_, ..] => TextLine::Words(words, text.len()),
    }
}

fn without_return(line: &[u8]) -> &[u8]
    ensures gives { result.now ≡ strip_carriage_return line.now }
    ensures below { length result.now ≤ length line.now }
{
    match line {
        [front @ .., b'\r'] => front,
        _ => line,
    }
}

/// The first line of a text that isn't empty, without its LF and a CR before that, and the text
/// after it.
pub fn cut_line(text: &[u8]) -> (&[u8], &[u8])
    requires { 0 < length text.now }
    ensures lines { lines text.now ≡ result.0.now ∷ lines result.1.now }
    ensures fewer { length result.1.now < length text.now }
    ensures short { length result.0.now ≤ length text.now }
{
    match place_of(text, b'\n') {
        Some(place) => (without_return(&text[..place]), &text[place + 1..]),
        None => (text, &[]),
    }
}
