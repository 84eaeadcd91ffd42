//! From a message to the line that it is shown as.

ghost use Rattle.std.specs.Prelude.{◌≡◌, ◌<◌, ◌++◌, OnOk, OnErr};
ghost use Rattle.std.specs.List.{flat_map};
ghost use Rattle.std.specs.Fmt.{decimal, signed_decimal};
ghost use Rattle.message_codec.specs.Table.{fields};
ghost use Rattle.message_codec.specs.Showing.{after_blank, shown, show_line};
ghost use Rattle.message_codec.specs.FieldViews.{seen};
ghost use Rattle.share_base.specs.Fronts.{IsFront};
ghost use Rattle.share_base.specs.Hex.{hex};

use crate::fields::{FieldRef, code, count, field};
use crate::messages::Msg;
use share_base::{Buffer, Octets, OutOfMemory, ShortLine, hex_pair, put_i16, put_u64};

// Appends a blank and a number.
fn put_number(out: &mut Octets, number: u64) -> Result<(), OutOfMemory>
    ensures ok { OnOk result (out.new ≡ out.old ++ after_blank (decimal number)) }
    ensures err { OnErr result (out.new ≡ out.old) }
{
    let mut text = ShortLine::new();
    text.extend(b" ");
    put_u64(&mut text, number);
    out.extend(text.as_slice())
}

// Appends a blank and a signed number.
fn put_signed(out: &mut Octets, number: i16) -> Result<(), OutOfMemory>
    ensures ok { OnOk result (out.new ≡ out.old ++ after_blank (signed_decimal number)) }
    ensures err { OnErr result (out.new ≡ out.old) }
{
    let mut text = ShortLine::new();
    text.extend(b" ");
    put_i16(&mut text, number);
    out.extend(text.as_slice())
}

// Appends a blank and the digits of bytes. On an error a front of them may stand there.
fn put_hex(out: &mut Octets, bytes: &[u8]) -> Result<(), OutOfMemory>
    ensures ok { OnOk result (out.new ≡ out.old ++ after_blank (hex bytes.now)) }
    ensures err { OnErr result (IsFront out.old out.new) }
{
    if bytes.is_empty() {
        return out.extend(b" -");
    }
    out.push(b' ')?;
    for byte in bytes {
        out.extend(&hex_pair(*byte))?;
    }
    Ok(())
}

// Appends a blank and each number in turn. On an error a front of them may stand there.
fn put_words(out: &mut Octets, words: &[u32]) -> Result<(), OutOfMemory>
    ensures ok { OnOk result (out.new
        ≡ out.old ++ flat_map (λ n. after_blank (decimal n)) words.now) }
    ensures err { OnErr result (IsFront out.old out.new) }
{
    for word in words {
        put_number(out, *word as u64)?;
    }
    Ok(())
}

// Appends a blank and a field. On an error a front of them may stand there.
fn put_shown(out: &mut Octets, part: FieldRef<'_>) -> Result<(), OutOfMemory>
    ensures ok { OnOk result (out.new ≡ out.old ++ after_blank (shown (seen part.entry))) }
    ensures err { OnErr result (IsFront out.old out.new) }
{
    match part {
        FieldRef::Byte(n) | FieldRef::Clip(n) | FieldRef::Mark(n) => put_number(out, n as u64),
        FieldRef::Half(n) => put_number(out, n as u64),
        FieldRef::Signed(n) => put_signed(out, n),
        FieldRef::Word(n) => put_number(out, n as u64),
        FieldRef::Text(bytes) => put_hex(out, bytes),
        FieldRef::Words(words) => {
            put_number(out, words.len() as u64)?;
            put_words(out, words)
        }
    }
}

// Appends the line of a message. On an error a front of it may stand there.
fn put_line(out: &mut Octets, msg: &Msg) -> Result<(), OutOfMemory>
    ensures ok { OnOk result (out.new ≡ out.old ++ show_line msg.now) }
    ensures err { OnErr result (IsFront out.old out.new) }
{
    out.extend(code(msg).text())?;
    for i in 0..count(msg) {
        put_shown(out, field(msg, i))?;
    }
    Ok(())
}

/// Appends the line that a message is shown as, without a newline: its code, and then each field
/// after one blank. Integers are decimal, strings and names pairs of hexadecimal digits, or `-`
/// where they are empty. A list has its count first. On `OutOfMemory` `out` is unchanged.
pub fn show(msg: &Msg, out: &mut Octets) -> Result<(), OutOfMemory>
    ensures ok { OnOk result (out.new ≡ out.old ++ show_line msg.now) }
    ensures err { OnErr result (out.new ≡ out.old) }
{
    let start = out.len();
    if let Err(error) = put_line(out, msg) {
        out.truncate(start);
        return Err(error);
    }
    Ok(())
}
