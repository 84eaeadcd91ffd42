//! From a message to its body.

ghost use Rattle.std.specs.Prelude.{◌≡◌, ◌+◌, ◌<◌, ◌≤◌, ◌++◌, ◌^◌, length, OnOk, OnErr};
ghost use Rattle.std.specs.List.{flat_map, AllByRecursion};
ghost use Rattle.std.specs.Int.{w32, to_be_bytes};
ghost use Rattle.message_codec.specs.declared.messages.End.{End};
ghost use Rattle.message_codec.specs.Fields.{spelled, Fits};
ghost use Rattle.message_codec.specs.Table.{fields, code_of, SentBy};
ghost use Rattle.message_codec.specs.Spelling.{body_of, Spells};
ghost use Rattle.message_codec.specs.FieldViews.{seen};
ghost use Rattle.share_base.specs.Fronts.{IsFront};
ghost use Rattle.wire_frames.specs.declared.limits.TheConstants.{BODY_LIMIT};

use crate::fields::{FieldRef, code, count, field};
use crate::messages::Msg;
use share_base::{Octets, OutOfMemory};

fn field_len(part: FieldRef<'_>) -> u64
    ensures value { result ≡ length (spelled (seen part.entry)) }
    ensures bound { result < 2 ^ 63 + 4 }
{
    match part {
        FieldRef::Byte(_) | FieldRef::Clip(_) | FieldRef::Mark(_) => 1,
        FieldRef::Half(_) | FieldRef::Signed(_) => 2,
        FieldRef::Word(_) => 4,
        FieldRef::Text(bytes) => 4 + bytes.len() as u64,
        FieldRef::Words(words) => 4 + 4 * words.len() as u64,
    }
}

/// How many bytes the body of a message has.
pub fn body_len(msg: &Msg) -> u64
    ensures { result ≡ length (body_of msg.now) }
{
    let mut len = code(msg).text().len() as u64;
    for i in 0..count(msg) {
        len += field_len(field(msg, i));
    }
    len
}

// Appends the bytes of each number in turn. On an error a front of them may stand there.
fn put_words(out: &mut Octets, words: &[u32]) -> Result<(), OutOfMemory>
    ensures ok { OnOk result (out.new ≡ out.old ++ flat_map (to_be_bytes w32) words.now) }
    ensures err { OnErr result (IsFront out.old out.new) }
    ensures fits { AllByRecursion (λ n. n < 2 ^ 32) words.now }
{
    for word in words {
        out.extend_u32(*word)?;
    }
    Ok(())
}

// Appends the bytes of a field. On an error a front of them may stand there.
fn put_field(out: &mut Octets, part: FieldRef<'_>) -> Result<(), OutOfMemory>
    requires { length (spelled (seen part)) ≤ BODY_LIMIT }
    ensures ok { OnOk result (out.new ≡ out.old ++ spelled (seen part.entry)) }
    ensures err { OnErr result (IsFront out.old out.new) }
    ensures fits { OnOk result (Fits (seen part.entry)) }
{
    match part {
        FieldRef::Byte(n) | FieldRef::Clip(n) | FieldRef::Mark(n) => out.push(n),
        FieldRef::Half(n) => out.extend_u16(n),
        FieldRef::Signed(n) => out.extend_u16(n.cast_unsigned()),
        FieldRef::Word(n) => out.extend_u32(n),
        FieldRef::Text(bytes) => {
            out.extend_u32(bytes.len() as u32)?;
            out.extend(bytes)
        }
        FieldRef::Words(words) => {
            out.extend_u32(words.len() as u32)?;
            put_words(out, words)
        }
    }
}

// Appends the body of a message. On an error a front of it may stand there.
fn put_body(out: &mut Octets, msg: &Msg) -> Result<(), OutOfMemory>
    requires { length (body_of msg.now) ≤ BODY_LIMIT }
    ensures ok { OnOk result (out.new ≡ out.old ++ body_of msg.now) }
    ensures err { OnErr result (IsFront out.old out.new) }
    ensures fits { OnOk result (AllByRecursion Fits (fields msg.now)) }
{
    out.extend(code(msg).text())?;
    for i in 0..count(msg) {
        put_field(out, field(msg, i))?;
    }
    Ok(())
}

/// Appends the body of a message, which has at most `BODY_LIMIT` bytes (see `body_len`). On
/// `OutOfMemory` `out` is unchanged.
pub fn encode(msg: &Msg, out: &mut Octets) -> Result<(), OutOfMemory>
    requires { length (body_of msg.now) ≤ BODY_LIMIT }
    ensures ok { OnOk result (out.new ≡ out.old ++ body_of msg.now) }
    ensures spelled { OnOk result ((from : End)
        → SentBy (code_of msg.now) from → Spells from msg.now (body_of msg.now)) }
    ensures err { OnErr result (out.new ≡ out.old) }
{
    let start = out.len();
    if let Err(error) = put_body(out, msg) {
        out.truncate(start);
        return Err(error);
    }
    Ok(())
}
