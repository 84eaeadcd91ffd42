//! The fields of each message, read from what follows its code.

ghost use Rattle.std.specs.Prelude.{◌≡◌, [], map};
ghost use Rattle.message_codec.specs.Fields.{kind_of};
ghost use Rattle.message_codec.specs.Reading.{read_fields};
ghost use Rattle.message_codec.specs.Table.{kinds, fields, code_of};
ghost use Rattle.message_codec.specs.Drafts.{GivesMsg, GivesDraft};

use crate::coding::Code;
use crate::drafts::Draft;
use crate::messages::Msg;
use crate::reading::{ReadError, i16_at, octets_at, u8_at, u16_at, u32_at, words_of};
use std::alloc::Global;

#[tactic(auto, unfolding(crate::specs::Reading::read_fields))]
fn plain(msg: Msg, bytes: &[u8]) -> Result<(Msg, &[u8]), ReadError>
    requires { fields msg ≡ [] }
    ensures { GivesMsg (code_of msg) result (read_fields (map kind_of (fields msg)) bytes.now) }
{
    Ok((msg, bytes))
}

#[tactic(auto, unfolding(crate::specs::Reading::read_fields))]
fn hello(bytes: &[u8]) -> Result<(Msg, &[u8]), ReadError>
    ensures { GivesMsg Code.Hello result (read_fields (kinds Code.Hello) bytes.now) }
{
    let (major, rest) = u16_at(bytes)?;
    let (minor, rest) = u16_at(rest)?;
    Ok((Msg::Hello { major, minor }, rest))
}

#[tactic(auto, unfolding(crate::specs::Reading::read_fields))]
fn hello_back(alloc: Global, bytes: &[u8]) -> Result<(Msg, &[u8]), ReadError>
    ensures { GivesMsg Code.HelloBack result (read_fields (kinds Code.HelloBack) bytes.now) }
{
    let (major, rest) = u16_at(bytes)?;
    let (minor, rest) = u16_at(rest)?;
    let (name, rest) = octets_at(alloc, rest)?;
    Ok((Msg::HelloBack { major, minor, name }, rest))
}

#[tactic(auto, unfolding(crate::specs::Reading::read_fields))]
fn enter(bytes: &[u8]) -> Result<(Msg, &[u8]), ReadError>
    ensures { GivesMsg Code.Enter result (read_fields (kinds Code.Enter) bytes.now) }
{
    let (x, rest) = i16_at(bytes)?;
    let (y, rest) = i16_at(rest)?;
    let (seq, rest) = u32_at(rest)?;
    let (mask, rest) = u16_at(rest)?;
    Ok((Msg::Enter { x, y, seq, mask }, rest))
}

#[tactic(auto, unfolding(crate::specs::Reading::read_fields))]
fn saver(bytes: &[u8]) -> Result<(Msg, &[u8]), ReadError>
    ensures { GivesMsg Code.Saver result (read_fields (kinds Code.Saver) bytes.now) }
{
    let (on, rest) = u8_at(bytes)?;
    Ok((Msg::Saver { on }, rest))
}

#[tactic(auto, unfolding(crate::specs::Reading::read_fields))]
fn set_options(alloc: Global, bytes: &[u8]) -> Result<(Msg, &[u8]), ReadError>
    ensures { GivesMsg Code.SetOptions result (read_fields (kinds Code.SetOptions) bytes.now) }
{
    let (count, rest) = u32_at(bytes)?;
    let (words, rest) = words_of(alloc, count, rest)?;
    Ok((Msg::SetOptions { words }, rest))
}

#[tactic(auto, unfolding(crate::specs::Reading::read_fields))]
fn key_down(bytes: &[u8]) -> Result<(Msg, &[u8]), ReadError>
    ensures { GivesMsg Code.KeyDown result (read_fields (kinds Code.KeyDown) bytes.now) }
{
    let (id, rest) = u16_at(bytes)?;
    let (mask, rest) = u16_at(rest)?;
    let (button, rest) = u16_at(rest)?;
    Ok((Msg::KeyDown { id, mask, button }, rest))
}

#[tactic(auto, unfolding(crate::specs::Reading::read_fields))]
fn key_repeat(bytes: &[u8]) -> Result<(Msg, &[u8]), ReadError>
    ensures { GivesMsg Code.KeyRepeat result (read_fields (kinds Code.KeyRepeat) bytes.now) }
{
    let (id, rest) = u16_at(bytes)?;
    let (mask, rest) = u16_at(rest)?;
    let (count, rest) = u16_at(rest)?;
    let (button, rest) = u16_at(rest)?;
    Ok((
        Msg::KeyRepeat {
            id,
            mask,
            count,
            button,
        },
        rest,
    ))
}

#[tactic(auto, unfolding(crate::specs::Reading::read_fields))]
fn key_up(bytes: &[u8]) -> Result<(Msg, &[u8]), ReadError>
    ensures { GivesMsg Code.KeyUp result (read_fields (kinds Code.KeyUp) bytes.now) }
{
    let (id, rest) = u16_at(bytes)?;
    let (mask, rest) = u16_at(rest)?;
    let (button, rest) = u16_at(rest)?;
    Ok((Msg::KeyUp { id, mask, button }, rest))
}

#[tactic(auto, unfolding(crate::specs::Reading::read_fields))]
fn button_down(bytes: &[u8]) -> Result<(Msg, &[u8]), ReadError>
    ensures { GivesMsg Code.ButtonDown result (read_fields (kinds Code.ButtonDown) bytes.now) }
{
    let (b, rest) = u8_at(bytes)?;
    Ok((Msg::ButtonDown { b }, rest))
}

#[tactic(auto, unfolding(crate::specs::Reading::read_fields))]
fn button_up(bytes: &[u8]) -> Result<(Msg, &[u8]), ReadError>
    ensures { GivesMsg Code.ButtonUp result (read_fields (kinds Code.ButtonUp) bytes.now) }
{
    let (b, rest) = u8_at(bytes)?;
    Ok((Msg::ButtonUp { b }, rest))
}

#[tactic(auto, unfolding(crate::specs::Reading::read_fields))]
fn move_to(bytes: &[u8]) -> Result<(Msg, &[u8]), ReadError>
    ensures { GivesMsg Code.MoveTo result (read_fields (kinds Code.MoveTo) bytes.now) }
{
    let (x, rest) = i16_at(bytes)?;
    let (y, rest) = i16_at(rest)?;
    Ok((Msg::MoveTo { x, y }, rest))
}

#[tactic(auto, unfolding(crate::specs::Reading::read_fields))]
fn move_by(bytes: &[u8]) -> Result<(Msg, &[u8]), ReadError>
    ensures { GivesMsg Code.MoveBy result (read_fields (kinds Code.MoveBy) bytes.now) }
{
    let (dx, rest) = i16_at(bytes)?;
    let (dy, rest) = i16_at(rest)?;
    Ok((Msg::MoveBy { dx, dy }, rest))
}

#[tactic(auto, unfolding(crate::specs::Reading::read_fields))]
fn wheel(bytes: &[u8]) -> Result<(Msg, &[u8]), ReadError>
    ensures { GivesMsg Code.Wheel result (read_fields (kinds Code.Wheel) bytes.now) }
{
    let (dx, rest) = i16_at(bytes)?;
    let (dy, rest) = i16_at(rest)?;
    Ok((Msg::Wheel { dx, dy }, rest))
}

#[tactic(auto, unfolding(crate::specs::Reading::read_fields))]
fn bad_version(bytes: &[u8]) -> Result<(Msg, &[u8]), ReadError>
    ensures { GivesMsg Code.BadVersion result (read_fields (kinds Code.BadVersion) bytes.now) }
{
    let (major, rest) = u16_at(bytes)?;
    let (minor, rest) = u16_at(rest)?;
    Ok((Msg::BadVersion { major, minor }, rest))
}

#[tactic(auto, unfolding(crate::specs::Reading::read_fields))]
fn info(bytes: &[u8]) -> Result<(Msg, &[u8]), ReadError>
    ensures { GivesMsg Code.Info result (read_fields (kinds Code.Info) bytes.now) }
{
    let (x, rest) = i16_at(bytes)?;
    let (y, rest) = i16_at(rest)?;
    let (w, rest) = u16_at(rest)?;
    let (h, rest) = u16_at(rest)?;
    let (warp, rest) = u16_at(rest)?;
    let (mx, rest) = i16_at(rest)?;
    let (my, rest) = i16_at(rest)?;
    Ok((
        Msg::Info {
            x,
            y,
            w,
            h,
            warp,
            mx,
            my,
        },
        rest,
    ))
}

#[tactic(auto, unfolding(crate::specs::Reading::read_fields))]
fn grab(bytes: &[u8]) -> Result<(Draft, &[u8]), ReadError>
    ensures { GivesDraft Code.Grab result (read_fields (kinds Code.Grab) bytes.now) }
{
    let (clip, rest) = u8_at(bytes)?;
    let (seq, rest) = u32_at(rest)?;
    Ok((Draft::Grab { clip, seq }, rest))
}

#[tactic(auto, unfolding(crate::specs::Reading::read_fields))]
fn clip_part(alloc: Global, bytes: &[u8]) -> Result<(Draft, &[u8]), ReadError>
    ensures { GivesDraft Code.ClipPart result (read_fields (kinds Code.ClipPart) bytes.now) }
{
    let (clip, rest) = u8_at(bytes)?;
    let (seq, rest) = u32_at(rest)?;
    let (mark, rest) = u8_at(rest)?;
    let (text, rest) = octets_at(alloc, rest)?;
    Ok((
        Draft::ClipPart {
            clip,
            seq,
            mark,
            bytes: text,
        },
        rest,
    ))
}

#[tactic(auto, unfolding(crate::specs::Reading::read_fields))]
fn file_part(alloc: Global, bytes: &[u8]) -> Result<(Msg, &[u8]), ReadError>
    ensures { GivesMsg Code.FilePart result (read_fields (kinds Code.FilePart) bytes.now) }
{
    let (mark, rest) = u8_at(bytes)?;
    let (text, rest) = octets_at(alloc, rest)?;
    Ok((Msg::FilePart { mark, bytes: text }, rest))
}

#[tactic(auto, unfolding(crate::specs::Reading::read_fields))]
fn drag_info(alloc: Global, bytes: &[u8]) -> Result<(Msg, &[u8]), ReadError>
    ensures { GivesMsg Code.DragInfo result (read_fields (kinds Code.DragInfo) bytes.now) }
{
    let (count, rest) = u16_at(bytes)?;
    let (text, rest) = octets_at(alloc, rest)?;
    Ok((Msg::DragInfo { count, bytes: text }, rest))
}

/// A message of this code, and the bytes after it.
pub fn draft_at(alloc: Global, code: Code, bytes: &[u8]) -> Result<(Draft, &[u8]), ReadError>
    ensures { GivesDraft code result (read_fields (kinds code) bytes.now) }
{
    let (msg, rest) = match code {
        Code::Hello => hello(bytes)?,
        Code::HelloBack => hello_back(alloc, bytes)?,
        Code::QueryInfo => plain(Msg::QueryInfo, bytes)?,
        Code::InfoAck => plain(Msg::InfoAck, bytes)?,
        Code::ResetOptions => plain(Msg::ResetOptions, bytes)?,
        Code::Bye => plain(Msg::Bye, bytes)?,
        Code::Enter => enter(bytes)?,
        Code::Leave => plain(Msg::Leave, bytes)?,
        Code::Saver => saver(bytes)?,
        Code::SetOptions => set_options(alloc, bytes)?,
        Code::KeyDown => key_down(bytes)?,
        Code::KeyRepeat => key_repeat(bytes)?,
        Code::KeyUp => key_up(bytes)?,
        Code::ButtonDown => button_down(bytes)?,
        Code::ButtonUp => button_up(bytes)?,
        Code::MoveTo => move_to(bytes)?,
        Code::MoveBy => move_by(bytes)?,
        Code::Wheel => wheel(bytes)?,
        Code::BadVersion => bad_version(bytes)?,
        Code::Busy => plain(Msg::Busy, bytes)?,
        Code::Unknown => plain(Msg::Unknown, bytes)?,
        Code::Malformed => plain(Msg::Malformed, bytes)?,
        Code::Noop => plain(Msg::Noop, bytes)?,
        Code::Info => info(bytes)?,
        Code::Alive => plain(Msg::Alive, bytes)?,
        Code::Grab => return grab(bytes),
        Code::ClipPart => return clip_part(alloc, bytes),
        Code::FilePart => file_part(alloc, bytes)?,
        Code::DragInfo => drag_info(alloc, bytes)?,
    };
    Ok((Draft::Ready(msg), rest))
}
