//! The fields of a message, one by one.

ghost use Rattle.std.specs.Prelude.{◌≡◌, ◌<◌, ◌≤◌, Some, length, slice_get};
ghost use Rattle.message_codec.specs.Table.{code_of, fields};
ghost use Rattle.message_codec.specs.FieldViews.{seen};

use crate::coding::Code;
use crate::messages::Msg;

/// A field, as the message has it.
#[derive(Clone, Copy, Debug)]
pub enum FieldRef<'a> {
    /// An integer of one byte.
    Byte(u8),
    /// An integer of two bytes.
    Half(u16),
    /// A signed integer of two bytes.
    Signed(i16),
    /// An integer of four bytes.
    Word(u32),
    /// The number of a clipboard.
    Clip(u8),
    /// The number of a clipboard's part.
    Mark(u8),
    /// A string.
    Text(&'a [u8]),
    /// A list of integers of four bytes.
    Words(&'a [u32]),
}

/// The code of a message.
pub fn code(msg: &Msg) -> Code
    ensures { result ≡ code_of msg.now }
{
    match msg {
        Msg::Hello { .. } => Code::Hello,
        Msg::HelloBack { .. } => Code::HelloBack,
        Msg::QueryInfo => Code::QueryInfo,
        Msg::InfoAck => Code::InfoAck,
        Msg::ResetOptions => Code::ResetOptions,
        Msg::Bye => Code::Bye,
        Msg::Enter { .. } => Code::Enter,
        Msg::Leave => Code::Leave,
        Msg::Saver { .. } => Code::Saver,
        Msg::SetOptions { .. } => Code::SetOptions,
        Msg::KeyDown { .. } => Code::KeyDown,
        Msg::KeyRepeat { .. } => Code::KeyRepeat,
        Msg::KeyUp { .. } => Code::KeyUp,
        Msg::ButtonDown { .. } => Code::ButtonDown,
        Msg::ButtonUp { .. } => Code::ButtonUp,
        Msg::MoveTo { .. } => Code::MoveTo,
        Msg::MoveBy { .. } => Code::MoveBy,
        Msg::Wheel { .. } => Code::Wheel,
        Msg::BadVersion { .. } => Code::BadVersion,
        Msg::Busy => Code::Busy,
        Msg::Unknown => Code::Unknown,
        Msg::Malformed => Code::Malformed,
        Msg::Noop => Code::Noop,
        Msg::Info { .. } => Code::Info,
        Msg::Alive => Code::Alive,
        Msg::Grab { .. } => Code::Grab,
        Msg::ClipPart { .. } => Code::ClipPart,
        Msg::FilePart { .. } => Code::FilePart,
        Msg::DragInfo { .. } => Code::DragInfo,
    }
}

/// How many fields a message has, at most 7.
pub fn count(msg: &Msg) -> usize
    ensures value { result ≡ length (fields msg.now) }
    ensures bound { result ≤ 7 }
{
    match msg {
        Msg::QueryInfo
        | Msg::InfoAck
        | Msg::ResetOptions
        | Msg::Bye
        | Msg::Leave
        | Msg::Busy
        | Msg::Unknown
        | Msg::Malformed
        | Msg::Noop
        | Msg::Alive => 0,
        Msg::Saver { .. }
        | Msg::SetOptions { .. }
        | Msg::ButtonDown { .. }
        | Msg::ButtonUp { .. } => 1,
        Msg::Hello { .. }
        | Msg::MoveTo { .. }
        | Msg::MoveBy { .. }
        | Msg::Wheel { .. }
        | Msg::BadVersion { .. }
        | Msg::Grab { .. }
        | Msg::FilePart { .. }
        | Msg::DragInfo { .. } => 2,
        Msg::HelloBack { .. } | Msg::KeyDown { .. } | Msg::KeyUp { .. } => 3,
        Msg::Enter { .. } | Msg::KeyRepeat { .. } | Msg::ClipPart { .. } => 4,
        Msg::Info { .. } => 7,
    }
}

/// The field of that index, which has to be below the count.
pub fn field(msg: &Msg, i: usize) -> FieldRef<'_>
    requires { i < length (fields msg.now) }
    ensures { slice_get (fields msg.now) i ≡ Some (seen result) }
{
    match msg {
        Msg::QueryInfo
        | Msg::InfoAck
        | Msg::ResetOptions
        | Msg::Bye
        | Msg::Leave
        | Msg::Busy
        | Msg::Unknown
        | Msg::Malformed
        | Msg::Noop
        | Msg::Alive => unreachable!(),
        Msg::Hello { major, minor } => match i {
            0 => FieldRef::Half(*major),
            1 => FieldRef::Half(*minor),
            _ => unreachable!(),
        },
        Msg::HelloBack { major, minor, name } => match i {
            0 => FieldRef::Half(*major),
            1 => FieldRef::Half(*minor),
            2 => FieldRef::Text(name.as_slice()),
            _ => unreachable!(),
        },
        Msg::Enter { x, y, seq, mask } => match i {
            0 => FieldRef::Signed(*x),
            1 => FieldRef::Signed(*y),
            2 => FieldRef::Word(*seq),
            3 => FieldRef::Half(*mask),
            _ => unreachable!(),
        },
        Msg::Saver { on } => FieldRef::Byte(*on),
        Msg::SetOptions { words } => FieldRef::Words(words.as_slice()),
        Msg::KeyDown { id, mask, button } => match i {
            0 => FieldRef::Half(*id),
            1 => FieldRef::Half(*mask),
            2 => FieldRef::Half(*button),
            _ => unreachable!(),
        },
        Msg::KeyRepeat {
            id,
            mask,
            count,
            button,
        } => match i {
            0 => FieldRef::Half(*id),
            1 => FieldRef::Half(*mask),
            2 => FieldRef::Half(*count),
            3 => FieldRef::Half(*button),
            _ => unreachable!(),
        },
        Msg::KeyUp { id, mask, button } => match i {
            0 => FieldRef::Half(*id),
            1 => FieldRef::Half(*mask),
            2 => FieldRef::Half(*button),
            _ => unreachable!(),
        },
        Msg::ButtonDown { b } => FieldRef::Byte(*b),
        Msg::ButtonUp { b } => FieldRef::Byte(*b),
        Msg::MoveTo { x, y } => match i {
            0 => FieldRef::Signed(*x),
            1 => FieldRef::Signed(*y),
            _ => unreachable!(),
        },
        Msg::MoveBy { dx, dy } => match i {
            0 => FieldRef::Signed(*dx),
            1 => FieldRef::Signed(*dy),
            _ => unreachable!(),
        },
        Msg::Wheel { dx, dy } => match i {
            0 => FieldRef::Signed(*dx),
            1 => FieldRef::Signed(*dy),
            _ => unreachable!(),
        },
        Msg::BadVersion { major, minor } => match i {
            0 => FieldRef::Half(*major),
            1 => FieldRef::Half(*minor),
            _ => unreachable!(),
        },
        Msg::Info {
            x,
            y,
            w,
            h,
            warp,
            mx,
            my,
        } => match i {
            0 => FieldRef::Signed(*x),
            1 => FieldRef::Signed(*y),
            2 => FieldRef::Half(*w),
            3 => FieldRef::Half(*h),
            4 => FieldRef::Half(*warp),
            5 => FieldRef::Signed(*mx),
            6 => FieldRef::Signed(*my),
            _ => unreachable!(),
        },
        Msg::Grab { clip, seq } => match i {
            0 => FieldRef::Clip(clip.number()),
            1 => FieldRef::Word(*seq),
            _ => unreachable!(),
        },
        Msg::ClipPart {
            clip,
            seq,
            mark,
            bytes,
        } => match i {
            0 => FieldRef::Clip(clip.number()),
            1 => FieldRef::Word(*seq),
            2 => FieldRef::Mark(mark.number()),
            3 => FieldRef::Text(bytes.as_slice()),
            _ => unreachable!(),
        },
        Msg::FilePart { mark, bytes } => match i {
            0 => FieldRef::Byte(*mark),
            1 => FieldRef::Text(bytes.as_slice()),
            _ => unreachable!(),
        },
        Msg::DragInfo { count, bytes } => match i {
            0 => FieldRef::Half(*count),
            1 => FieldRef::Text(bytes.as_slice()),
            _ => unreachable!(),
        },
    }
}
