//! Lines of the log in a buffer that has room for them.

ghost use Rattle.std.specs.Prelude.{◌≡◌, ◌≤◌, ◌+◌, ◌++◌, codes, length};
ghost use Rattle.std.specs.Fmt.{decimal};
ghost use Rattle.share_base.specs.Clips.{clip_number};
ghost use Rattle.message_codec.specs.Showing.{after_blank};
ghost use Rattle.machine.specs.Logs.{log_line};
ghost use Rattle.machine.specs.States.{Open, Join, Part, Closed};

use hello_states::{CAUSE_LENGTH, PartCause};
use share_base::{Buffer, ClipId, FixedBuffer, LONGEST_NAME, put_u64};

/// How many bytes a line of a name, the longest of these, has room for.
pub const LINE_CAPACITY: usize = LONGEST_NAME + 32;

/// A buffer for one line.
pub type LineBuffer = FixedBuffer<LINE_CAPACITY>;

// Appends a blank and a number, at most 21 bytes.
fn put_number<B: Buffer>(line: &mut B, number: u64)
    requires { length (B.content line.old) + 21 ≤ B.capacity line.old }
    ensures printed { B.content line.new ≡ B.content line.old ++ after_blank (decimal number) }
    ensures bound { length (B.content line.new) ≤ length (B.content line.old) + 21 }
    ensures capacity { B.capacity line.old ≤ B.capacity line.new }
{
    line.extend(b" ");
    put_u64(line, number);
}

/// Appends that a connection was accepted.
pub fn put_opened<B: Buffer>(line: &mut B, serial: u64)
    requires { length (B.content line.old) + 26 ≤ B.capacity line.old }
    ensures { B.content line.new ≡ B.content line.old ++ log_line (Open serial) }
{
    line.extend(b"open");
    put_number(line, serial);
    line.extend(b"\n");
}

/// Appends that a connection joined as the screen of a name.
pub fn put_joined<B: Buffer>(line: &mut B, serial: u64, name: &[u8])
    requires { length (B.content line.old) + length name.now + 27 ≤ B.capacity line.old }
    ensures { B.content line.new ≡ B.content line.old ++ log_line (Join serial name.now) }
{
    line.extend(b"join");
    put_number(line, serial);
    line.extend(b" ");
    line.extend(name);
    line.extend(b"\n");
}

/// Appends that a connection parted.
pub fn put_parted<B: Buffer>(line: &mut B, serial: u64, cause: PartCause)
    requires { length (B.content line.old) + CAUSE_LENGTH + 27 ≤ B.capacity line.old }
    ensures { B.content line.new ≡ B.content line.old ++ log_line (Part serial cause) }
{
    line.extend(b"part");
    put_number(line, serial);
    line.extend(b" ");
    cause.put_text(line);
    line.extend(b"\n");
}

/// Appends that a connection was closed, which had taken so many of the bytes that were queued.
pub fn put_closed<B: Buffer>(line: &mut B, serial: u64, taken: u64, queued: u64)
    requires { length (B.content line.old) + 70 ≤ B.capacity line.old }
    ensures { B.content line.new ≡ B.content line.old ++ log_line (Closed serial taken queued) }
{
    line.extend(b"closed");
    put_number(line, serial);
    put_number(line, taken);
    put_number(line, queued);
    line.extend(b"\n");
}

/// Appends the word and the number that begin the line of a message.
pub fn put_sent<B: Buffer>(line: &mut B, serial: u64)
    requires { length (B.content line.old) + 25 ≤ B.capacity line.old }
    ensures { B.content line.new
        ≡ B.content line.old ++ codes "send" ++ after_blank (decimal serial) }
{
    line.extend(b"send");
    put_number(line, serial);
}

/// Appends the words and the number that begin the line of the primary's clipboard.
pub fn put_local_clip<B: Buffer>(line: &mut B, clip: ClipId)
    requires { length (B.content line.old) + 31 ≤ B.capacity line.old }
    ensures { B.content line.new
        ≡ B.content line.old ++ codes "local clip" ++ after_blank (decimal (clip_number clip)) }
{
    line.extend(b"local clip");
    put_number(line, clip.number() as u64);
}
