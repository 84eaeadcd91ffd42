//! The primary's lines, each after `local `.

ghost use Rattle.std.specs.Prelude.{◌≡◌, ◌≤◌, ◌<◌, ◌+◌, ◌*◌, ◌++◌, length, take, drop};
ghost use Rattle.server_log.specs.LocalText.{local_text, local_rest};

use share_base::Buffer;

/// What stands before each line of the primary.
pub const LOCAL: &[u8] = b"local ";

/// How many bytes each byte of a line may become: one that begins a line has `LOCAL` before it.
pub const LOCAL_GROWTH: usize = 7;

// The number of bytes up to the first newline, and with it; all bytes where there is none.
fn first_line_len(bytes: &[u8]) -> usize
    ensures within { result ≤ length bytes.now }
    ensures some { 0 < length bytes.now → 0 < result }
    ensures cut { local_rest bytes.now
        ≡ take result bytes.now ++ local_text (drop result bytes.now) }
{
    for (i, byte) in bytes.iter().enumerate() {
        if *byte == b'\n' {
            return i + 1;
        }
    }
    bytes.len()
}

/// Appends each line after `LOCAL`, in a buffer that has room for all.
pub fn put_local_lines<B: Buffer>(text: &mut B, lines: &[u8])
    requires { length (B.content text.old) + LOCAL_GROWTH * length lines.now
        ≤ B.capacity text.old }
    ensures { B.content text.new ≡ B.content text.old ++ local_text lines.now }
{
    let mut rest = lines;
    while !rest.is_empty() {
        let len = first_line_len(rest);
        text.extend(LOCAL);
        text.extend(&rest[..len]);
        rest = &rest[len..];
    }
}
