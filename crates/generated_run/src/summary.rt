//! What a run comes to, and how that is printed.

ghost use Rattle.std.specs.Prelude.{◌≡◌, ◌+◌, ◌≤◌, ◌++◌, [], ◌∷◌, length};
ghost use Rattle.std.specs.Fmt.{decimal};
ghost use Rattle.generated_run.specs.Summaries as spec;

use share_base::{Buffer, FixedBuffer, put_u64};

/// How many bytes a printed summary has at most.
pub const SUMMARY_CAPACITY: usize = 160;

/// How many events the script has.
const EVENTS: u64 = 2_000;

/// What a run comes to.
#[derive(Clone, Copy, Debug, PartialEq, Eq)]
pub struct Summary {
    /// The sequence number of the latest entering of a screen.
    pub switches: u32,
    /// How many frames were queued for all connections.
    pub frames: u64,
    /// How many bytes were queued for all connections.
    pub queued: u64,
    /// How many of these bytes the connections took.
    pub taken: u64,
}

/// Appends a word, a blank, a number and a newline.
fn put_line(out: &mut FixedBuffer<SUMMARY_CAPACITY>, word: &'static [u8], number: u64)
    requires { length out.old + length word.now + 22 ≤ 160 }
    ensures line { out.new ≡ out.old ++ spec.line word.now number }
    ensures bound { length out.new ≤ length out.old + length word.now + 22 }
{
    out.extend(word);
    out.extend(b" ");
    put_u64(out, number);
    out.extend(b"\n");
}

impl Summary {
    /// The five lines of the summary.
    pub fn text(&self) -> FixedBuffer<SUMMARY_CAPACITY>
        ensures { result ≡ spec.summary_text self.now }
    {
        let mut text = FixedBuffer::new();
        put_line(&mut text, b"events", EVENTS);
        put_line(&mut text, b"switches", u64::from(self.switches));
        put_line(&mut text, b"frames", self.frames);
        put_line(&mut text, b"queued", self.queued);
        put_line(&mut text, b"taken", self.taken);
        text
    }
}
