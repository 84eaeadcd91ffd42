//! The core of a command: what it does with the bytes of its stream, wherever they come from.

ghost use Rattle.std.specs.Prelude.{◌≡◌, ◌+◌, ◌^◌, ◌<◌, [], List, ℕ, Option, None, length};
ghost use Rattle.message_codec.specs.declared.messages.Msg.{Msg};
ghost use Rattle.share_commands.specs.declared.status.Status.{Status as End};
ghost use Rattle.share_commands.specs.Ways.{Way};
ghost use Rattle.share_commands.specs.Cores.{Keeps, Feeds, Clears, EndsInput, AddsLast};

use crate::status::Status;
use share_base::Lines;

/// The core of a command: it is fed a stream in whatever pieces it comes, and keeps the lines that
/// it prints of it until they are taken. It reads and writes nothing itself.
pub trait LineCore {
    /// How it prints.
    ghost way: { Self → Way };

    /// The lines that were not taken yet.
    ghost lines: { Self → List ℕ };

    /// How the command has ended, where it has.
    ghost done: { Self → Option End };

    /// How many bytes it counted.
    ghost total: { Self → ℕ };

    /// On that way, it was fed this stream and printed these messages of it, and these lines were
    /// taken.
    ghost kept: { Self → Way → List ℕ → List Msg → List ℕ → Type 0 };

    /// Prints the messages of the next piece. Fewer than 2^63 bytes are fed in all, and none once
    /// the core is done. Where memory runs out, it is done as `OutOfMemory`.
    fn feed(&mut self, piece: &[u8])
        requires goes { done self.old ≡ None }
        requires fits { total self.old + length piece.now < 2 ^ 63 }
        ensures { Feeds kept self.old self.new piece.now };

    /// Returns the lines that were printed and not taken yet.
    fn printed(&self) -> &[u8]
        ensures { result.now ≡ lines self.now };

    /// Takes the lines away, once they are written.
    fn clear_printed(&mut self)
        ensures clears { Clears kept self.old self.new (lines self.old) }
        ensures empty { lines self.new ≡ [] }
        ensures done { done self.new ≡ done self.old };

    /// Returns how the command has ended; `None` while it goes on.
    fn status(&self) -> Option<Status>
        ensures { result ≡ done self.now };

    /// Returns how the command ends where the stream ends, while it goes on.
    fn status_at_end(&self) -> Status
        requires { done self.now ≡ None }
        ensures { EndsInput kept self.now result };

    /// Returns the lines that are added at the end of the command, which ends so. It takes no
    /// memory.
    fn last_lines(&mut self, end: Status) -> Lines
        ensures { AddsLast kept self.old result };

    ghost keeps: { (core : Self) (w : Way) (stream : List ℕ) (messages : List Msg) (taken : List ℕ)
        → kept core w stream messages taken
        → Keeps w (lines core) (done core) (total core) stream messages taken };
}
