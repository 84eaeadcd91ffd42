//! What the loop drives.

ghost use Rattle.std.specs.Prelude.{◌≡◌, [], ℕ, List};
ghost use Rattle.client_core.specs.Clients.{Client};
ghost use Rattle.client_core.specs.Happenings.{took, untaken};
ghost use Rattle.attentive_links.specs.Judging as judging;
ghost use Rattle.client_loop.specs.Attendants.{Gets, Passes, MayGet, MayTake, Becomes};
ghost use Rattle.client_loop.specs.Attendants.{Reads, Prints, Clears, Releases};

use client_core::ClientEnd;
use share_base::{Lines, OutOfMemory};

/// A client over a stream and the clock. Each call leads from every client that the attendant
/// stands for to the one that the definitions give, or reads that client.
///
/// An attendant keeps the lines that it printed until they are cleared. Only `bytes` and `moment`
/// allocate.
pub trait Attendant {
    /// With that front of its lines cleared, it is that client.
    ghost stands: { Self → List ℕ → Client → Type 0 };

    /// The text of the lines that were printed and not cleared.
    ghost printed: { Self → List ℕ };

    /// Hears the next piece of the stream. On `OutOfMemory` it has heard some of the piece's
    /// messages, and takes nothing more.
    fn bytes(&mut self, piece: &[u8]) -> Result<(), OutOfMemory>
        requires { MayGet stands self.old piece.now }
        ensures { Gets stands self.old self.new result piece.now };

    /// Passes to that moment, in milliseconds. On `OutOfMemory` some lines of its script have run,
    /// and it takes nothing more.
    fn moment(&mut self, moment: u64) -> Result<(), OutOfMemory>
        ensures { Passes stands self.old self.new result moment };

    /// The link took the first `count` of the queued bytes.
    fn taken(&mut self, count: usize)
        requires { MayTake stands self.old count }
        ensures { Becomes stands self.old self.new (took count) };

    /// Returns how the client ended; `None` while it goes on.
    fn done(&self) -> Option<ClientEnd>
        ensures { Reads stands self.now result (λ c. c.done) };

    /// Returns the bytes that the link is to take, first to last.
    fn queued(&self) -> &[u8]
        ensures { Reads stands self.now result.now untaken };

    /// Returns the moment at which something is due, in milliseconds; the last of 64 bits for
    /// never.
    fn due(&self) -> u64
        ensures { Reads stands self.now result judging.due };

    /// Returns the client's own moment, in milliseconds.
    fn at(&self) -> u64
        ensures { Reads stands self.now result judging.moment };

    /// Returns the text of the lines that were printed and not cleared.
    fn lines(&self) -> &[u8]
        ensures value { result.now ≡ printed self.now }
        ensures prints { Prints stands self.now result.now };

    /// Clears the lines, once they are written.
    fn clear_lines(&mut self)
        ensures clears { Clears stands self.old self.new (printed self.old) }
        ensures empty { printed self.new ≡ [] };

    /// Ends the client: all that is down goes up, in the lines that it returns.
    fn ended(&mut self, why: ClientEnd) -> Lines
        ensures { Releases stands self.old (printed self.old) result };
}
