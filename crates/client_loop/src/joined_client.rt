//! A client that joins a server, as the loop drives it.

ghost use Rattle.std.specs.Prelude.{};
ghost use Rattle.client_core.specs.Kept.{lines_in};
ghost use Rattle.client_loop.specs.Attendants.{StandsJoined};

use crate::attendant::Attendant;
use client_core::{ClientCore, ClientEnd};
use share_base::{Lines, OutOfMemory};

impl Attendant for ClientCore {
    ghost stands = { StandsJoined };

    ghost printed = { lines_in };

    fn bytes(&mut self, piece: &[u8]) -> Result<(), OutOfMemory> {
        ClientCore::bytes(self, piece)
    }

    fn moment(&mut self, moment: u64) -> Result<(), OutOfMemory> {
        ClientCore::moment(self, moment)
    }

    fn taken(&mut self, count: usize) {
        ClientCore::taken(self, count);
    }

    fn done(&self) -> Option<ClientEnd> {
        ClientCore::done(self)
    }

    fn queued(&self) -> &[u8] {
        ClientCore::queued(self)
    }

    fn due(&self) -> u64 {
        ClientCore::due(self)
    }

    fn at(&self) -> u64 {
        ClientCore::at(self)
    }

    fn lines(&self) -> &[u8] {
        ClientCore::lines(self)
    }

    fn clear_lines(&mut self) {
        ClientCore::clear_lines(self);
    }

    fn ended(&mut self, why: ClientEnd) -> Lines {
        ClientCore::ended(self, why)
    }
}
