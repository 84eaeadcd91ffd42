//! The client of injection as the core of a command.

ghost use Rattle.std.specs.Prelude.{◌≡◌};
ghost use Rattle.share_commands.specs.Endings.{status_of, client_end_of};

use crate::joining::status_of_client;
use crate::line_core::LineCore;
use crate::status::Status;
use client_core::{ClientCore, ClientEnd, LostCause};
use share_base::{Lines, Reason};

/// How `inject` ends where its client does.
fn status(end: ClientEnd) -> Status
    ensures { result ≡ status_of end }
{
    match end {
        ClientEnd::BadPeer { place, reason } => Status::BadFrames { place, reason },
        other => status_of_client(other),
    }
}

/// How the client ends where the command does. Where a client has no such end, it lost the stream.
fn client_end(end: Status) -> ClientEnd
    ensures { result ≡ client_end_of end }
{
    match end {
        Status::Ok => ClientEnd::Bye,
        Status::Refused(which) => ClientEnd::Refused(which),
        Status::BadFrames { place, reason } => ClientEnd::BadPeer { place, reason },
        Status::Lost(cause) => ClientEnd::Lost(cause),
        Status::TurnsSpent => ClientEnd::TurnsSpent,
        Status::LinkFault => ClientEnd::LinkFault,
        Status::WriteFault => ClientEnd::WriteFault,
        Status::OutOfMemory => ClientEnd::OutOfMemory,
        Status::BadConfig { .. }
        | Status::BadScript { .. }
        | Status::BadTrace { .. }
        | Status::InputTooLong
        | Status::Usage
        | Status::ReadFault
        | Status::HubFault
        | Status::BadPeer { .. } => ClientEnd::Lost(LostCause::Ended),
    }
}

impl LineCore for ClientCore {
    ghost use Rattle.std.specs.Option.{option_map};
    ghost use Rattle.client_core.specs.Kept.{lines_in};
    ghost use Rattle.share_commands.specs.Ways.{injecting};
    ghost use Rattle.share_commands.specs.Endings.{status_of};
    ghost use Rattle.share_commands.specs.Injecting.{Injected, injected_keeps};

    ghost way = { λ _. injecting };

    ghost lines = { lines_in };

    ghost done = { λ core. option_map status_of core.done };

    ghost total = { λ core. core.reader.total };

    ghost kept = { Injected };

    ghost keeps = { injected_keeps };

    fn feed(&mut self, piece: &[u8]) {
        // On `OutOfMemory` the client is done, which `status` says.
        let _ = self.bytes(piece);
    }

    fn printed(&self) -> &[u8] {
        self.lines()
    }

    fn clear_printed(&mut self) {
        self.clear_lines();
    }

    fn status(&self) -> Option<Status> {
        match self.done() {
            Some(end) => Some(status(end)),
            None => None,
        }
    }

    fn status_at_end(&self) -> Status {
        match self.pending() {
            Some(place) => Status::BadFrames {
                place,
                reason: Reason::Cut,
            },
            None => Status::Lost(LostCause::Ended),
        }
    }

    fn last_lines(&mut self, end: Status) -> Lines {
        self.ended(client_end(end))
    }
}
