//! Where the bytes of known clipboards come from. The calls do nothing: their contracts are the laws.

ghost use Rattle.clip_origins.specs.Arrivals.{ArrivalsCameWithPieces};
ghost use Rattle.clip_origins.specs.Sources.{KnownHaveSources};

/// In every state that the machine reaches, where a clipboard's bytes are known, a line of the
/// script that ran copied them at the kept sequence, or a client sent them. Then a message arrived
/// from the connection that was joined as the clipboard's owner of that moment, and with it all
/// that this connection had sent had one whole clipboard more: those bytes, with the kept sequence.
/// Either way clipboards were shared, and the bytes were within their limit.
pub fn known_have_sources()
    ensures { KnownHaveSources }
{}

/// Each message of a client arrives with a piece of its connection: all bytes of that connection up
/// to and with that piece come to the messages that it had sent earlier, then this one, and maybe
/// later ones.
pub fn arrivals_came_with_pieces()
    ensures { ArrivalsCameWithPieces }
{}
