//! The end of a run: what is down goes up, and the link is closed.

ghost use Rattle.std.specs.Prelude.{◌≡◌, [], false, List, ℕ};
ghost use Rattle.share_base.specs.Writing.{SinkState};
ghost use Rattle.client_core.specs.Clients.{Client};
ghost use Rattle.client_loop.specs.Stages.{Course};
ghost use Rattle.client_loop.specs.Turns.{Ended};
ghost use Rattle.client_loop.specs.Ends as ends;
ghost use Rattle.client_loop.specs.Leaving as leaving;
ghost use Rattle.client_loop.specs.Leaving.{AfterRelease, ReleasesAt, IsClosed};
ghost use Rattle.client_loop.specs.Attending.{IsNewClient, Attends};

use crate::attendant::Attendant;
use crate::turns::write_lines;
use client_core::ClientEnd;
use hub_acts::Link;
use share_base::{Sink, write_all};

/// Whether a run ends so as the sink failed.
fn is_broken(end: ClientEnd) -> bool
    ensures { result ≡ ends.is_broken end }
{
    matches!(end, ClientEnd::WriteFault)
}

/// How a run ends whose link could not be closed.
fn unclosed(end: ClientEnd) -> ClientEnd
    ensures { result ≡ leaving.unclosed end }
{
    match end {
        ClientEnd::WriteFault => ClientEnd::WriteFault,
        _ => ClientEnd::OutOfMemory,
    }
}

/// Writes the releases of a client whose lines were all written.
fn let_go<C: Attendant, K: Sink>(core: &mut C, out: &mut K, end: ClientEnd) -> ClientEnd
    requires { C.printed core.old ≡ [] }
    ensures { (front : List ℕ) (c : Client) → C.stands core.old front c
        → AfterRelease end result front c (K.state out.old) (K.state out.new) }
{
    let releases = core.ended(end);
    if !write_all(out, releases.as_slice()) {
        return ClientEnd::WriteFault;
    }
    end
}

/// Writes the rest of the lines, and the releases after them, unless the sink has failed.
fn release<C: Attendant, K: Sink>(core: &mut C, out: &mut K, end: ClientEnd) -> ClientEnd
    ensures { (front : List ℕ) (c : Client) → C.stands core.old front c
        → ReleasesAt (ends.is_broken end) end result front c (K.state out.old) (K.state out.new) }
{
    if is_broken(end) {
        return end;
    }
    match write_lines(core, out) {
        Ok(()) => let_go(core, out, end),
        Err(fault) => fault,
    }
}

/// Closes the link.
fn close<L: Link>(link: &mut L, end: ClientEnd) -> ClientEnd
    ensures { IsClosed L.state L.leads end result link.old link.new }
{
    match link.close() {
        Ok(()) => end,
        Err(_) => unclosed(end),
    }
}

/// Ends a run whose turns came to that end.
pub(crate) fn leave<C: Attendant, L: Link, K: Sink>(
    core: &mut C,
    link: &mut L,
    out: &mut K,
    end: ClientEnd,
) -> ClientEnd
    ensures { (r : Course L) (old : SinkState) → IsNewClient r.first
        → Ended C.stands L.state L.leads r end core.old link.old old (K.state out.old)
        → Attends L.state L.leads r.first r.turns result r.link link.new old (K.state out.new) }
{
    let end = release(core, out, end);
    close(link, end)
}
