//! Joining a server over a link.

ghost use Rattle.std.specs.Prelude.{◌<◌, ◌^◌};
ghost use Rattle.client_core.specs.Happenings.{joining};
ghost use Rattle.client_loop.specs.Attending.{Attends};
ghost use Rattle.client_loop.specs.Joining.{Joins};

use crate::attending::attend;
use client_core::{ClientCore, ClientEnd};
use hub_acts::{CallFault, Link};
use script_screen::ClientScript;
use share_base::{ScreenName, Sink};
use std::alloc::Global;

/// Runs a new client over a connected link.
fn attend_new<L: Link, K: Sink>(
    alloc: Global,
    name: ScreenName,
    w: u16,
    h: u16,
    script: ClientScript,
    now: u64,
    turns: u64,
    link: &mut L,
    out: &mut K,
) -> ClientEnd
    requires { turns < 2 ^ 32 }
    ensures { Attends L.state L.leads (joining name w h script now) turns result
        link.old link.new (K.state out.old) (K.state out.new) }
{
    let mut core = ClientCore::new(alloc, name, w, h, script, now);
    attend(alloc, &mut core, link, out, turns)
}

/// Joins the server at that port of the host: connects the link, and runs a client over it, with a
/// screen of that name and size, in pixels, and that script. It makes at most that many turns,
/// fewer than 2^32.
///
/// `LinkFault` comes also where the link could not be connected, and `OutOfMemory` where there was
/// no memory for that: nothing is written then. Every other end is that of `attend`.
pub fn join<L: Link, K: Sink>(
    alloc: Global,
    name: ScreenName,
    host: &str,
    port: u16,
    w: u16,
    h: u16,
    script: ClientScript,
    turns: u64,
    link: &mut L,
    out: &mut K,
) -> ClientEnd
    requires { turns < 2 ^ 32 }
    ensures { Joins L.state L.leads (joining name w h script) host.now port turns result
        link.old link.new (K.state out.old) (K.state out.new) }
{
    match link.connect(host, port) {
        Ok(()) => match link.now() {
            Ok(now) => attend_new(alloc, name, w, h, script, now, turns, link, out),
            Err(_) => ClientEnd::OutOfMemory,
        },
        Err(CallFault::Failed) => ClientEnd::LinkFault,
        Err(CallFault::OutOfMemory) => ClientEnd::OutOfMemory,
    }
}
