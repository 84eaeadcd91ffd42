//! The start of a server.

ghost use Rattle.std.specs.Prelude.{◌≡◌, [], false, length, IfOk};
ghost use Rattle.share_base.specs.Shapes.{IsScreenShape};
ghost use Rattle.script_screen.specs.Scripts.{ScreensBelow};
ghost use Rattle.machine.specs.Acceptance as acceptance;
ghost use Rattle.machine.specs.Acceptance.{start};
ghost use Rattle.server_core.specs.Scripts.{script_of};
ghost use Rattle.server_core.specs.Standing.{Stands, nothing_told};
ghost use Rattle.server_core.specs.Promises.{Runs, origin};

use crate::clock::Clock;
use crate::cursor::Cursor;
use crate::primary::{PrimaryShape, ServedScript};
use crate::server::ServerCore;
use crate::target::Target;
use clip_chunks::ClipBook;
use connection_table::Table;
use pressed_inputs::Pressed;
use screen_config::Config;
use screen_crossing::{SwitchGate, middle};
use script_screen::Script;
use server_log::{Log, Primary};
use share_base::{OutOfMemory, Shape};

/// How many bytes a unit of the option on shared clipboards has.
pub(crate) const SHARING_UNIT: u32 = 1024;

// The shape of the primary screen.
fn first_shape(script: &Script) -> Shape
    ensures shape { result ≡ acceptance.first_shape (script_of script.now) }
    ensures screen { IsScreenShape result }
{
    Shape {
        x: 0,
        y: 0,
        w: script.w() as i32,
        h: script.h() as i32,
    }
}

impl ServerCore {
    /// Begins a server at that moment, in milliseconds; a moment above `LAST_MOMENT` counts as that
    /// one, here and in every call. Every screen of the script is one of the configuration. The
    /// primary screen is active, with the cursor at its middle, and nothing is down.
    pub fn new(config: Config, script: Script, now: u64) -> Result<ServerCore, OutOfMemory>
        requires { ScreensBelow (length config.screens) script }
        ensures stands { IfOk result
            (λ core. Stands nothing_told core (start config (script_of script) now)) }
        ensures runs { IfOk result (λ core. Runs (origin config script now) 0 [] core
            (start config (script_of script) now)) }
        ensures whole { IfOk result (λ core. core.is_broken ≡ false) }
    {
        config.assure_sound();
        let width = script.w();
        let _ = width;
        let _count = config.count();
        let alloc = config.alloc();
        let shape = first_shape(&script);
        let limit = config.globals().clipboard_sharing_size * SHARING_UNIT;
        let screen = script.primary();
        let script = ServedScript::new(script);
        let primary_shape = PrimaryShape::new(shape);
        let at = Clock::new(now);
        let table = Table::new(alloc);
        let point = middle(&shape);
        let cursor = Cursor::new(point);
        let gate = SwitchGate::new(&config);
        let pressed = Pressed::new();
        let clips = ClipBook::new(alloc, screen, limit);
        let primary = Primary::new(alloc);
        let log = Log::new(alloc);
        Ok(ServerCore {
            config,
            script,
            primary_shape,
            ran: 0,
            sleeps_until: None,
            has_quit: false,
            at,
            table,
            active: Target::Primary,
            cursor,
            sequence: 0,
            is_locked: false,
            gate,
            pressed,
            clips,
            primary,
            log,
            is_broken: false,
        })
    }
}
