//! The server.

use crate::clock::Clock;
use crate::cursor::Cursor;
use crate::primary::{PrimaryShape, ServedScript};
use crate::target::Target;
use clip_chunks::ClipBook;
use connection_table::Table;
use pressed_inputs::Pressed;
use screen_config::Config;
use screen_crossing::SwitchGate;
use server_log::{Log, Primary};

/// A server: its configuration and its script, the connections, the active screen with the cursor,
/// what the script holds down, the clipboards, and the log.
#[derive(Drop)]
pub struct ServerCore {
    pub(crate) config: Config,
    pub(crate) script: ServedScript,
    pub(crate) primary_shape: PrimaryShape,
    pub(crate) ran: usize,
    pub(crate) sleeps_until: Option<u64>,
    pub(crate) has_quit: bool,
    pub(crate) at: Clock,
    pub(crate) table: Table,
    pub(crate) active: Target,
    pub(crate) cursor: Cursor,
    pub(crate) sequence: u32,
    pub(crate) is_locked: bool,
    pub(crate) gate: SwitchGate,
    pub(crate) pressed: Pressed,
    pub(crate) clips: ClipBook,
    pub(crate) primary: Primary,
    pub(crate) log: Log,
    pub(crate) is_broken: bool,
}
