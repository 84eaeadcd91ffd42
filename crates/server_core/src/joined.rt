//! The screens that are joined.

ghost use Rattle.std.specs.Prelude.{◌≡◌, ℕ, ◌||◌};
ghost use Rattle.std.specs.List.{list_any};
ghost use Rattle.share_base.specs.Screens.{has};
ghost use Rattle.connection_table.specs.Tables.{is_joined_as};
ghost use Rattle.machine.specs.Screens.{is_screen_joined};
ghost use Rattle.server_core.specs.Leading.{Reads};

use crate::server::ServerCore;
use connection_table::Connection;
use share_base::ScreenSet;

impl ServerCore {
    /// Returns the screens that are joined; the primary always is one.
    pub(crate) fn joined_screens(&self) -> ScreenSet
        ensures { (screen : ℕ) → Reads self.now (has result screen)
            (λ s. is_screen_joined s screen) }
    {
        let mut screens = ScreenSet::new();
        screens.insert(self.primary_screen());
        add_all(&mut screens, self.table.as_slice());
        screens
    }
}

// Adds the screens as which connections are joined.
fn add_all(screens: &mut ScreenSet, connections: &[Connection])
    ensures { (k : ℕ) → has screens.new k
        ≡ (has screens.old k || list_any (is_joined_as k) connections.now) }
{
    for connection in connections {
        add_one(screens, connection);
    }
}

// Adds the screen as which a connection is joined.
fn add_one(screens: &mut ScreenSet, connection: &Connection)
    ensures { (k : ℕ) → has screens.new k ≡ (has screens.old k || is_joined_as k connection.now) }
{
    if let Some(screen) = connection.phase().joined_screen() {
        screens.insert(screen);
    }
}
