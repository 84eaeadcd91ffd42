//! What input events change: what the script holds down, what the gate heard, and the cursor.

ghost use Rattle.std.specs.Prelude.{◌<◌};
ghost use Rattle.machine.specs.Scripts as line;
ghost use Rattle.machine.specs.GateCalls.{hear_away};
ghost use Rattle.machine.specs.Events as events;
ghost use Rattle.screen_crossing.specs.Points.{point_of, IsPixel};
ghost use Rattle.server_core.specs.Leading.{Leads};

use crate::cursor::Cursor;
use crate::server::ServerCore;
use screen_crossing::Point;
use share_base::{Button, KeyId, MouseButton};

impl ServerCore {
    // A key goes down at a button below 256, taken by its rule, if it has one.
    pub(crate) fn hold_key(&mut self, id: KeyId, button: Button)
        requires { button.0 < 256 }
        ensures { Leads self.old self.new (events.holding (line.KeyDown id.0 button.0)) }
    {
        let rule = self.key_rule(id);
        self.pressed.key_down(id, button, rule);
    }

    // The key at a button below 256 goes up, and no rule has it any more.
    pub(crate) fn let_key_go(&mut self, button: Button)
        requires { button.0 < 256 }
        ensures { Leads self.old self.new (events.holding (line.KeyUp button.0)) }
    {
        self.pressed.key_up(button);
    }

    // A button of the mouse goes down, taken by its rule, if it has one.
    pub(crate) fn hold_button(&mut self, b: MouseButton)
        ensures { Leads self.old self.new (events.holding (line.ButtonDown b.0)) }
    {
        let rule = self.button_rule(b);
        self.pressed.button_down(b, rule);
    }

    // A button of the mouse goes up, and no rule has it any more.
    pub(crate) fn let_button_go(&mut self, b: MouseButton)
        ensures { Leads self.old self.new (events.holding (line.ButtonUp b.0)) }
    {
        self.pressed.button_up(b);
    }

    // The gate hears that a motion asked it nothing.
    pub(crate) fn hear_away(&mut self)
        ensures { Leads self.old self.new hear_away }
    {
        self.gate.away();
    }

    // The cursor goes to a pixel of the active screen.
    pub(crate) fn put_cursor(&mut self, point: Point)
        requires { IsPixel point }
        ensures { Leads self.old self.new (λ s. record s { cursor = point_of point }) }
    {
        self.cursor = Cursor::new(point);
    }
}
