//! What a server is given of its primary screen, within bounds.

ghost use Rattle.std.specs.Prelude.{◌≡◌, ◌<◌};
ghost use Rattle.share_base.specs.Shapes.{IsScreenShape};
ghost use Rattle.script_screen.specs.Scripts.{IsScript};

use script_screen::{Script, ScriptLine};
use share_base::{ScreenNo, Shape};
use std::marker::Model;

/// A script whose primary screen has a number below 64. Contracts see its text.
#[derive(Drop)]
pub struct ServedScript {
    script: Script,
}

impl Model for ServedScript {
    ghost use Rattle.std.specs.Prelude.{◌<◌};
    ghost use Rattle.script_screen.specs.Scripts.{ScriptText};

    ghost Value = { ScriptText };

    ghost view = { λ s. s.script };

    ghost invariant = { λ s. s.script.primary.screen.0 < 64 };
}

impl ServedScript {
    /// The script, whose primary screen has a number below 64.
    pub fn new(script: Script) -> ServedScript
        requires { script.primary.screen.0 < 64 }
        ensures { result ≡ script }
    {
        ServedScript { script }
    }

    /// The primary screen, a number below 64.
    pub fn screen(&self) -> ScreenNo
        ensures screen { result ≡ self.now.primary.screen }
        ensures bound { result.0 < 64 }
    {
        self.script.primary()
    }

    /// The lines, in their order. Their numbers are in their ranges.
    pub fn lines(&self) -> &[ScriptLine]
        ensures lines { result.now ≡ self.now.lines }
        ensures sound { IsScript self.now }
    {
        self.script.lines()
    }
}

/// The shape of the primary screen, in pixels, as a screen's. Contracts see the shape.
#[derive(Drop)]
pub struct PrimaryShape {
    shape: Shape,
}

impl Model for PrimaryShape {
    ghost use Rattle.share_base.specs.Shapes.{IsScreenShape};
    ghost use Rattle.share_base.specs.declared.shape.Shape.{Shape};

    ghost Value = { Shape };

    ghost view = { λ s. s.shape };

    ghost invariant = { λ s. IsScreenShape s.shape };
}

impl PrimaryShape {
    /// The shape of a screen, as that of the primary.
    pub fn new(shape: Shape) -> PrimaryShape
        requires { IsScreenShape shape }
        ensures { result ≡ shape }
    {
        PrimaryShape { shape }
    }

    /// The shape, which is a screen's.
    pub fn shape(&self) -> Shape
        ensures shape { result ≡ self.now }
        ensures screen { IsScreenShape result }
    {
        self.shape
    }
}
