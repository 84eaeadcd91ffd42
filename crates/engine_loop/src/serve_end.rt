//! How a run of the loop ends.

ghost use Rattle.std.specs.Prelude.{◌≡◌};
ghost use Rattle.engine_loop.specs.Ends as ends;

/// How a run of the loop ends.
#[derive(Clone, Copy, Debug, PartialEq, Eq)]
pub enum ServeEnd {
    /// The script has quit, and no connection is left.
    Quit,
    /// A wait of the hub answered that its trace is over.
    Over,
    /// As many waits were made as there were to be turns.
    TurnsSpent,
    /// A wait of the hub failed.
    HubFault,
    /// A write of the output failed.
    WriteFault,
    /// Out of memory.
    OutOfMemory,
}

impl ServeEnd {
    /// Whether the run ends at once, without the closings.
    pub(crate) fn is_failure(self) -> bool
        ensures { result ≡ ends.is_failure self }
    {
        matches!(self, ServeEnd::WriteFault | ServeEnd::OutOfMemory)
    }
}
