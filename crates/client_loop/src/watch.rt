//! What may still be read or written without a new mark.

ghost use Rattle.std.specs.Prelude.{◌≡◌, ◌||◌};
ghost use Rattle.attentive_links.specs.Flags.{first_flags, with_marks};
ghost use Rattle.client_loop.specs.Stages.{flags_of};

/// What the loop watches of its link.
#[derive(Drop)]
pub(crate) struct Watch {
    /// It is undrained for reading.
    pub(crate) reads: bool,
    /// It is undrained for writing.
    pub(crate) writes: bool,
}

impl Watch {
    /// There may be something to read, and nothing was marked yet.
    pub(crate) fn new() -> Watch
        ensures { flags_of result ≡ first_flags }
    {
        Watch {
            reads: true,
            writes: false,
        }
    }

    /// Heeds what a wait reports, or that more was queued.
    pub(crate) fn heed(&mut self, readable: bool, writable: bool)
        ensures { flags_of self.new ≡ with_marks readable writable (flags_of self.old) }
    {
        self.reads = self.reads || readable;
        self.writes = self.writes || writable;
    }
}
