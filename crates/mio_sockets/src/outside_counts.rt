//! The two counts of a hub or a link.

ghost use Rattle.std.specs.Prelude.{◌≡◌};
ghost use Rattle.share_base.specs.Counts.{one_more, Rises};

/// How often the object itself failed, and how often one of its connections did. Each count stops at
/// its last value.
#[derive(Clone, Copy)]
pub(crate) struct OutsideCounts {
    pub(crate) faults: u64,
    pub(crate) breaks: u64,
}

impl OutsideCounts {
    /// Counts at 0.
    pub(crate) fn new() -> OutsideCounts
        ensures { result ≡ record { faults = 0; breaks = 0 } }
    {
        OutsideCounts {
            faults: 0,
            breaks: 0,
        }
    }

    /// Counts a failure of the object itself.
    pub(crate) fn add_fault(&mut self)
        ensures value { self.new ≡ record self.old { faults = one_more self.old.faults } }
        ensures rises { Rises self.old.faults self.new.faults }
    {
        self.faults = self.faults.saturating_add(1);
    }

    /// Counts a failure of one connection.
    pub(crate) fn add_break(&mut self)
        ensures value { self.new ≡ record self.old { breaks = one_more self.old.breaks } }
        ensures rises { Rises self.old.breaks self.new.breaks }
    {
        self.breaks = self.breaks.saturating_add(1);
    }
}
