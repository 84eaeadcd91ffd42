//! One rule.

ghost use Rattle.std.specs.Prelude.{◌≡◌};
ghost use Rattle.hotkey_rules.specs.Triggers.{same_trigger};

use crate::actions::Actions;
use crate::trigger::Trigger;

/// A hotkey: what sets it off, and what it does.
#[derive(Debug, Drop)]
pub struct Rule {
    /// What sets it off.
    pub trigger: Trigger,
    /// What is done when its trigger goes down.
    pub press: Actions,
    /// What is done when its trigger goes up again.
    pub release: Actions,
}

impl Rule {
    /// Whether it has that trigger.
    pub(crate) fn has_trigger(&self, trigger: Trigger) -> bool
        ensures { result ≡ same_trigger self.now.trigger trigger }
    {
        self.trigger == trigger
    }
}
