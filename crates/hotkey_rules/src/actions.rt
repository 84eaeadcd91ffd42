//! Lists of actions.

ghost use Rattle.std.specs.Prelude.{◌≡◌, ◌++◌, ◌∷◌, [], OnOk, OnErr};

use crate::action::Action;
use share_base::OutOfMemory;
use std::alloc::Global;
use std::marker::Model;

/// A list of actions that grows. Contracts see it as a list. The actions are done first to last.
#[derive(Debug, Drop)]
pub struct Actions {
    actions: Vec<Action>,
}

impl Model for Actions {
    ghost use Rattle.std.specs.Prelude.{List};
    ghost use Rattle.hotkey_rules.specs.declared.action.Action.{Action as OneAction};

    ghost Value = { List OneAction };

    ghost view = { λ a. a.actions.items };
}

impl Actions {
    /// No action. Later calls take their memory from `alloc`; this one takes none.
    pub fn new(alloc: Global) -> Actions
        ensures { result ≡ [] }
    {
        Actions {
            actions: Vec::new(alloc),
        }
    }

    /// Adds an action after the others. After `OutOfMemory` the list is unchanged.
    pub fn push(&mut self, action: Action) -> Result<(), OutOfMemory>
        ensures ok { OnOk result (self.new ≡ self.old ++ action ∷ []) }
        ensures err { OnErr result (self.new ≡ self.old) }
    {
        self.actions.push(action)?;
        Ok(())
    }

    /// The actions, first to last.
    pub fn as_slice(&self) -> &[Action]
        ensures { result.now ≡ self.now }
    {
        self.actions.as_slice()
    }
}
