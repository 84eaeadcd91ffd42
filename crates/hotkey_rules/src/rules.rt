//! All rules, in the order in which they were added.

ghost use Rattle.std.specs.Prelude.{◌≡◌, ◌<◌, ◌≤◌, Some, IfSome, [], length, position};
ghost use Rattle.hotkey_rules.specs.Triggers.{same_trigger, rule_for};
ghost use Rattle.hotkey_rules.specs.Rules.{Adds, rule_of, press_of, release_of};

use crate::actions::Actions;
use crate::rule::Rule;
use crate::trigger::Trigger;
use share_base::{KeyId, Mask, MouseButton, RuleNo};
use std::alloc::Global;
use std::marker::Model;

/// How many rules are held at most.
pub const MOST_RULES: usize = 256;

/// Why a rule was not added. The variants stand in the order in which they are looked for.
#[derive(Clone, Copy, Debug, PartialEq, Eq)]
pub enum RulesFault {
    /// 256 rules are held.
    Full,
    /// Memory could not be had.
    OutOfMemory,
}

/// Rules of hotkeys, at most 256, each with a number: its place in the order in which they were
/// added, from 0. Contracts see them as a list. Of rules with one trigger the first counts.
#[derive(Debug, Drop)]
pub struct Rules {
    rules: Vec<Rule>,
}

impl Model for Rules {
    ghost use Rattle.std.specs.Prelude.{List, length, ◌≤◌};
    ghost use Rattle.hotkey_rules.specs.declared.rule.Rule.{Rule as OneRule};
    ghost use Rattle.hotkey_rules.specs.declared.rules.TheConstants.{MOST_RULES};

    ghost Value = { List OneRule };

    ghost view = { λ r. r.rules.items };

    ghost invariant = { λ r. length r.rules.items ≤ MOST_RULES };
}

impl Rules {
    /// No rules. Later calls take their memory from `alloc`; this one takes none.
    pub fn new(alloc: Global) -> Rules
        ensures { result ≡ [] }
    {
        Rules {
            rules: Vec::new(alloc),
        }
    }

    /// Adds a rule after the others. After a fault the rules are unchanged, and the lists are let
    /// go.
    pub fn add(
        &mut self,
        trigger: Trigger,
        press: Actions,
        release: Actions,
    ) -> Result<(), RulesFault>
        ensures { Adds result self.old (rule_of trigger press release) self.new }
    {
        if self.rules.len() >= MOST_RULES {
            return Err(RulesFault::Full);
        }
        let rule = Rule {
            trigger,
            press,
            release,
        };
        match self.rules.push(rule) {
            Ok(()) => Ok(()),
            Err(_) => Err(RulesFault::OutOfMemory),
        }
    }

    /// The number of the first rule whose trigger is that key with exactly those modifiers. `None`
    /// if there is none. It takes no memory.
    pub fn find_key(&self, id: KeyId, mods: Mask) -> Option<RuleNo>
        ensures finds { result ≡ rule_for self.now (Trigger.Key id mods) }
        ensures held { IfSome result (λ rule. rule.0 < length self.now) }
    {
        self.find(Trigger::Key { id, mods })
    }

    /// The number of the first rule whose trigger is that button of the mouse with exactly those
    /// modifiers. `None` if there is none. It takes no memory.
    pub fn find_button(&self, b: MouseButton, mods: Mask) -> Option<RuleNo>
        ensures finds { result ≡ rule_for self.now (Trigger.Mouse b mods) }
        ensures held { IfSome result (λ rule. rule.0 < length self.now) }
    {
        self.find(Trigger::Mouse { b, mods })
    }

    #[tactic(auto, unfolding(crate::specs::Triggers::rule_for))]
    fn find(&self, trigger: Trigger) -> Option<RuleNo>
        ensures finds { result ≡ rule_for self.now trigger }
        ensures held { IfSome result (λ rule. rule.0 < length self.now) }
    {
        match place_of(self.rules.as_slice(), trigger) {
            Some(place) => Some(RuleNo(place as u16)),
            None => None,
        }
    }

    /// What is done when the trigger of a rule goes down. The rule is held. It takes no memory.
    pub fn press(&self, rule: RuleNo) -> &Actions
        requires { rule.0 < length self.now }
        ensures { press_of self.now rule ≡ Some result.now }
    {
        &self.rules[rule.0 as usize].press
    }

    /// What is done when the trigger of a rule goes up. The rule is held. It takes no memory.
    pub fn release(&self, rule: RuleNo) -> &Actions
        requires { rule.0 < length self.now }
        ensures { release_of self.now rule ≡ Some result.now }
    {
        &self.rules[rule.0 as usize].release
    }

    /// How many rules there are, at most 256.
    pub fn len(&self) -> usize
        ensures value { result ≡ length self.now }
        ensures bound { length self.now ≤ MOST_RULES }
    {
        self.rules.len()
    }

    /// The rules, in the order in which they were added.
    pub fn as_slice(&self) -> &[Rule]
        ensures value { result.now ≡ self.now }
        ensures bound { length self.now ≤ MOST_RULES }
    {
        self.rules.as_slice()
    }
}

fn place_of(rules: &[Rule], trigger: Trigger) -> Option<usize>
    ensures finds { result ≡ position (λ rule. same_trigger rule.trigger trigger) rules.now }
    ensures held { IfSome result (λ place. place < length rules.now) }
{
    rules.iter().position(|rule| rule.has_trigger(trigger))
}
