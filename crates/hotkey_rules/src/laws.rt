//! Laws on which other crates rest. The calls do nothing: their contracts are the laws.

ghost use Rattle.std.specs.Prelude.{◌≡◌, ◌≢◌, ◌↔◌, ℕ, List, true, Some, None, IsSomeAnd, All};
ghost use Rattle.std.specs.Prelude.{AllPairs, Contains};
ghost use Rattle.share_base.specs.Names.{same_name};
ghost use Rattle.share_base.specs.declared.numbers.KeyId.{KeyId as Key};
ghost use Rattle.share_base.specs.declared.numbers.RuleNo.{RuleNo as Number};
ghost use Rattle.hotkey_rules.specs.declared.rule.Rule.{Rule as OneRule};
ghost use Rattle.hotkey_rules.specs.declared.trigger.Trigger.{Trigger as OneTrigger};
ghost use Rattle.hotkey_rules.specs.KeyNames.{named_keys, row, key_of_name, name_of_key, AreApart};
ghost use Rattle.hotkey_rules.specs.KeyNames.{IsNamed};
ghost use Rattle.hotkey_rules.specs.Triggers.{rule_for, IsFirst};

/// The rule that a trigger finds is the first that has it. None is found if and only if no rule has
/// it.
pub fn first_rule()
    ensures found { (rules : List OneRule) (t : OneTrigger) (number : Number)
        → (rule_for rules t ≡ Some number) ↔ IsFirst rules t number }
    ensures none { (rules : List OneRule) (t : OneTrigger)
        → (rule_for rules t ≡ None) ↔ All (λ rule. rule.trigger ≢ t) rules }
{}

/// No two rows of the table of named keys have one id, or names that are the same in capital or
/// small letters.
pub fn rows_apart()
    ensures { AllPairs AreApart named_keys }
{}

/// The key of a name is the one in that name's row, and the name of a key the one in that key's
/// row.
pub fn row_found()
    ensures by_name { (name : List ℕ) (id : Key) → (key_of_name name ≡ Some id) ↔ IsNamed name id }
    ensures by_id { (id : Key) (name : List ℕ)
        → (name_of_key id ≡ Some name) ↔ Contains named_keys (row name id.0) }
{}

/// The key of a name is given that name back, maybe in other letters; the name of a key is given
/// that key back.
pub fn names_given_back()
    ensures named { (name : List ℕ) (id : Key) → key_of_name name ≡ Some id
        → IsSomeAnd (name_of_key id) (λ own. same_name own name ≡ true) }
    ensures names { (id : Key) (name : List ℕ) → name_of_key id ≡ Some name
        → key_of_name name ≡ Some id }
{}
