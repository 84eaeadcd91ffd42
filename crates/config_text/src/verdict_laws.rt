//! Laws of verdicts and normal forms. The calls do nothing: their contracts are the laws.

ghost use Rattle.std.specs.Prelude.{◌≡◌, ◌≢◌, ◌+◌, ◌-◌, ℕ, List, length, false, Err, Some, None};
ghost use Rattle.text_lines.specs.Lines.{Words, line_text};
ghost use Rattle.screen_config.specs.Configurations.{Configuration};
ghost use Rattle.screen_config.specs.Sound.{is_end};
ghost use Rattle.screen_config.specs.Values.{value_of};
ghost use Rattle.config_text.specs.declared.sections.Opened.{Opened as OpenSection};
ghost use Rattle.config_text.specs.declared.sections.Section.TheVariants as section;
ghost use Rattle.config_text.specs.declared.faults.ConfigKind.TheVariants as kind;
ghost use Rattle.config_text.specs.Drafts.{Draft as Lines};
ghost use Rattle.config_text.specs.Lines.{judged, refused};
ghost use Rattle.config_text.specs.Normal.{normal};
ghost use Rattle.config_text.specs.Sections.{is_header};
ghost use Rattle.config_text.specs.Verdicts.{Verdict, HasVerdict};

/// Each text has one verdict: it is accepted as one configuration, or refused in one way.
pub fn each_text_has_one_verdict()
    ensures some { (text : List ℕ) → (v : Verdict) × HasVerdict text v }
    ensures one { (text : List ℕ) (v w : Verdict) → HasVerdict text v → HasVerdict text w → v ≡ w }
{}

/// A line of screens, aliases or links that is neither a header nor `end`, and has no header above
/// it in its section, is a bad line from its first byte on, whatever its words are.
pub fn lines_need_a_header()
    ensures { (line : ℕ) (d : Lines) (o : OpenSection) (raw xs : List ℕ) (end : ℕ)
        → d.opened ≡ Some o → o.section ≢ section.Options
        → d.header ≡ None → line_text raw ≡ Words xs end → is_end xs ≡ false → is_header xs ≡ false
        → judged line d raw ≡ Err (refused line (end - length xs + 1) kind.BadLine) }
{}

/// Configurations of the same value have the same normal form.
pub fn normal_form_is_of_the_value()
    ensures { (one other : Configuration) → value_of one ≡ value_of other
        → normal one ≡ normal other }
{}
