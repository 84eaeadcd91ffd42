//! Laws over all lists of calls, on which other crates rest. The calls do nothing: their contracts
//! are the laws.

ghost use Rattle.std.specs.Prelude.{◌≡◌, ℕ, List, [], ◌∷◌, ◌++◌};
ghost use Rattle.std.specs.List.{flat_map, AllByRecursion};
ghost use Rattle.modifier_map.specs.declared.map.ModMap.{ModMap};
ghost use Rattle.held_inputs.specs.declared.line.Line.{Line};
ghost use Rattle.held_inputs.specs.Line.{line_of};
ghost use Rattle.held_inputs.specs.Ranges.{Fits};
ghost use Rattle.held_inputs.specs.Screen.{Screen, Call, ReleasesAll, screen, after, with_lines};
ghost use Rattle.held_inputs.specs.declared.injector.Injector.{Injector};
ghost use Rattle.held_inputs.specs.Down.{IsPlain};
ghost use Rattle.held_inputs.specs.Stands.{Stands};
ghost use Rattle.held_inputs.specs.Balanced.{Balanced, NothingDown, ClearAtLeaves};

/// Whatever a screen is told, after its releases every key and every mouse button has gone up, one
/// up for each down, and nothing was down where it was left.
pub fn released()
    ensures balanced { (mods : ModMap) (calls : List Call)
        → Balanced (screen mods (calls ++ ReleasesAll ∷ [])).lines }
    ensures nothing { (mods : ModMap) (calls : List Call)
        → NothingDown (screen mods (calls ++ ReleasesAll ∷ [])).lines }
    ensures leaves { (mods : ModMap) (calls : List Call) → ClearAtLeaves (screen mods calls).lines }
{}

/// A list of calls grows by one call as `after` says. So what the calls of an injector say of every
/// screen that it represents, they say of every list of calls that it represents.
pub fn one_call_more()
    ensures { (mods : ModMap) (calls : List Call) (c : Call)
        → screen mods (calls ++ c ∷ []) ≡ after (screen mods calls) c }
{}

/// Lines of options and of clipboards, which a layer above prints between the calls, leave down
/// what was down.
pub fn plain_lines()
    ensures { (i : Injector) (s : Screen) (more : List Line)
        → AllByRecursion IsPlain more → Stands i s → Stands i (with_lines s more) }
{}

/// The text of no line begins that of another, and the text of a list of lines is that of no other
/// list. So printed bytes have one reading as lines.
pub fn one_text()
    ensures line { (l m : Line) (x y : List ℕ) → Fits l → Fits m
        → line_of l ++ x ≡ line_of m ++ y → (l ≡ m) × (x ≡ y) }
    ensures list { (ls ms : List Line) → AllByRecursion Fits ls → AllByRecursion Fits ms
        → flat_map line_of ls ≡ flat_map line_of ms → ls ≡ ms }
{}
