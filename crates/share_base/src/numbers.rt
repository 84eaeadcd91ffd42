//! Numbers that name things, each a type of its own.

/// What a key means: a Unicode number, or a number of the table of named keys. 1 to 65,535 in a
/// script.
#[derive(Clone, Copy, Debug, PartialEq, Eq, PartialOrd, Ord)]
pub struct KeyId(pub u16);

/// Which key on the keyboard: 1 to 255 for a script's, 0xF000 and a number below 256 for an
/// action's.
#[derive(Clone, Copy, Debug, PartialEq, Eq, PartialOrd, Ord)]
pub struct Button(pub u16);

/// Modifiers and toggles, a bit each.
#[derive(Clone, Copy, Debug, PartialEq, Eq, PartialOrd, Ord)]
pub struct Mask(pub u16);

/// Which button of the mouse: left 1, middle 2, right 3.
#[derive(Clone, Copy, Debug, PartialEq, Eq, PartialOrd, Ord)]
pub struct MouseButton(pub u8);

/// A screen of a configuration, by its place in the text, from 0. At most 64 screens stand in one.
#[derive(Clone, Copy, Debug, PartialEq, Eq, PartialOrd, Ord)]
pub struct ScreenNo(pub u16);

/// A hotkey's rule, by its place in the list of rules, from 0. At most 256 rules stand in one.
#[derive(Clone, Copy, Debug, PartialEq, Eq, PartialOrd, Ord)]
pub struct RuleNo(pub u16);
