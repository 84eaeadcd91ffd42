//! The options that stand.

ghost use Rattle.std.specs.Prelude.{◌≡◌, ◌≤◌, ◌<◌, ◌++◌, OnOk, OnErr, length, true, unwrap_or};
ghost use Rattle.option_table.specs.Settings.{standing, setting};
ghost use Rattle.option_table.specs.Table.{row_of};
ghost use Rattle.option_table.specs.Values.{suits};
ghost use Rattle.screen_config.specs.Globals as spec;
ghost use Rattle.screen_config.specs.Globals.{AreInRange};
ghost use Rattle.screen_config.specs.Values.{name_of};

use crate::config::Config;
use option_table::{OptionName, Settings, put_wire_words};
use screen_links::Links;
use share_base::{Corners, OutOfMemory, ScreenName, ScreenNo, Words32};
use std::alloc::Global;

/// What the text says of the greeting. Neither changes it.
#[derive(Clone, Copy, Debug, PartialEq, Eq)]
pub enum Protocol {
    /// `synergy`, which stands where the text says nothing.
    Synergy,
    /// `barrier`.
    Barrier,
}

/// The options for all screens, each with its default where the text sets none.
#[derive(Clone, Copy, Debug, PartialEq, Eq)]
pub struct Globals {
    /// Milliseconds between two beats, at most 3,600,000; 0 for none.
    pub heartbeat: u32,
    /// Milliseconds for which the pointer waits at an edge, at most 60,000.
    pub switch_delay: u32,
    /// Milliseconds within which an edge is touched twice, at most 60,000; 0 for once.
    pub switch_double_tap: u32,
    /// Corners that block an edge: the sum of top-left 1, top-right 2, bottom-left 4, bottom-right
    /// 8.
    pub switch_corners: u8,
    /// Pixels of a corner, at most 32,767.
    pub switch_corner_size: u32,
    /// Whether the pointer is moved by distances while the cursor is locked to a screen.
    pub relative_mouse_moves: bool,
    /// Whether clipboards are shared.
    pub clipboard_sharing: bool,
    /// Units of 1,024 bytes, at most 4,096.
    pub clipboard_sharing_size: u32,
    /// Whether the screen savers start and stop together.
    pub screen_saver_sync: bool,
    /// Whether an edge is passed only while Shift is held.
    pub switch_needs_shift: bool,
    /// Whether an edge is passed only while Control is held.
    pub switch_needs_control: bool,
    /// Whether an edge is passed only while Alt is held.
    pub switch_needs_alt: bool,
    /// Kept and printed; it has no effect.
    pub win32_keep_foreground: bool,
    /// Kept and printed; it has no effect.
    pub disable_lock_to_screen: bool,
    /// Kept and printed; it has no effect.
    pub default_lock_to_screen_state: bool,
    /// What the text says of the greeting. It has no effect.
    pub protocol: Protocol,
}

fn flag(settings: &Settings, option: OptionName) -> bool
    ensures { result ≡ spec.flag settings.now option }
{
    settings.value(option) == 1
}

#[tactic(auto, unfolding(option_table::specs::Table::row_of))]
fn corner_set(settings: &Settings) -> u8
    ensures value { result ≡ standing settings.now OptionName.SwitchCorners }
    ensures bound { result ≤ 15 }
{
    settings.value(OptionName::SwitchCorners) as u8
}

fn protocol_of(settings: &Settings) -> Protocol
    ensures { result ≡ spec.protocol_of (standing settings.now OptionName.Protocol) }
{
    if settings.value(OptionName::Protocol) == 0 {
        Protocol::Synergy
    } else {
        Protocol::Barrier
    }
}

#[tactic(auto, unfolding(option_table::specs::Table::row_of))]
fn globals_of(settings: &Settings) -> Globals
    ensures values { result ≡ spec.globals_of settings.now }
    ensures in_range { AreInRange result }
{
    Globals {
        heartbeat: settings.value(OptionName::Heartbeat),
        switch_delay: settings.value(OptionName::SwitchDelay),
        switch_double_tap: settings.value(OptionName::SwitchDoubleTap),
        switch_corners: corner_set(settings),
        switch_corner_size: settings.value(OptionName::SwitchCornerSize),
        relative_mouse_moves: flag(settings, OptionName::RelativeMouseMoves),
        clipboard_sharing: flag(settings, OptionName::ClipboardSharing),
        clipboard_sharing_size: settings.value(OptionName::ClipboardSharingSize),
        screen_saver_sync: flag(settings, OptionName::ScreenSaverSync),
        switch_needs_shift: flag(settings, OptionName::SwitchNeedsShift),
        switch_needs_control: flag(settings, OptionName::SwitchNeedsControl),
        switch_needs_alt: flag(settings, OptionName::SwitchNeedsAlt),
        win32_keep_foreground: flag(settings, OptionName::Win32KeepForeground),
        disable_lock_to_screen: flag(settings, OptionName::DisableLockToScreen),
        default_lock_to_screen_state: flag(settings, OptionName::DefaultLockToScreenState),
        protocol: protocol_of(settings),
    }
}

fn standing_value(own: &Settings, all: &Settings, option: OptionName) -> u32
    ensures value { result ≡ unwrap_or (setting own.now option) (standing all.now option) }
    ensures suits { suits (row_of option).form result ≡ true }
{
    match own.get(option) {
        Some(value) => value,
        None => all.value(option),
    }
}

#[tactic(auto, unfolding(option_table::specs::Table::row_of))]
fn corners_for(own: &Settings, all: &Settings) -> Corners
    ensures set { result.set
        ≡ unwrap_or (setting own.now OptionName.SwitchCorners)
        (standing all.now OptionName.SwitchCorners) }
    ensures size { result.size
        ≡ unwrap_or (setting own.now OptionName.SwitchCornerSize)
        (standing all.now OptionName.SwitchCornerSize) }
    ensures in_range { (result.set ≤ 15) × (result.size ≤ 32767) }
{
    Corners {
        set: standing_value(own, all, OptionName::SwitchCorners) as u8,
        size: standing_value(own, all, OptionName::SwitchCornerSize),
    }
}

impl Config {
    /// The name of a screen, as the text spells it. It takes no memory.
    pub fn name(&self, no: ScreenNo) -> &ScreenName
        requires { no.0 < length self.now.screens }
        ensures { name_of self.now no.0 ≡ result.now }
    {
        let screen = &self.screens.as_slice()[no.0 as usize];
        &screen.name
    }

    /// The links, in the order of the text. It takes no memory.
    pub fn links(&self) -> &Links
        ensures { result.now ≡ self.now.links }
    {
        &self.links
    }

    /// The options for all screens. It takes no memory.
    pub fn globals(&self) -> Globals
        ensures values { result ≡ spec.globals_of self.now.settings }
        ensures in_range { AreInRange result }
    {
        globals_of(&self.settings)
    }

    /// The corners of a screen that block an edge: its own, or those for all screens. It takes no
    /// memory.
    pub fn corners(&self, no: ScreenNo) -> Corners
        requires { no.0 < length self.now.screens }
        ensures corners { result ≡ spec.corners_of self.now no.0 }
        ensures in_range { (result.set ≤ 15) × (result.size ≤ 32767) }
    {
        let screen = &self.screens.as_slice()[no.0 as usize];
        corners_for(&screen.settings, &self.settings)
    }

    /// Adds what a screen is sent: of each option that is set and has a code, the code and then the
    /// value, in the order of the table. A screen's own value stands in place of that for all.
    /// After `OutOfMemory` nothing was added.
    pub fn wire_options(
        &self,
        alloc: Global,
        no: ScreenNo,
        out: &mut Words32,
    ) -> Result<(), OutOfMemory>
        requires { no.0 < length self.now.screens }
        ensures ok { OnOk result (out.new ≡ out.old ++ spec.wire_options_of self.now no.0) }
        ensures err { OnErr result (out.new ≡ out.old) }
    {
        let mut words = Words32::new(alloc);
        let screen = &self.screens.as_slice()[no.0 as usize];
        put_wire_words(&screen.settings, &self.settings, &mut words)?;
        out.extend(words.as_slice())
    }
}
