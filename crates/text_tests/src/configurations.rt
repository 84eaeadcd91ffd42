//! What is read of a text, and its limits.

use config_text::*;
use hotkey_rules::{Action, LockMode, MOST_RULES};
use option_table::put_number;
use screen_config::{MOST_ACTION_KEYS, MOST_ACTIONS, MOST_ALIASES};
use screen_links::MOST_LINKS;
use share_base::{
    Button, Corners, KeyId, LONGEST_NAME, MOST_SCREENS, Mask, MouseButton, Octets, RuleNo,
    ScreenNo, Side, Words32,
};
use std::alloc::Global;
use std::test::*;

pub(crate) fn three_screens() -> &'static [u8] {
    b"# three desks
section: screens
\tdesk:
\t\thalfDuplexCapsLock = false
\t\tswitchCorners = none +top-left
\t\tswitchCornerSize = 20
\tpad:
\t\tshift = ctrl
\tlap.local:
end
section: aliases
\tlap.local:
\t\tlap
end
section: links
\tdesk:
\t\tright(50,100) = lap   # lower half
\t\tright(0,50) = pad
\tpad:
\t\tleft = desk(0,50)
\tlap:
\t\tleft = desk(50,100)
end
section: options
\theartbeat = 5000
\tswitchDelay = 250
\tkeystroke(Control+Alt+Right) = switchInDirection(right)
end
"
}

pub(crate) fn every_option() -> &'static [u8] {
    b"section: screens
\ta:
\t\thalfDuplexCapsLock = true
\t\thalfDuplexNumLock = true
\t\thalfDuplexScrollLock = true
\t\tshift = none
\t\tctrl = shift
\t\talt = ctrl
\t\tmeta = alt
\t\tsuper = meta
\t\txtestIsXineramaUnaware = false
\t\tpreserveFocus = true
\t\tswitchCorners = none +bottom-left
\t\tswitchCornerSize = 32767
end
section: aliases
end
section: links
end
section: options
\theartbeat = 3600000
\tswitchDelay = 60000
\tswitchDoubleTap = 1
\tswitchCorners = none +top-left +top-right +bottom-left +bottom-right
\tswitchCornerSize = 1
\trelativeMouseMoves = true
\tclipboardSharing = false
\tclipboardSharingSize = 4096
\tscreenSaverSync = false
\tswitchNeedsShift = true
\tswitchNeedsControl = true
\tswitchNeedsAlt = true
\twin32KeepForeground = false
\tdisableLockToScreen = true
\tdefaultLockToScreenState = true
\tprotocol = barrier
end
"
}

pub(crate) fn refusal(alloc: Global, text: &[u8]) -> Option<ConfigRefusal> {
    if text.len() > 1_000_000 {
        return None;
    }
    match parse(alloc, text) {
        Err(ConfigFault::Refused(refusal)) => Some(refusal),
        _ => None,
    }
}

fn read(alloc: Global, text: &[u8]) -> Result<Config, ConfigFault> {
    if text.len() > 1_000_000 {
        return Err(ConfigFault::OutOfMemory);
    }
    parse(alloc, text)
}

pub(crate) fn printed(alloc: Global, text: &[u8]) -> Result<Octets, Fail> {
    let config = read(alloc, text)?;
    let mut out = Octets::new(alloc);
    print(alloc, &config, &mut out)?;
    Ok(out)
}

#[test]
fn usual_texts_are_read(rt: HostRuntime) {
    assert!(rt; read(rt.alloc(), b"section: screens\r\n\ta: # \xff\r\nend").is_ok());
}

#[test]
fn a_screen_is_sent_what_is_set(rt: HostRuntime) -> Result<(), Fail> {
    let config = read(rt.alloc(), three_screens())?;
    let pad = config.find(b"PAD").ok_or("pad")?;
    assert_eq!(rt; config.name(pad).as_slice(), b"pad".as_slice());
    let mut words = Words32::new(rt.alloc());
    config.wire_options(rt.alloc(), pad, &mut words)?;
    assert_eq!(rt;
        words.as_slice(),
        [0x4d4d_4653, 2, 0x4841_5254, 5000, 0x5353_5754, 250].as_slice()
    );
    Ok(())
}

fn defaults() -> Globals {
    Globals {
        heartbeat: 3000,
        switch_delay: 0,
        switch_double_tap: 0,
        switch_corners: 0,
        switch_corner_size: 0,
        relative_mouse_moves: false,
        clipboard_sharing: true,
        clipboard_sharing_size: 3072,
        screen_saver_sync: true,
        switch_needs_shift: false,
        switch_needs_control: false,
        switch_needs_alt: false,
        win32_keep_foreground: true,
        disable_lock_to_screen: false,
        default_lock_to_screen_state: false,
        protocol: Protocol::Synergy,
    }
}

#[test]
fn options_have_their_defaults(rt: HostRuntime) -> Result<(), Fail> {
    assert_eq!(rt; read(rt.alloc(), b"")?.globals(), defaults());
    Ok(())
}

#[test]
fn a_screen_has_its_own_corners(rt: HostRuntime) -> Result<(), Fail> {
    let config = read(rt.alloc(), every_option())?;
    assert_eq!(rt; config.count(), 1);
    let screen = config.find(b"a").ok_or("found")?;
    assert_eq!(rt;
        config.corners(screen),
        Corners {
            set: 4,
            size: 32_767
        }
    );
    assert_eq!(rt; config.globals().switch_corners, 15);
    assert_eq!(rt; config.globals().switch_corner_size, 1);
    assert!(rt; config.links().as_slice().is_empty());
    assert!(rt; config.find(b"b").is_none());
    Ok(())
}

fn every_action() -> [Action; 11] {
    [
        Action::KeyStroke {
            id: KeyId(97),
            mods: Mask(0),
            button: Button(0xf000),
        },
        Action::KeyPress {
            id: KeyId(0xefe1),
            mods: Mask(31),
            button: Button(0xf001),
        },
        Action::KeyRelease {
            id: KeyId(0xef08),
            mods: Mask(2),
            button: Button(0xf002),
        },
        Action::MouseClick {
            mods: Mask(0),
            b: MouseButton(1),
        },
        Action::MousePress {
            mods: Mask(8),
            b: MouseButton(255),
        },
        Action::MouseRelease {
            mods: Mask(0),
            b: MouseButton(10),
        },
        Action::Lock(LockMode::On),
        Action::Lock(LockMode::Toggle),
        Action::SwitchTo(ScreenNo(0)),
        Action::SwitchTo(ScreenNo(1)),
        Action::SwitchToward(Side::Up),
    ]
}

const DESK: &[u8] = b"section: screens\ndesk:\npad:\nend\nsection: aliases\npad:\ntablet\nend\n\
    section: options\n\t";

fn with_options(alloc: Global, lines: &[u8]) -> Result<Config, Fail> {
    let mut text = Octets::new(alloc);
    text.extend(DESK)?;
    text.extend(lines)?;
    text.extend(b"\nend")?;
    Ok(read(alloc, text.as_slice())?)
}

#[test]
fn every_action_is_read(rt: HostRuntime) -> Result<(), Fail> {
    let config = with_options(
        rt.alloc(),
        b"keystroke(Alt+F2) = keystroke(a), keyDown(super+Meta+ALT+Control+Shift+shift_l), \
        keyUp(Control+BACKSPACE),mousebutton(1),mouseDown(Meta+255) , mouseUp(10), \
        lockCursorToScreen(on), lockCursorToScreen(toggle), switchToScreen(DESK), \
        switchToScreen(Tablet), switchInDirection(up)",
    )?;
    let rules = config.rules();
    let found = rules.find_key(KeyId(0xefbf), Mask(4));
    assert_eq!(rt; found, Some(RuleNo(0)));
    assert_eq!(rt; rules.len(), 1);
    assert_eq!(rt;
        rules.press(RuleNo(0)).as_slice(),
        every_action().as_slice()
    );
    assert!(rt; rules.release(RuleNo(0)).as_slice().is_empty());
    Ok(())
}

fn press(id: u16, place: u16) -> Action {
    Action::KeyPress {
        id: KeyId(id),
        mods: Mask(0),
        button: Button(place),
    }
}

#[test]
fn keys_are_numbered_as_they_first_come(rt: HostRuntime) -> Result<(), Fail> {
    let config = with_options(
        rt.alloc(),
        b"keystroke(z) = keyDown(b); keyDown(a), keyDown(b)\n\
        mousebutton(3) = keyDown(a), keyDown(c)\n",
    )?;
    let rules = config.rules();
    assert_eq!(rt; rules.len(), 2);
    assert_eq!(rt; rules.find_button(MouseButton(3), Mask(0)), Some(RuleNo(1)));
    assert_eq!(rt;
        rules.press(RuleNo(0)).as_slice(),
        [press(98, 0xf000)].as_slice()
    );
    assert_eq!(rt;
        rules.release(RuleNo(0)).as_slice(),
        [press(97, 0xf001), press(98, 0xf000)].as_slice()
    );
    assert_eq!(rt;
        rules.press(RuleNo(1)).as_slice(),
        [press(97, 0xf001), press(99, 0xf002)].as_slice()
    );
    Ok(())
}

#[test]
fn limits_are_those_of_the_format(rt: HostRuntime) {
    assert_eq!(rt; MOST_SCREENS, 64);
    assert_eq!(rt; LONGEST_NAME, 255);
    assert_eq!(rt; MOST_ALIASES, 256);
    assert_eq!(rt; MOST_LINKS, 1024);
    assert_eq!(rt; MOST_RULES, 256);
    assert_eq!(rt; MOST_ACTION_KEYS, 256);
    assert_eq!(rt; MOST_ACTIONS, 4096);
}

#[test]
fn a_65th_screen_is_too_many(rt: HostRuntime) -> Result<(), Fail> {
    let mut text = Octets::new(rt.alloc());
    text.extend(b"section: screens\n")?;
    for n in 0..65 {
        text.extend(b"\ts")?;
        put_number(n, &mut text)?;
        text.extend(b":\n")?;
    }
    let wanted = ConfigRefusal {
        line: 66,
        column: 2,
        kind: ConfigKind::TooMany,
    };
    assert_eq!(rt; refusal(rt.alloc(), text.as_slice()), Some(wanted));
    Ok(())
}
