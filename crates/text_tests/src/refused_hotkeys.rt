//! Lines of hotkeys that are refused, each at its line and column.

use crate::refused_configurations::{Refused, expect_refused};
use config_text::ConfigKind::{
    BadLine, BadValue, UnknownAction, UnknownKey, UnknownOption, UnknownScreen,
};
use std::test::*;

const HOTKEYS: &[u8] = b"section: screens\ndesk:\npad:\nend\nsection: aliases\npad:\ntablet\nend\n\
    section: options\n\t";

fn forms_refused() -> [Refused; 14] {
    [
        Refused(b"keystroke(F1)", 10, 15, BadLine),
        Refused(b"keystroke(F1", 10, 14, BadLine),
        Refused(b"keystroke(F1) lockCursorToScreen(on)", 10, 16, BadLine),
        Refused(b"keystroke(F1) = lockCursorToScreen", 10, 36, BadLine),
        Refused(b"keystroke(F1) = lockCursorToScreen(on", 10, 39, BadLine),
        Refused(b"keystroke(F1) = ,", 10, 19, BadLine),
        Refused(b"keystroke(F1) = keyDown(a),", 10, 29, BadLine),
        Refused(b"keystroke(F1) = keyDown(a) keyUp(a)", 10, 29, BadLine),
        Refused(b"keystroke(F1) = keyDown(a); keyUp(a);", 10, 38, BadLine),
        Refused(b"keystroke(F1):", 10, 2, BadLine),
        Refused(
            b"keystroke(Control+Nope) = lockCursorToScreen",
            10,
            46,
            BadLine,
        ),
        Refused(b"keystroke = 3", 10, 2, UnknownOption),
        Refused(b"Keystroke(F1) = ;", 10, 11, BadLine),
        Refused(b"keystrokes(F1) = ;", 10, 12, BadLine),
    ]
}

fn triggers_refused() -> [Refused; 15] {
    [
        Refused(
            b"keystroke(Control+Nope) = lockCursorToScreen(on)",
            10,
            20,
            UnknownKey,
        ),
        Refused(b"keystroke(F1) =", 10, 17, BadValue),
        Refused(b"keystroke(F1) = # ;", 10, 17, BadValue),
        Refused(b"keystroke() = ;", 10, 12, UnknownKey),
        Refused(b"keystroke(Shift+) = ;", 10, 18, UnknownKey),
        Refused(b"keystroke(Alt+F1+a) = ;", 10, 16, BadValue),
        Refused(b"keystroke(Shift+SHIFT+a) = ;", 10, 18, BadValue),
        Refused(b"keystroke(shift_l) = ;", 10, 12, UnknownKey),
        Refused(b"keystroke(Meta+Super_R) = ;", 10, 17, UnknownKey),
        Refused(b"keystroke(\\u0000) = ;", 10, 12, UnknownKey),
        Refused(b"keystroke(\\u123) = ;", 10, 12, UnknownKey),
        Refused(b"keystroke(a b) = ;", 10, 14, BadValue),
        Refused(b"mousebutton(0) = ;", 10, 14, BadValue),
        Refused(b"mousebutton(Alt+256) = ;", 10, 18, BadValue),
        Refused(b"mousebutton(a) = nope()", 10, 14, BadValue),
    ]
}

fn actions_refused() -> [Refused; 19] {
    [
        Refused(b"mousebutton(1) = nope()", 10, 19, UnknownAction),
        Refused(b"mousebutton(1) = KeyDown(a)", 10, 19, UnknownAction),
        Refused(
            b"mousebutton(1) = ; keyDown(a), down(a)",
            10,
            33,
            UnknownAction,
        ),
        Refused(b"mousebutton(1) = keyDown(Nope)", 10, 27, UnknownKey),
        Refused(b"mousebutton(1) = keyDown(Alt+Alt+a)", 10, 31, BadValue),
        Refused(b"mousebutton(1) = keyUp(a b)", 10, 27, BadValue),
        Refused(b"mousebutton(1) = mouseDown(0)", 10, 29, BadValue),
        Refused(b"mousebutton(1) = mouseUp(256)", 10, 27, BadValue),
        Refused(b"mousebutton(1) = mousebutton(01)", 10, 31, BadValue),
        Refused(b"mousebutton(1) = lockCursorToScreen(On)", 10, 38, BadValue),
        Refused(b"mousebutton(1) = lockCursorToScreen( )", 10, 39, BadValue),
        Refused(
            b"mousebutton(1) = lockCursorToScreen(on off)",
            10,
            41,
            BadValue,
        ),
        Refused(b"mousebutton(1) = switchToScreen(x)", 10, 34, UnknownScreen),
        Refused(b"mousebutton(1) = switchToScreen()", 10, 34, UnknownScreen),
        Refused(
            b"mousebutton(1) = switchToScreen(-x)",
            10,
            34,
            UnknownScreen,
        ),
        Refused(b"mousebutton(1) = switchToScreen(pad x)", 10, 38, BadValue),
        Refused(
            b"mousebutton(1) = switchToScreen(x x)",
            10,
            34,
            UnknownScreen,
        ),
        Refused(
            b"mousebutton(1) = switchInDirection(north)",
            10,
            37,
            BadValue,
        ),
        Refused(
            b"mousebutton(1) = switchInDirection(left right)",
            10,
            42,
            BadValue,
        ),
    ]
}

fn hotkey_words_refused() -> [Refused; 8] {
    [
        Refused(b"keystroke(F1) = keyDown(a), (b)", 10, 30, BadLine),
        Refused(b"keystroke(+a) = ;", 10, 12, BadValue),
        Refused(b"keystroke(Hyper+a) = ;", 10, 12, BadValue),
        Refused(
            b"keystroke(Shift+Control+Alt+Meta+Super+Shift+a) = ;",
            10,
            41,
            BadValue,
        ),
        Refused(b"keystroke(Shift a) = ;", 10, 12, UnknownKey),
        Refused(b"keystroke(,) = ;", 10, 12, UnknownKey),
        Refused(b"mousebutton() = ;", 10, 14, BadValue),
        Refused(b"mousebutton(01) = ;", 10, 14, BadValue),
    ]
}

fn commas_refused() -> [Refused; 6] {
    [
        Refused(b"keystroke(a,b) = ;", 10, 13, BadValue),
        Refused(b"keystroke(,a) = ;", 10, 12, UnknownKey),
        Refused(b"keystroke(Shift,+a) = ;", 10, 12, UnknownKey),
        Refused(b"mousebutton(1) = mouseUp(1,2)", 10, 28, BadValue),
        Refused(b"mousebutton(1) = keyDown(a, b)", 10, 28, BadValue),
        Refused(
            b"mousebutton(1) = switchToScreen(pad,desk)",
            10,
            37,
            BadValue,
        ),
    ]
}

fn first_refused() -> [Refused; 4] {
    [
        Refused(
            b"keystroke(Nope) = switchToScreen(x); nope()",
            10,
            12,
            UnknownKey,
        ),
        Refused(
            b"keystroke(F1) = switchToScreen(x), nope()",
            10,
            33,
            UnknownScreen,
        ),
        Refused(
            b"keystroke(F1) = keyUp(Nope); switchToScreen(x)",
            10,
            24,
            UnknownKey,
        ),
        Refused(b"keystroke(Shift_L) =", 10, 12, UnknownKey),
    ]
}

#[test]
fn each_hotkey_is_refused_at_its_place(rt: HostRuntime) -> Result<(), Fail> {
    expect_refused(&rt, rt.alloc(), HOTKEYS, &forms_refused())?;
    expect_refused(&rt, rt.alloc(), HOTKEYS, &triggers_refused())?;
    expect_refused(&rt, rt.alloc(), HOTKEYS, &actions_refused())?;
    expect_refused(&rt, rt.alloc(), HOTKEYS, &hotkey_words_refused())?;
    expect_refused(&rt, rt.alloc(), HOTKEYS, &commas_refused())?;
    expect_refused(&rt, rt.alloc(), HOTKEYS, &first_refused())
}
