//! What a hotkey's line hands on.

use hotkey_text::*;
use std::test::*;

#[test]
fn a_screen_is_handed_on(rt: HostRuntime) -> Result<(), Fail> {
    let form = hotkey(b"keystroke(a) = switchToScreen(desk  x)")
        .ok()
        .ok_or("form")?;
    let (action, _) = form.press.split_first().ok_or("action")?;
    match action_words(action) {
        Ok(ActionWords::SwitchTo(screen)) => {
            assert_eq!(rt; screen.word.text, b"desk".as_slice());
            assert_eq!(rt; screen.word.left, 8);
            assert_eq!(rt; screen.further, Some(2));
        }
        _ => assert!(rt; false),
    }
    Ok(())
}

#[test]
fn hotkeys_begin_with_their_words(rt: HostRuntime) {
    assert!(rt; is_hotkey(b"keystroke(a"));
    assert!(rt; is_hotkey(b"mousebutton \t("));
    assert!(rt; !is_hotkey(b"keystroke = 1"));
    assert!(rt; !is_hotkey(b"Keystroke(a)"));
    assert!(rt; !is_hotkey(b"keyDown(a)"));
}
