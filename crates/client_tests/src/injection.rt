//! The lines of messages, and what goes up when.

ghost use Rattle.std.specs.Prelude.{◌≤◌};
ghost use Rattle.held_inputs.specs.Line.{room_of};

use held_inputs::*;
use message_codec::Msg;
use modifier_map::ModMap;
use share_base::{ClipId, Lines, Octets};
use std::process::Abort;
use std::test::*;

fn prints(rt: &impl Abort, line: Line, want: &[u8])
    requires { room_of line ≤ LONGEST_LINE }
{
    let mut lines = Lines::new();
    put_line(&mut lines, line);
    assert_eq!(rt; lines.as_slice(), want);
}

fn applies(rt: &impl Abort, injector: &mut Injector, msg: Msg, want: &[u8]) {
    assert_eq!(rt; injector.apply(&msg).as_slice(), want);
}

fn key_down(id: u16, mask: u16, button: u16) -> Msg {
    Msg::KeyDown { id, mask, button }
}

/// A key is `(id, mask, button)`.
fn presses(rt: &impl Abort, injector: &mut Injector, key: (u16, u16, u16), want: &[u8]) {
    applies(rt, injector, key_down(key.0, key.1, key.2), want);
}

fn key_up(button: u16) -> Msg {
    Msg::KeyUp {
        id: 7,
        mask: 0,
        button,
    }
}

#[test]
fn a_held_key_goes_up_once(rt: HostRuntime) {
    let mut injector = Injector::new(ModMap::new());
    let enter = Msg::Enter {
        x: 0,
        y: 384,
        seq: 1,
        mask: 0,
    };
    applies(&rt, &mut injector, key_up(38), b"");
    applies(&rt, &mut injector, enter, b"enter 0 384 1 0\n");
    presses(&rt, &mut injector, (97, 0, 38), b"key down 97 38 0\n");
    presses(&rt, &mut injector, (97, 0, 38), b"key rep 97 1 38 0\n");
    assert!(rt; !injector.is_clear());
    assert_eq!(rt;
        injector.release_all().as_slice(),
        b"key up 97 38\n".as_slice()
    );
    assert!(rt; injector.is_clear());
    assert_eq!(rt; injector.release_all().as_slice(), b"".as_slice());
}

#[test]
fn all_goes_up_before_the_cursor_leaves(rt: HostRuntime) {
    let mut injector = Injector::new(ModMap::new());
    presses(&rt, &mut injector, (97, 0, 38), b"key down 97 38 0\n");
    applies(
        &rt,
        &mut injector,
        Msg::ButtonDown { b: 3 },
        b"button down 3\n",
    );
    applies(
        &rt,
        &mut injector,
        Msg::Leave,
        b"key up 97 38\nbutton up 3\nleave\n",
    );
    applies(&rt, &mut injector, Msg::Bye, b"");
}

#[test]
fn shift_counts_as_control(rt: HostRuntime) {
    let mut injector = Injector::new(ModMap::new());
    injector.set_option(0x4d4d_4653, 2);
    presses(&rt, &mut injector, (61409, 0, 50), b"key down 61411 50 0\n");
    presses(&rt, &mut injector, (97, 1, 38), b"key down 97 38 2\n");
    injector.reset_options();
    applies(&rt, &mut injector, key_up(50), b"key up 61411 50\n");
    presses(&rt, &mut injector, (61409, 0, 50), b"key down 61409 50 0\n");
}

#[test]
fn at_most_512_keys_are_held(rt: HostRuntime) {
    let mut injector = Injector::new(ModMap::new());
    for button in 0..512u16 {
        let printed = injector.apply(&key_down(97, 0, button));
        assert!(rt; !printed.as_slice().is_empty(), "at {button}");
    }
    presses(&rt, &mut injector, (97, 0, 512), b"");
    presses(&rt, &mut injector, (97, 0, 511), b"key rep 97 1 511 0\n");
    applies(&rt, &mut injector, key_up(0), b"key up 97 0\n");
    presses(&rt, &mut injector, (97, 0, 512), b"key down 97 512 0\n");
}

#[test]
fn each_line_has_its_text(rt: HostRuntime) -> Result<(), Fail> {
    let code = 0x4d4d_4653;
    let clip = ClipId::Clipboard;
    let mut bytes = Octets::new(rt.alloc());
    bytes.extend(b"abc")?;
    prints(&rt, Line::MoveTo { x: 5, y: -2 }, b"move 5 -2\n");
    prints(&rt, Line::MoveBy { dx: -1, dy: 0 }, b"moveby -1 0\n");
    prints(&rt, Line::Wheel { dx: 0, dy: -120 }, b"wheel 0 -120\n");
    prints(&rt, Line::SaverOn, b"saver on\n");
    prints(&rt, Line::SaverOff, b"saver off\n");
    prints(&rt, Line::ResetOptions, b"reset options\n");
    prints(
        &rt,
        Line::SetOption { code, value: 2 },
        b"option 4d4d4653 2\n",
    );
    prints(&rt, Line::Grab { clip }, b"grab 0\n");
    prints(&rt, Line::Clip { clip, bytes }, b"clip 0 616263\n");
    Ok(())
}
