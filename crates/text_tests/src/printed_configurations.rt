//! Texts, and the same as they are printed.

use crate::configurations::{every_option, printed, three_screens};
use share_base::Octets;
use std::alloc::Global;
use std::process::Abort;
use std::test::*;

/// A text, and the same as it is printed.
#[derive(Clone, Copy)]
struct Printed(&'static [u8], &'static [u8]);

fn three_screens_again() -> &'static [u8] {
    b"section: screens
\tdesk:
\t\thalfDuplexCapsLock = false
\t\tswitchCorners = none +top-left
\t\tswitchCornerSize = 20
\tpad:
\t\tshift = ctrl
\tlap.local:
end
section: aliases
\tlap.local:
\t\tlap
end
section: links
\tdesk:
\t\tright(0,50) = pad
\t\tright(50,100) = lap.local
\tpad:
\t\tleft = desk(0,50)
\tlap.local:
\t\tleft = desk(50,100)
end
section: options
\theartbeat = 5000
\tswitchDelay = 250
\tkeystroke(Control+Alt+Right) = switchInDirection(right)
end
"
}

fn loosely_written() -> &'static [u8] {
    b"section : screens\r
a:\t# the first\r
shift=ctrl\r
  shift\t=\tmeta\r
\r
end\r
section: screens
b.:
end
section: links
A:
right=a
left ( 0 , 50 ) = B. ( 1 , 2 )
end
section: aliases
b.:
c
end
section: options
heartbeat = 1
heartbeat = 2
end
section: options
switchCorners = all -left
end"
}

fn loosely_written_again() -> &'static [u8] {
    b"section: screens
\ta:
\t\tshift = meta
\tb.:
end
section: aliases
\tb.:
\t\tc
end
section: links
\ta:
\t\tleft(0,50) = b.(1,2)
\t\tright = a
end
section: options
\theartbeat = 2
\tswitchCorners = none +top-right +bottom-right
end
"
}

fn texts() -> [Printed; 4] {
    [
        Printed(
            b"",
            b"section: screens\nend\nsection: aliases\nend\nsection: links\nend\n\
            section: options\nend\n",
        ),
        Printed(three_screens(), three_screens_again()),
        Printed(every_option(), every_option()),
        Printed(loosely_written(), loosely_written_again()),
    ]
}

fn hotkeys() -> [Printed; 15] {
    [
        Printed(
            b"keystroke(control+ALT+right)=switchInDirection(right)",
            b"keystroke(Control+Alt+Right) = switchInDirection(right)",
        ),
        Printed(
            b"mousebutton(Shift+4) = ; keyUp(a)",
            b"mousebutton(Shift+4) = ; keyUp(a)",
        ),
        Printed(b"mousebutton ( 255 ) = ;", b"mousebutton(255) = ;"),
        Printed(b"keystroke(a) = keyDown(b) ;", b"keystroke(a) = keyDown(b)"),
        Printed(
            b"keystroke(a)=keystroke(B),keyDown(Meta+c) , keyUp(Shift_L)",
            b"keystroke(a) = keystroke(B), keyDown(Meta+c), keyUp(Shift_L)",
        ),
        Printed(
            b"keystroke(1) = mousebutton(1), mouseDown(Alt+2), mouseUp(255)",
            b"keystroke(1) = mousebutton(1), mouseDown(Alt+2), mouseUp(255)",
        ),
        Printed(
            b"keystroke(~) = lockCursorToScreen(on), lockCursorToScreen(off);\
            lockCursorToScreen(toggle)",
            b"keystroke(~) = lockCursorToScreen(on), lockCursorToScreen(off); \
            lockCursorToScreen(toggle)",
        ),
        Printed(
            b"keystroke(f1) = switchToScreen(DESK); switchToScreen(tablet)",
            b"keystroke(F1) = switchToScreen(desk); switchToScreen(pad)",
        ),
        Printed(
            b"keystroke(a) = switchInDirection(left), switchInDirection(up); \
            switchInDirection(down)",
            b"keystroke(a) = switchInDirection(left), switchInDirection(up); \
            switchInDirection(down)",
        ),
        Printed(
            b"keystroke(super+meta+alt+control+shift+F12) = ;",
            b"keystroke(Shift+Control+Alt+Meta+Super+F12) = ;",
        ),
        Printed(
            b"keystroke(\\u00e9) = keyDown(\\u0061), keyUp(\\u0028)",
            b"keystroke(\\u00E9) = keyDown(a), keyUp(\\u0028)",
        ),
        Printed(
            b"keystroke(\\uef08) = keyDown(\\uffff), keyUp(\\u007F)",
            b"keystroke(BackSpace) = keyDown(\\uFFFF), keyUp(\\u007F)",
        ),
        Printed(
            b"keystroke(-)= ; keystroke(|)",
            b"keystroke(-) = ; keystroke(|)",
        ),
        Printed(
            b"keystroke(a) = ;\n\tkeystroke(A) = ;\n\tkeystroke(a) = ;",
            b"keystroke(a) = ;\n\tkeystroke(A) = ;\n\tkeystroke(a) = ;",
        ),
        Printed(
            b"keystroke(b) = keyDown(c)\n\tswitchDelay = 9\n\tkeystroke(a) = keyUp(c)\n\
            \theartbeat = 7",
            b"heartbeat = 7\n\tswitchDelay = 9\n\tkeystroke(b) = keyDown(c)\n\
            \tkeystroke(a) = keyUp(c)",
        ),
    ]
}

const ABOVE: &[u8] =
    b"section: screens\n\tdesk:\n\tpad:\nend\nsection: aliases\n\tpad:\n\t\ttablet\nend\n\
    section: links\nend\nsection: options\n\t";

fn expect_printed(
    rt: &impl Abort,
    alloc: Global,
    before: &[u8],
    after: &[u8],
    rows: &[Printed],
) -> Result<(), Fail> {
    for row in rows {
        let mut given = Octets::new(alloc);
        given.extend(before)?;
        given.extend(row.0)?;
        given.extend(after)?;
        let mut wanted = Octets::new(alloc);
        wanted.extend(before)?;
        wanted.extend(row.1)?;
        wanted.extend(after)?;
        let out = printed(alloc, given.as_slice())?;
        assert_eq!(rt; out.as_slice(), wanted.as_slice());
    }
    Ok(())
}

#[test]
fn each_text_is_printed_in_its_normal_form(rt: HostRuntime) -> Result<(), Fail> {
    expect_printed(&rt, rt.alloc(), b"", b"", &texts())?;
    expect_printed(&rt, rt.alloc(), ABOVE, b"\nend\n", &hotkeys())
}
