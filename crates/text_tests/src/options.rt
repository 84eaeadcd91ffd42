//! Options, their defaults and their codes.

use option_table::*;
use std::test::*;

#[test]
fn corners_add_up(rt: HostRuntime) {
    assert_eq!(rt; ValueForm::Corners.value(b"none +top-left"), Some(1));
    assert_eq!(rt; ValueForm::Corners.value(b"all -left"), Some(10));
    assert_eq!(rt;
        ValueForm::Corners.value(b"top bottom-left none right"),
        Some(10)
    );
    assert_eq!(rt; ValueForm::Corners.value(b"all -none"), Some(15));
    assert_eq!(rt; ValueForm::Corners.value(b"middle"), None);
    assert_eq!(rt; ValueForm::Corners.value(b""), None);
}

/// An option's key, the value that stands where none is set, and its code on the wire.
#[derive(Clone, Copy)]
struct OptionRow(&'static [u8], u32, Option<u32>);

fn option_rows() -> [OptionRow; 26] {
    [
        OptionRow(b"halfDuplexCapsLock", 0, Some(0x4844_4353)),
        OptionRow(b"halfDuplexNumLock", 0, Some(0x4844_4e4c)),
        OptionRow(b"halfDuplexScrollLock", 0, Some(0x4844_534c)),
        OptionRow(b"shift", 1, Some(0x4d4d_4653)),
        OptionRow(b"ctrl", 2, Some(0x4d4d_4643)),
        OptionRow(b"alt", 3, Some(0x4d4d_4641)),
        OptionRow(b"meta", 4, Some(0x4d4d_464d)),
        OptionRow(b"super", 5, Some(0x4d4d_4652)),
        OptionRow(b"xtestIsXineramaUnaware", 1, None),
        OptionRow(b"preserveFocus", 0, None),
        OptionRow(b"heartbeat", 3000, Some(0x4841_5254)),
        OptionRow(b"switchDelay", 0, Some(0x5353_5754)),
        OptionRow(b"switchDoubleTap", 0, Some(0x5353_5454)),
        OptionRow(b"switchCorners", 0, Some(0x5353_4343)),
        OptionRow(b"switchCornerSize", 0, Some(0x5353_4353)),
        OptionRow(b"relativeMouseMoves", 0, Some(0x4d44_4c54)),
        OptionRow(b"clipboardSharing", 1, Some(0x434c_5053)),
        OptionRow(b"clipboardSharingSize", 3072, None),
        OptionRow(b"screenSaverSync", 1, None),
        OptionRow(b"switchNeedsShift", 0, None),
        OptionRow(b"switchNeedsControl", 0, None),
        OptionRow(b"switchNeedsAlt", 0, None),
        OptionRow(b"win32KeepForeground", 1, None),
        OptionRow(b"disableLockToScreen", 0, None),
        OptionRow(b"defaultLockToScreenState", 0, None),
        OptionRow(b"protocol", 0, None),
    ]
}

#[test]
fn each_option_has_its_default_and_its_code(rt: HostRuntime) {
    for row in &option_rows() {
        let option = OptionName::named(row.0).expect(&rt, "an option");
        assert_eq!(rt; option.row().default, row.1);
        assert_eq!(rt; option.row().code, row.2);
    }
}
