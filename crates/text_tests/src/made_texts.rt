//! Texts that numbers make.

use generated_texts::made;
use std::test::*;

/// Numbers with the first lines of their scripts after the waits, the length of each script in
/// bytes, and its last lines. All were worked out by `tools/generated_texts.py`, which has nothing
/// in common with this crate.
const ROWS: [(u64, &[u8], usize, &[u8]); 3] = [
    (
        1,
        b"button down 1\nwheel 0 120\nbutton up 1\nmotion 28 -39\n",
        40_771,
        b"button up 1\nkey down 129 33\nkey up 3\nquit\n",
    ),
    (
        2,
        b"wheel 0 120\nmotion 23 -167\ncopy 0 000102030405060708090a0b0c0d0e0f1011121314151617\n",
        41_644,
        b"wheel 0 120\nwheel 0 120\nkey up 28\nquit\n",
    ),
    (
        18_446_744_073_709_551_615,
        b"motion 154 49\nmotion -145 -181\nkey down 104 8\n",
        42_808,
        b"motion 57 136\nmotion 94 -51\nmotion 285 67\nquit\n",
    ),
];

const WAITS: &[u8] = b"primary desk 1920 1080\nawait s1\nawait s2\nawait s3\n";

#[test]
fn scripts_are_of_their_numbers(rt: HostRuntime) -> Result<(), Fail> {
    for (number, start, len, end) in ROWS {
        let texts = made(rt.alloc(), number)?;
        let script = texts.script.as_slice();
        let events = script.strip_prefix(WAITS).ok_or("no waits")?;
        assert!(rt; events.starts_with(start));
        assert_eq!(rt; script.len(), len);
        assert!(rt; script.ends_with(end));
    }
    Ok(())
}
