//! Scripts and traces that are refused, each at its first bad line.

use crate::scripts::Which::{Client, Server, Turns};
use screen_config::Config;
use script_screen::TextKind::{
    AlreadyDown, BadHex, BadNumber, BadWord, MomentBack, NoPrimary, NoTurn, NotDown, SecondPrimary,
    UnknownConnection, UnknownScreen, WrongNumber,
};
use script_screen::*;
use share_base::ScreenName;
use std::alloc::Global;
use std::test::*;

/// Which text is read.
#[derive(Clone, Copy)]
enum Which {
    Server,
    Client,
    Turns,
}

/// Texts, each with its first bad line, if it has one. Server scripts are read with the screens
/// desk and pad.
const ROWS: [(Which, &[u8], Option<(u32, TextKind)>); 92] = [
    (Server, b"", Some((1, NoPrimary))),
    (Server, b"# nothing\n\n \t\n", Some((1, NoPrimary))),
    (Server, b"\nquit\n", Some((2, NoPrimary))),
    (Server, b"motion 40000 0", Some((1, NoPrimary))),
    (Server, b"primary", Some((1, BadWord))),
    (Server, b"primary desk 1920 1080 0", Some((1, BadWord))),
    (Server, b"Primary desk 1 1", Some((1, BadWord))),
    (Server, b"primary desk 0 1", Some((1, BadNumber))),
    (Server, b"primary desk 1 32768", Some((1, BadNumber))),
    (Server, b"\tprimary\tDESK  32767 1 # big", None),
    (Server, b"primary nobody 0 1", Some((1, BadNumber))),
    (Server, b"primary nobody 1 1", Some((1, UnknownScreen))),
    (
        Server,
        b"primary desk 1920 1080\nprimary desk 0 0",
        Some((2, SecondPrimary)),
    ),
    (
        Server,
        b"primary desk 1920 1080\nprimary desk",
        Some((2, BadWord)),
    ),
    (Server, b"primary desk 1920 1080\nsleep 86400000", None),
    (
        Server,
        b"primary desk 1920 1080\nsleep 86400001",
        Some((2, BadNumber)),
    ),
    (Server, b"primary desk 1920 1080\nsleep 0", None),
    (
        Server,
        b"primary desk 1920 1080\nsleep 00",
        Some((2, BadNumber)),
    ),
    (
        Server,
        b"primary desk 1920 1080\nsleep -1",
        Some((2, BadNumber)),
    ),
    (
        Server,
        b"primary desk 1920 1080\nsleep 1x",
        Some((2, BadNumber)),
    ),
    (Server, b"primary desk 1920 1080\nawait PAD", None),
    (
        Server,
        b"primary desk 1920 1080\nawait nobody",
        Some((2, UnknownScreen)),
    ),
    (Server, b"primary desk 1920 1080\nkey down 65535 255", None),
    (Server, b"primary desk 1920 1080\nkey down 1 1", None),
    (
        Server,
        b"primary desk 1920 1080\nkey down 0 1",
        Some((2, BadNumber)),
    ),
    (
        Server,
        b"primary desk 1920 1080\nkey down 65536 1",
        Some((2, BadNumber)),
    ),
    (
        Server,
        b"primary desk 1920 1080\nkey down 1 0",
        Some((2, BadNumber)),
    ),
    (
        Server,
        b"primary desk 1920 1080\nkey down 1 256",
        Some((2, BadNumber)),
    ),
    (
        Server,
        b"primary desk 1920 1080\nkey up 38",
        Some((2, NotDown)),
    ),
    (
        Server,
        b"primary desk 1920 1080\nkey repeat 1 38",
        Some((2, NotDown)),
    ),
    (
        Server,
        b"primary desk 1920 1080\nkey repeat 0 38",
        Some((2, BadNumber)),
    ),
    (
        Server,
        b"primary desk 1920 1080\nkey down 97 1\nkey down 98 1",
        Some((3, AlreadyDown)),
    ),
    (
        Server,
        b"primary desk 1920 1080\nkey down 97 1\nbutton down 1",
        None,
    ),
    (
        Server,
        b"primary desk 1920 1080\nkey down 97 1\nkey up 1\nkey down 97 1",
        None,
    ),
    (
        Server,
        b"primary desk 1920 1080\nkey down 97 1\nkey repeat 65535 1\nkey up 1\nkey up 1",
        Some((5, NotDown)),
    ),
    (
        Server,
        b"primary desk 1920 1080\nbutton down 255\nbutton down 255",
        Some((3, AlreadyDown)),
    ),
    (
        Server,
        b"primary desk 1920 1080\nbutton down 0",
        Some((2, BadNumber)),
    ),
    (
        Server,
        b"primary desk 1920 1080\nbutton down 256",
        Some((2, BadNumber)),
    ),
    (
        Server,
        b"primary desk 1920 1080\nbutton up 3",
        Some((2, NotDown)),
    ),
    (Server, b"primary desk 1920 1080\nmotion -32768 32767", None),
    (
        Server,
        b"primary desk 1920 1080\nmotion -32769 0",
        Some((2, BadNumber)),
    ),
    (
        Server,
        b"primary desk 1920 1080\nmotion 0 32768",
        Some((2, BadNumber)),
    ),
    (
        Server,
        b"primary desk 1920 1080\nmotion -0 0",
        Some((2, BadNumber)),
    ),
    (
        Server,
        b"primary desk 1920 1080\nwheel 0 -",
        Some((2, BadNumber)),
    ),
    (Server, b"primary desk 1920 1080\nwheel 0 120", None),
    (Server, b"primary desk 1920 1080\nsaver on\nsaver off", None),
    (Server, b"primary desk 1920 1080\nsaver", Some((2, BadWord))),
    (
        Server,
        b"primary desk 1920 1080\nsaver maybe",
        Some((2, BadWord)),
    ),
    (
        Server,
        b"primary desk 1920 1080\ncopy 1 -\ncopy 0 aBFf09",
        None,
    ),
    (
        Server,
        b"primary desk 1920 1080\ncopy 2 xyz",
        Some((2, BadNumber)),
    ),
    (
        Server,
        b"primary desk 1920 1080\ncopy 0 abc",
        Some((2, BadHex)),
    ),
    (
        Server,
        b"primary desk 1920 1080\ncopy 0 --",
        Some((2, BadHex)),
    ),
    (
        Server,
        b"primary desk 1920 1080\ncopy 0 0g",
        Some((2, BadHex)),
    ),
    (
        Server,
        b"primary desk 1920 1080\ncopy 0",
        Some((2, BadWord)),
    ),
    (
        Server,
        b"primary desk 1920 1080\nquit now",
        Some((2, BadWord)),
    ),
    (
        Server,
        b"primary desk 1920 1080\nresize 1 1",
        Some((2, BadWord)),
    ),
    (
        Server,
        b"primary desk 1920 1080\nquit\x80",
        Some((2, BadWord)),
    ),
    (Server, b"primary desk 1920 1080\nquit # \x80\r\nquit", None),
    (
        Server,
        b"primary desk 1920 1080\nquit\r\r\n",
        Some((2, BadWord)),
    ),
    (Client, b"", None),
    (Client, b"sleep 86400001", Some((1, BadNumber))),
    (Client, b"copy 2 -", Some((1, BadNumber))),
    (Client, b"copy 0 1", Some((1, BadHex))),
    (Client, b"resize 32767 1", None),
    (Client, b"resize 1 32768", Some((1, BadNumber))),
    (Client, b"resize 0 1", Some((1, BadNumber))),
    (Client, b"\n\nresize 1", Some((3, BadWord))),
    (Client, b"quit", Some((1, BadWord))),
    (Turns, b"", None),
    (Turns, b"join 1", Some((1, NoTurn))),
    (Turns, b"join x", Some((1, NoTurn))),
    (Turns, b"jump", Some((1, BadWord))),
    (Turns, b"turn", Some((1, BadWord))),
    (Turns, b"turn 18446744073709551615", None),
    (Turns, b"turn 18446744073709551616", Some((1, BadNumber))),
    (Turns, b"turn 5\nturn 5", None),
    (Turns, b"\n# back\nturn 5\nturn 4", Some((4, MomentBack))),
    (Turns, b"turn 0\njoin 1\njoin 2", None),
    (Turns, b"turn 0\njoin 2", Some((2, WrongNumber))),
    (Turns, b"turn 0\njoin 0", Some((2, WrongNumber))),
    (Turns, b"turn 0\njoin 1\njoin 1", Some((3, WrongNumber))),
    (Turns, b"turn 0\ngot 1 0aFF", None),
    (Turns, b"turn 0\ngot 1 -", Some((2, BadHex))),
    (Turns, b"turn 0\ngot 1 0", Some((2, BadHex))),
    (Turns, b"turn 0\ngot 0 00", Some((2, UnknownConnection))),
    (Turns, b"turn 0\ngot 2 00", Some((2, UnknownConnection))),
    (
        Turns,
        b"turn 0\nend 1\ngot 1 00",
        Some((3, UnknownConnection)),
    ),
    (Turns, b"turn 0\nend 1\njoin 1\nroom 1 0", None),
    (
        Turns,
        b"turn 0\nend 1\njoin 1\ngot 1 00",
        Some((4, UnknownConnection)),
    ),
    (
        Turns,
        b"turn 0\nfail 1\nend 1",
        Some((3, UnknownConnection)),
    ),
    (Turns, b"turn 0\nroom 2 5", Some((2, UnknownConnection))),
    (
        Turns,
        b"turn 0\nroom 1 18446744073709551616",
        Some((2, BadNumber)),
    ),
];

fn with_screen(mut config: Config, name: &[u8]) -> Result<Config, Fail> {
    let name = ScreenName::read(name).ok_or("no name")?;
    if config.count() < 64 && config.find(name.as_slice()).is_none() {
        config.add_screen(name)?;
    }
    Ok(config)
}

fn refusal<T: Drop>(read: Result<T, TextFault>) -> Result<Option<(u32, TextKind)>, Fail> {
    match read {
        Ok(_) => Ok(None),
        Err(TextFault::Refused { line, kind }) => Ok(Some((line, kind))),
        Err(TextFault::OutOfMemory) => Err(Fail::from("out of memory")),
    }
}

fn verdict(
    alloc: Global,
    which: Which,
    text: &[u8],
    config: &Config,
) -> Result<Option<(u32, TextKind)>, Fail> {
    match which {
        Server => refusal(read_script(alloc, text, config)),
        Client => refusal(read_client_script(alloc, text)),
        Turns => refusal(read_trace(alloc, text)),
    }
}

#[test]
fn each_text_has_its_first_bad_line(rt: HostRuntime) -> Result<(), Fail> {
    let config = with_screen(Config::new(rt.alloc()), b"desk")?;
    let config = with_screen(config, b"pad")?;
    for (which, text, bad) in &ROWS {
        let found = verdict(rt.alloc(), *which, text, &config)?;
        assert_eq!(rt; found, *bad);
    }
    Ok(())
}
