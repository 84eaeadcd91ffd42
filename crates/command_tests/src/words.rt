//! Words that name commands, and words that name none.

use command_words::*;
use share_base::OutOfMemory;
use std::alloc::Global;
use std::test::*;

fn words(alloc: Global, line: &str) -> Result<Vec<String>, OutOfMemory> {
    let mut words = Vec::new(alloc);
    for word in line.split(' ') {
        words.push(String::from_str(alloc, word)?)?;
    }
    Ok(words)
}

fn names_one(alloc: Global, line: &str) -> Result<bool, OutOfMemory> {
    let words = words(alloc, line)?;
    Ok(form(&words).is_some())
}

#[test]
fn commands_have_exactly_their_words(rt: HostRuntime) {
    let rows = [
        ("inject", true),
        ("show client", true),
        ("check desks", true),
        ("replay desks script trace", true),
        ("replay desks script", false),
        ("inject more", false),
        ("serve desks script 0 0", true),
        ("serve desks script 65535 4294967295", true),
        ("serve desks script 65536 0", false),
        ("serve desks script 0 4294967296", false),
        ("serve desks script 024800 1", false),
        ("serve desks script +1 1", false),
        ("serve desks script -1 1", false),
        ("serve desks script 0x1 1", false),
        ("serve desks script 1", false),
        ("serve desks script 1 1 1", false),
        ("join pad localhost 24800 1 32767 script 0", true),
        ("join pad. - 0 1024 768 script 1", true),
        ("join -pad localhost 24800 1024 768 script 1", false),
        ("join pad localhost 24800 0 768 script 1", false),
        ("join pad localhost 24800 1024 32768 script 1", false),
        ("join pad localhost 24800 1024 768 script", false),
        ("generate 0", true),
        ("generate 18446744073709551615", true),
        ("generate 18446744073709551616", false),
        ("generate", false),
        ("--help", false),
    ];
    for (line, is_one) in &rows {
        assert_eq!(rt; names_one(rt.alloc(), line), Ok(*is_one));
    }
}
