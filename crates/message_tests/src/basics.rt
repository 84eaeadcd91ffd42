//! Lists, numbers, names, and the outside in memory.

ghost use Rattle.std.specs.Prelude.{◌≤◌, ◌+◌, length};

use share_base::*;
use std::test::*;

#[test]
fn octets_grow(rt: HostRuntime) -> Result<(), Fail> {
    let mut octets = Octets::new(rt.alloc());
    octets.push(7)?;
    octets.extend(&[8, 9])?;
    octets.extend_u16(0x0102)?;
    octets.extend_u32(0x0304_0506)?;
    assert_eq!(rt; octets.as_slice(), [7, 8, 9, 1, 2, 3, 4, 5, 6].as_slice());
    Ok(())
}

#[test]
fn words_grow(rt: HostRuntime) -> Result<(), Fail> {
    let mut words = Words32::new(rt.alloc());
    words.push(7)?;
    words.extend(&[8, 4_294_967_295])?;
    assert_eq!(rt; words.as_slice(), [7, 8, 4_294_967_295].as_slice());
    Ok(())
}

const NUMBERS: &[u8] = b"18446744073709551615 4294967295 0 -32768";

fn put_numbers<B: Buffer>(out: &mut B)
    requires { length (B.content out.old) + 44 ≤ B.capacity out.old }
{
    put_u64(out, 18_446_744_073_709_551_615);
    out.extend(b" ");
    put_u32(out, 4_294_967_295);
    out.extend(b" ");
    put_u16(out, 0);
    out.extend(b" ");
    put_i16(out, -32_768);
}

#[test]
fn numbers_are_printed_into_any_buffer(rt: HostRuntime) -> Result<(), Fail> {
    let mut lines = Lines::new();
    put_numbers(&mut lines);
    assert_eq!(rt; lines.as_slice(), NUMBERS);
    let mut line = ShortLine::new();
    put_numbers(&mut line);
    assert_eq!(rt; line.as_slice(), NUMBERS);
    let mut bytes = Vec::with_capacity(rt.alloc(), 44)?;
    put_numbers(&mut bytes);
    assert_eq!(rt; bytes.as_slice(), NUMBERS);
    Ok(())
}

#[test]
fn memory_fails_at_the_listed_calls(rt: HostRuntime) -> Result<(), Fail> {
    let mut source = MemorySource::new(rt.alloc(), b"abc", &[2])?;
    let mut buffer = [0; 2];
    assert_eq!(rt; source.read(&mut buffer), SourceAnswer::Got(2));
    assert_eq!(rt; source.read(&mut buffer), SourceAnswer::Failed);
    assert_eq!(rt; source.read(&mut buffer), SourceAnswer::Got(1));
    assert_eq!(rt; source.read(&mut buffer), SourceAnswer::End);
    let mut sink = MemorySink::new(rt.alloc(), 3, &[1])?;
    assert_eq!(rt; sink.write(b"ab"), SinkAnswer::Failed);
    assert_eq!(rt; sink.write(b"ab"), SinkAnswer::Took(2));
    assert_eq!(rt; sink.write(b"cd"), SinkAnswer::Took(1));
    assert_eq!(rt; sink.write(b"d"), SinkAnswer::Failed);
    assert_eq!(rt; sink.bytes(), b"abc".as_slice());
    Ok(())
}

#[test]
fn names_are_read_and_compared(rt: HostRuntime) -> Result<(), Fail> {
    let desk = ScreenName::read(b"Desk_1.left-half.").ok_or("a name")?;
    let same = ScreenName::read(b"desk_1.LEFT-half.").ok_or("a name")?;
    assert!(rt; desk.same(&same));
    assert!(rt; ScreenName::read(b"").is_none());
    assert!(rt; ScreenName::read(b"-desk").is_none());
    assert!(rt; ScreenName::read(b"a..b").is_none());
    assert!(rt; ScreenName::read(b".").is_none());
    assert!(rt; ScreenName::read(&[b'a'; 255]).is_some());
    assert!(rt; ScreenName::read(&[b'a'; 256]).is_none());
    Ok(())
}

#[test]
fn files_are_read_whole(rt: HostRuntime) -> Result<(), Fail> {
    let mut files = MemoryFiles::new(rt.alloc(), &[2])?;
    files.add("a", b"abc")?;
    match files.read_all("a", 3) {
        FileAnswer::Bytes(bytes) => assert_eq!(rt; bytes.as_slice(), b"abc".as_slice()),
        _ => assert!(rt; false),
    }
    assert!(rt; matches!(files.read_all("a", 3), FileAnswer::Failed));
    assert!(rt; matches!(files.read_all("a", 2), FileAnswer::TooBig));
    assert!(rt; matches!(files.read_all("b", 2), FileAnswer::Failed));
    Ok(())
}
