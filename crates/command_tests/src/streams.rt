//! The adapters, over a device that moves few bytes at a time, is interrupted and fails, and over
//! files.

ghost use Rattle.std.specs.Prelude.{◌≤◌, IfOk};

use share_base::{
    FileAnswer, Files, MemorySink, Sink, SinkAnswer, Source, SourceAnswer, write_all,
};
use share_commands::{Status, run_check, run_inject};
use std::io::{Error, ErrorKind, Read, Write};
use std::test::*;
use std::{env, fs, io, process};
use system_streams::*;

/// What a device does at one call.
#[derive(Clone, Copy)]
enum Turn {
    /// Moves that many bytes, or as many as there is room for.
    Moves(usize),
    Interrupted,
    Fails,
}

/// A reader and a writer that does what its turns say. The bytes that it gives are all 7.
#[derive(Drop)]
struct Device<'a> {
    turns: &'a [Turn],
    calls: usize,
}

impl<'a> Device<'a> {
    fn new(turns: &'a [Turn]) -> Device<'a> {
        Device { turns, calls: 0 }
    }

    fn moves(&mut self, room: usize) -> io::Result<usize>
        ensures { IfOk result (λ n. n ≤ room) }
    {
        let turn = self.turns.get(self.calls).copied();
        self.calls = self.calls.saturating_add(1);
        match turn {
            Some(Turn::Moves(count)) => Ok(count.min(room)),
            Some(Turn::Interrupted) => Err(Error::from(ErrorKind::Interrupted)),
            Some(Turn::Fails) | None => Err(Error::from(ErrorKind::Other)),
        }
    }
}

impl<'a> Read for Device<'a> {
    fn read(&mut self, buf: &mut [u8]) -> io::Result<usize> {
        let count = self.moves(buf.len())?;
        buf[..count].fill(7);
        Ok(count)
    }
}

impl<'a> Write for Device<'a> {
    fn write(&mut self, bytes: &[u8]) -> io::Result<usize> {
        self.moves(bytes.len())
    }

    fn flush(&mut self) -> io::Result<()> {
        Ok(())
    }
}

#[test]
fn a_failed_read_is_not_the_end(rt: HostRuntime) {
    let turns = [
        Turn::Moves(2),
        Turn::Interrupted,
        Turn::Interrupted,
        Turn::Moves(9),
        Turn::Fails,
        Turn::Moves(0),
    ];
    let mut source = StdSource::new(Device::new(&turns));
    let mut buffer = [0; 3];
    assert_eq!(rt; source.read(&mut buffer), SourceAnswer::Got(2));
    assert_eq!(rt; buffer, [7, 7, 0]);
    assert_eq!(rt; source.read(&mut buffer), SourceAnswer::Got(3));
    assert_eq!(rt; source.read(&mut buffer), SourceAnswer::Failed);
    assert_eq!(rt; source.read(&mut buffer), SourceAnswer::End);
}

#[test]
fn a_short_write_counts_what_was_taken(rt: HostRuntime) {
    let turns = [
        Turn::Moves(1),
        Turn::Interrupted,
        Turn::Moves(2),
        Turn::Moves(0),
        Turn::Fails,
    ];
    let mut sink = StdSink::new(Device::new(&turns));
    assert_eq!(rt; sink.write(b"abc"), SinkAnswer::Took(1));
    assert_eq!(rt; sink.write(b"bc"), SinkAnswer::Took(2));
    assert_eq!(rt; sink.write(b"d"), SinkAnswer::Failed);
    assert_eq!(rt; sink.write(b"d"), SinkAnswer::Failed);
    assert!(rt; !write_all(&mut StdSink::new(Device::new(&turns)), b"abcd"));
    assert!(rt; write_all(&mut StdSink::new(Device::new(&turns)), b"abc"));
}

#[test]
fn a_stream_that_fails_is_a_fault(rt: HostRuntime) -> Result<(), Fail> {
    let mut input = StdSource::new(Device::new(&[Turn::Moves(3), Turn::Fails]));
    let mut out = MemorySink::new(rt.alloc(), 100, &[])?;
    assert_eq!(rt;
        run_inject(rt.alloc(), &mut input, &mut out),
        Status::ReadFault
    );
    Ok(())
}

/// Returns the name of a file that no other process uses.
fn temporary_name(rt: &HostRuntime, purpose: &str) -> io::Result<String> {
    let folder = env::temp_dir(rt)?;
    let process = process::id(rt.process());
    let name = format!(in rt.alloc(); "{}/synergy-share-{process}-{purpose}", folder.as_str())?;
    Ok(name)
}

#[test]
fn files_are_read_byte_for_byte(rt: HostRuntime) -> Result<(), Fail> {
    let mut files = StdFiles::new(&rt, rt.alloc());
    let name = temporary_name(&rt, "bytes")?;
    // The size of the file, the limit, and whether the file may be read.
    for (size, limit, fits) in [
        (0u32, 0, true),
        (5000, 1_048_576, true),
        (5000, 5000, true),
        (5001, 5000, false),
    ] {
        let mut bytes = Vec::new(rt.alloc());
        for number in 0..size {
            bytes.push((number % 251) as u8)?;
        }
        fs::write(&rt, name.as_str(), bytes.as_slice())?;
        match files.read_all(name.as_str(), limit) {
            FileAnswer::Bytes(read) => assert!(rt; fits && read.as_slice() == bytes.as_slice()),
            answer => assert!(rt; !fits && matches!(answer, FileAnswer::TooBig)),
        }
    }
    fs::remove_file(&rt, name.as_str())?;
    assert!(rt; matches!(files.read_all(name.as_str(), 5000), FileAnswer::Failed));
    assert!(rt; matches!(files.read_all("/", 5000), FileAnswer::Failed));
    assert!(rt; matches!(files.read_all("/dev/zero", 5000), FileAnswer::TooBig));
    Ok(())
}

#[test]
fn a_configuration_is_read_from_a_file(rt: HostRuntime) -> Result<(), Fail> {
    let name = temporary_name(&rt, "configuration")?;
    fs::write(
        &rt,
        name.as_str(),
        "section: options\nheartbeat = 5000\nend\n",
    )?;
    let mut files = StdFiles::new(&rt, rt.alloc());
    let mut out = MemorySink::new(rt.alloc(), 1000, &[])?;
    let status = run_check(rt.alloc(), name.as_str(), &mut files, &mut out);
    fs::remove_file(&rt, name.as_str())?;
    assert_eq!(rt; status, Status::Ok);
    assert_eq!(rt;
        out.bytes(),
        b"section: screens\nend\nsection: aliases\nend\nsection: links\nend\nsection: options\n\
        \theartbeat = 5000\nend\n"
            .as_slice()
    );
    Ok(())
}
