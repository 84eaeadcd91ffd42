//! The parts that no socket reaches: a clock that fails, and calls that a signal interrupts.

ghost use Rattle.std.specs.Prelude.{◌≤◌, IfOk};

use crate::stopwatch::Stopwatch;
use crate::streams::{read_some, write_some};
use hub_acts::{ReadAnswer, WriteAnswer};
use std::io;
use std::io::{Error, ErrorKind, Read, Write};
use std::test::*;
use std::time::{Clock, Duration};

/// A clock that reads one time, or fails.
#[derive(Clone, Copy)]
struct Stands(Option<u64>);

impl Clock for Stands {
    fn monotonic(&self) -> io::Result<Duration> {
        match self.0 {
            Some(millis) => Ok(Duration::from_millis(millis)),
            None => Err(Error::from(ErrorKind::Other)),
        }
    }

    fn since_1970(&self) -> io::Result<Duration> {
        Err(Error::from(ErrorKind::Other))
    }
}

#[test]
fn moments_never_go_back(rt: HostRuntime) {
    let mut stopwatch = Stopwatch::start(&Stands(Some(1000)));
    for (reading, moment) in [
        (Some(1000), 0),
        (Some(1007), 7),
        (None, 7),
        (Some(1003), 7),
        (Some(900), 7),
        (Some(5000), 4000),
    ] {
        assert_eq!(rt; stopwatch.read(&Stands(reading)), moment);
    }
    let mut late = Stopwatch::start(&Stands(None));
    for (reading, moment) in [(None, 0), (Some(50), 0), (Some(53), 3)] {
        assert_eq!(rt; late.read(&Stands(reading)), moment);
    }
}

/// A stream that moves that many bytes, or fails so, at each call in turn.
#[derive(Drop)]
struct Device<'a> {
    turns: &'a [Result<usize, ErrorKind>],
    calls: usize,
}

impl<'a> Device<'a> {
    fn new(turns: &'a [Result<usize, ErrorKind>]) -> Device<'a> {
        Device { turns, calls: 0 }
    }

    fn moves(&mut self, room: usize) -> io::Result<usize>
        ensures { IfOk result (λ n. n ≤ room) }
    {
        let turn = self.turns.get(self.calls).copied();
        self.calls = self.calls.saturating_add(1);
        match turn {
            Some(Ok(count)) => Ok(count.min(room)),
            Some(Err(kind)) => Err(Error::from(kind)),
            None => Err(Error::from(ErrorKind::Other)),
        }
    }
}

impl<'a> Read for Device<'a> {
    fn read(&mut self, buf: &mut [u8]) -> io::Result<usize> {
        self.moves(buf.len())
    }
}

impl<'a> Write for Device<'a> {
    fn write(&mut self, bytes: &[u8]) -> io::Result<usize> {
        self.moves(bytes.len())
    }

    fn flush(&mut self) -> io::Result<()> {
        Ok(())
    }
}

#[test]
fn interrupted_calls_are_made_again(rt: HostRuntime) {
    let turns = [
        Err(ErrorKind::Interrupted),
        Err(ErrorKind::Interrupted),
        Ok(9),
        Err(ErrorKind::WouldBlock),
        Err(ErrorKind::ConnectionReset),
        Ok(0),
    ];
    let mut reader = Device::new(&turns);
    let mut writer = Device::new(&turns);
    let mut buf = [0; 3];
    for (read, written) in [
        (ReadAnswer::Got(3), WriteAnswer::Took(3)),
        (ReadAnswer::NotNow, WriteAnswer::NotNow),
        (ReadAnswer::Failed, WriteAnswer::Failed),
        (ReadAnswer::End, WriteAnswer::Failed),
    ] {
        assert_eq!(rt; read_some(&mut reader, &mut buf), read);
        assert_eq!(rt; write_some(&mut writer, &buf), written);
    }
}
