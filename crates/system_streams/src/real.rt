//! Adapters from the standard library's readers, writers and files to a source, a sink and files.
//!
//! They count their faults, and tell no bytes to the layers above, since no clause can say what the
//! system gives or takes. Where the reader or writer below says which bytes it holds, as one in
//! memory does, a read and a write answer by exactly these. A read or a write that a signal
//! interrupted is made again, and is not a fault.

ghost use Rattle.std.specs.Prelude.{◌≡◌, ◌<◌, length};
ghost use Rattle.share_base.specs.Reading.{FitsRead, Reads};
ghost use Rattle.share_base.specs.Writing.{FitsWrite, Writes};
ghost use Rattle.share_base.specs.Stored.{FileGives, FileFaults};
ghost use Rattle.system_streams.specs.Adapters.{unknown_input, unknown_output, ReadsFrom, WritesTo};

use share_base::{FileAnswer, Files, Octets, Sink, SinkAnswer, Source, SourceAnswer};
use std::alloc::Global;
use std::fs;
use std::io::{ErrorKind, Read, Write};

/// Standard input, or any other reader.
#[derive(Drop)]
pub struct StdSource<R: Read + Drop> {
    reader: R,
    faults: u64,
}

impl<R: Read + Drop> StdSource<R> {
    /// Creates a source that has not failed yet. Does not allocate.
    pub fn new(reader: R) -> StdSource<R>
        ensures reader { result.reader ≡ reader }
        ensures faults { result.faults ≡ 0 }
    {
        StdSource { reader, faults: 0 }
    }
}

impl<R: Read + Drop> Source for StdSource<R> {
    ghost state = { λ s. unknown_input s.faults };

    fn read(&mut self, buf: &mut [u8]) -> SourceAnswer
        requires { 0 < length buf.old }
        ensures fits { FitsRead result (length buf.old) }
        ensures reads { Reads result buf.new (unknown_input self.old.faults)
            (unknown_input self.new.faults) }
        ensures known { ReadsFrom R.remaining self.old.reader self.new.reader result buf.new }
    {
        for _ in 0..u64::MAX {
            match self.reader.read(buf) {
                Ok(0) => return SourceAnswer::End,
                Ok(n) => return SourceAnswer::Got(n),
                Err(error) if error.kind() == ErrorKind::Interrupted => {}
                Err(_) => break,
            }
        }
        self.faults = self.faults.saturating_add(1);
        SourceAnswer::Failed
    }
}

/// Standard output, or any other writer.
#[derive(Drop)]
pub struct StdSink<W: Write + Drop> {
    writer: W,
    faults: u64,
}

impl<W: Write + Drop> StdSink<W> {
    /// Creates a sink that has not failed yet. Does not allocate.
    pub fn new(writer: W) -> StdSink<W>
        ensures writer { result.writer ≡ writer }
        ensures faults { result.faults ≡ 0 }
    {
        StdSink { writer, faults: 0 }
    }
}

impl<W: Write + Drop> Sink for StdSink<W> {
    ghost state = { λ s. unknown_output s.faults };

    /// A write that takes nothing counts as a failure.
    fn write(&mut self, bytes: &[u8]) -> SinkAnswer
        ensures fits { FitsWrite result (length bytes.now) }
        ensures writes { Writes result bytes.now (unknown_output self.old.faults)
            (unknown_output self.new.faults) }
        ensures known { WritesTo W.contents self.old.writer self.new.writer result bytes.now }
    {
        for _ in 0..u64::MAX {
            match self.writer.write(bytes) {
                Ok(0) => break,
                Ok(n) => return SinkAnswer::Took(n),
                Err(error) if error.kind() == ErrorKind::Interrupted => {}
                Err(_) => break,
            }
        }
        self.faults = self.faults.saturating_add(1);
        SinkAnswer::Failed
    }
}

/// The files of the system, or of a runtime that stands in for it.
#[derive(Drop)]
pub struct StdFiles<'a, R: fs::Files> {
    files: &'a R,
    alloc: Global,
    calls: u64,
    faults: u64,
    overs: u64,
}

impl<'a, R: fs::Files> StdFiles<'a, R> {
    /// Creates the adapter. Does not allocate; the bytes of a file that is read come from `alloc`.
    pub fn new(files: &'a R, alloc: Global) -> StdFiles<'a, R>
        ensures files { result.files.now ≡ files.now }
        ensures counts { (result.calls ≡ 0) × (result.faults ≡ 0) × (result.overs ≡ 0) }
    {
        StdFiles {
            files,
            alloc,
            calls: 0,
            faults: 0,
            overs: 0,
        }
    }
}

/// Reads a source to its end, as a file of at most `limit` bytes. At most one byte past the limit
/// is read.
fn read_whole<S: Source>(alloc: Global, source: &mut S, limit: u64) -> FileAnswer
    ensures gives { FileGives result limit (S.state source.old).left }
    ensures faults { FileFaults result (S.state source.old).faults (S.state source.new).faults }
{
    let mut bytes = Octets::new(alloc);
    let mut buffer = [0u8; 4096];
    loop {
        let left = limit - bytes.len() as u64;
        let asked = left.min(4095) as usize + 1;
        match source.read(&mut buffer[..asked]) {
            SourceAnswer::End => return FileAnswer::Bytes(bytes),
            SourceAnswer::Failed => return FileAnswer::Failed,
            SourceAnswer::Got(n) => {
                if n as u64 > left {
                    return FileAnswer::TooBig;
                }
                let Ok(()) = bytes.extend(&buffer[..n]) else {
                    return FileAnswer::OutOfMemory;
                };
            }
        }
    }
}

impl<'a, R: fs::Files> Files for StdFiles<'a, R> {
    ghost use Rattle.std.specs.Prelude.{None};

    ghost told = { λ _ _. None };

    ghost calls = { λ f. f.calls };

    ghost faults = { λ f. f.faults };

    ghost overs = { λ f. f.overs };

    fn read_all(&mut self, name: &str, limit: u64) -> FileAnswer {
        self.calls = self.calls.saturating_add(1);
        let answer = match fs::open(self.files, name) {
            Ok(file) => read_whole(self.alloc, &mut StdSource::new(file), limit),
            Err(_) => FileAnswer::Failed,
        };
        match &answer {
            FileAnswer::TooBig => self.overs = self.overs.saturating_add(1),
            FileAnswer::Failed => self.faults = self.faults.saturating_add(1),
            FileAnswer::Bytes(_) | FileAnswer::OutOfMemory => {}
        }
        answer
    }
}
