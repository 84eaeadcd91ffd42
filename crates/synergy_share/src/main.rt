//! The program: it hands the system's words, streams, files and sockets to the top call, and ends
//! with its status.
#![tactic(auto)]

use mio_sockets::{MioHub, MioLink};
use share_commands::{Status, run};
use std::env;
use std::io::{ErrorKind, Write};
use std::process::ExitCode;
use system_streams::{StdFiles, StdSink, StdSource};

/// Returns the words after the program's name, or `Usage` if one of them is not UTF-8.
fn words_of(rt: &HostRuntime) -> Result<Vec<String>, Status> {
    let all = match env::args(rt) {
        Ok(all) => all,
        Err(error) if error.kind() == ErrorKind::OutOfMemory => return Err(Status::OutOfMemory),
        Err(_) => return Err(Status::Usage),
    };
    let mut words = Vec::new(rt.alloc());
    for word in all.skip(1) {
        words.push(word).map_err(|_| Status::OutOfMemory)?;
    }
    Ok(words)
}

fn main(rt: HostRuntime) -> ExitCode {
    let mut files = StdFiles::new(&rt, rt.alloc());
    let mut input = StdSource::new(rt.stdin());
    let mut hub = MioHub::new(&rt, rt.alloc());
    let mut link = MioLink::new(&rt, rt.alloc());
    let mut out = StdSink::new(rt.stdout());
    let status = match words_of(&rt) {
        Ok(words) => run(
            rt.alloc(),
            &words,
            &mut files,
            &mut input,
            &mut hub,
            &mut link,
            &mut out,
        ),
        Err(status) => status,
    };
    // If standard error fails too, the exit code still tells how the program ended.
    let _ = rt.stderr().write_all(status.report().as_slice());
    ExitCode::from(status.code())
}
