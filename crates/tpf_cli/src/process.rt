// The program as a process: the words, files, streams and sockets that the system gives it, handed to the top call.
use crate::top::{Inside, run};
use std::alloc::Global;
use std::env::Env;
use std::net::Net;
use std::process::ExitCode;
use std::rt::Files;
use std::sync::Wait;
use std::time::Clock;
use std::{env, io};
use tpf_base::write_all;
use wire_real::{DiskShelf, NetWire, StreamSink, Streams};

/// The words with which the process was started (its command-line arguments), its name the first.
///
/// It fails with `OutOfMemory` where memory ran out, and with another kind where one of them is no UTF-8
/// text.
pub fn words_of<R: Env + AllocGlobal>(rt: &R) -> io::Result<Vec<String>> {
    let words = env::args(rt)?;
    Ok(words.collect(rt.alloc())?)
}

/// Runs the program with these words over the files, the standard output and error, and the sockets of the
/// system.
fn run_words<R: Files + Streams + Net + Clock + Wait + AllocGlobal>(
    rt: &R,
    words: &[String],
) -> ExitCode {
    let alloc: Global = rt.alloc();
    let mut shelf = DiskShelf::new(rt);
    let mut wire = NetWire::new(rt);
    let mut out = StreamSink::output(rt);
    let mut err = StreamSink::errors(rt);
    let mut inside = Inside::Unused;
    let status = run(
        rt,
        alloc,
        words,
        &mut shelf,
        &mut wire,
        &mut out,
        &mut err,
        &mut inside,
    );
    ExitCode::from(status)
}

/// Says that memory ran out over the words.
fn end_without_words<R: Streams>(rt: &R) -> ExitCode {
    let _ = write_all(&mut StreamSink::errors(rt), b"memory\n");
    ExitCode::from(8)
}

/// Runs the program with the words of the process over the files, the standard output and error, and
/// the sockets of the system.
///
/// The status is that of the top call. Words of which one is no UTF-8 text are no command: they are answered
/// as no words at all are, by the usage line and status 2. Where memory ran out over the words the status is
/// 8, with the line `memory`.
pub fn run_process<R: Env + Files + Streams + Net + Clock + Wait + AllocGlobal>(
    rt: &R,
) -> ExitCode {
    match words_of(rt) {
        Ok(words) => run_words(rt, &words),
        Err(error) if error.kind() == io::ErrorKind::OutOfMemory => end_without_words(rt),
        Err(_) => run_words(rt, &[]),
    }
}
