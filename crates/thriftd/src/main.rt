//! The program: it hands its words, the system's files, the standard streams, its ports and its handlers to the top call, and ends with its status.
#![tactic(auto)]

use calculator::Calculator;
use call_rules::Handler;
use house_handlers::{Mirror, Store};
use net_links::NetBinder;
use outside::EmptyGate;
use std::alloc::AllocError;
use std::fs::{self, File};
use std::io::ErrorKind;
use std::net::Net;
use std::process::ExitCode;
use std::sync::Wait;
use std::thread::Threads;
use std::{env, io};
use streams::{RealFiles, RealIn, RealOut};
use thrift_host::{Status, host};
use told_links::{ToldBinder, ToldSink};

fn main(rt: HostRuntime) -> ExitCode {
    let _kept = [open_root(&rt), open_root(&rt), open_root(&rt)];
    let words = match words(&rt) {
        Ok(words) => words,
        Err(error) if error.kind() == ErrorKind::OutOfMemory => return end_without_memory(&rt),
        // A word that isn't UTF-8 makes no command, as no word does.
        Err(_) => Vec::new(rt.alloc()),
    };
    match run(&rt, &rt, &words) {
        Ok(status) => ExitCode::from(status as u8),
        Err(AllocError) => end_without_memory(&rt),
    }
}

/// The root folder, opened: it can be neither read nor written. Three such handles take the numbers of the standard streams that are closed, so that no
/// file and no socket gets one, and each use of such a stream fails.
fn open_root(rt: &HostRuntime) -> Option<File> {
    fs::open(rt, "/").ok()
}

/// The program's words, without its name.
fn words(rt: &HostRuntime) -> io::Result<Vec<String>> {
    let mut words = Vec::new(rt.alloc());
    for word in env::args(rt)?.skip(1) {
        words.push(word)?;
    }
    Ok(words)
}

/// Says that memory ran out before the command began.
fn end_without_memory(rt: &HostRuntime) -> ExitCode {
    let _ = eprintln!(rt; "thriftd: no memory");
    ExitCode::from(Status::NoMemory as u8)
}

/// Runs the command of these words with a calculator, a store and a mirror; threads and ports are those of `handle`.
fn run<R: Threads + Wait + Net + Sync>(
    rt: &HostRuntime,
    handle: &R,
    words: &[String],
) -> Result<Status, AllocError> {
    let alloc = rt.alloc();
    let mut handlers: Vec<Box<dyn Handler>> = Vec::new(alloc);
    add(&mut handlers, Box::new(alloc, Calculator::new(alloc))?)?;
    add(&mut handlers, Box::new(alloc, Store::new(alloc))?)?;
    add(&mut handlers, Box::new(alloc, Mirror::new())?)?;
    Ok(run_with(rt, handle, words, handlers))
}

/// Adds a handler to these.
fn add(handlers: &mut Vec<Box<dyn Handler>>, handler: Box<dyn Handler>) -> Result<(), AllocError> {
    handlers.push(handler)?;
    Ok(())
}

/// Runs the command of these words with these handlers, on the system's files, the standard streams and the ports of the loopback address.
fn run_with<H: Handler, R: Threads + Wait + Net + Sync>(
    rt: &HostRuntime,
    handle: &R,
    words: &[String],
    handlers: Vec<H>,
) -> Status {
    let mut files = RealFiles::new(rt);
    let mut input = RealIn::new(rt);
    let mut output = ToldSink::new(RealOut::output(rt));
    let mut errors = ToldSink::new(RealOut::errors(rt));
    let mut binder = ToldBinder::new(NetBinder::new(handle));
    host(
        handle,
        rt.alloc(),
        words,
        &mut files,
        &mut input,
        &mut output,
        &mut errors,
        &mut binder,
        &EmptyGate,
        handlers,
    )
}
