//! The streaming program on the host that it runs on.

use crate::program::main_of;
use clap::Error;
use clap::error::ErrorKind;
use host::StdHost;
use kahn_program::{Failure, print_failure};
use std::alloc::Global;
use std::io::IsTerminal;
use std::rt::Env;
use std::sync::Wait;
use std::thread::Threads;
use std::time::Clock;
use std::{env, io};
use stream_words::{StreamOptions, asks_for_stream, stream_options};

/// The exit status where the command line is refused.
const REFUSED: u8 = 2;

/// The words of the command line, the program's name first, where they are text.
fn words<R: Env + AllocGlobal>(rt: &R) -> io::Result<Vec<String>> {
    Ok(env::args(rt)?.collect(rt.alloc())?)
}

/// What the program does where the command line is refused, also where that asks for help.
fn print_refusal(rt: &HostRuntime, error: &Error) -> u8 {
    if let ErrorKind::OutOfMemory = error.kind() {
        return print_failure(Failure::NoMemory, &mut rt.stderr());
    }
    let _ = error.print(rt);
    REFUSED
}

/// Runs what these words ask for, which ask for streams. Who sits at a terminal is told all that there is to say.
fn stream_by_words(rt: HostRuntime, alloc: Global, words: &[String]) -> u8 {
    let mut options: StreamOptions = match stream_options(alloc, words) {
        Ok(options) => options,
        Err(error) => return print_refusal(&rt, &error),
    };
    options.explain = options.explain || rt.stderr().is_terminal();
    let (status, _host) = main_of(alloc, StdHost::new(rt), &options);
    status
}

/// Runs what the words of the command line ask for, and gives the exit status: with `--stream` on items as they come, and else a batch. Words that
/// are no text are left to the batch, which refuses them.
pub fn run_on_host<R: Threads + Wait + Clock + Sync>(threads: &R, rt: HostRuntime) -> u8 {
    let alloc = rt.alloc();
    match words(&rt) {
        Ok(words) => {
            if asks_for_stream(words.as_slice()) {
                return stream_by_words(rt, alloc, words.as_slice());
            }
        }
        Err(error) => {
            if let io::ErrorKind::OutOfMemory = error.kind() {
                return print_failure(Failure::NoMemory, &mut rt.stderr());
            }
        }
    }
    kahn_program::run_on_host(threads, rt)
}
