//! The program on the host that it runs on, from its command line on.

use crate::asked::Options;
use crate::failure::Failure;
use crate::printing::print_failure;
use crate::program::main_of;
use crate::progress::Progress;
use crate::words::{not_text, options};
use clap::Error;
use clap::error::ErrorKind;
use host::StdHost;
use std::alloc::Global;
use std::io::IsTerminal;
use std::rt::Env;
use std::sync::Wait;
use std::thread::Threads;
use std::time::Clock;
use std::{env, io};

/// The exit status where the command line is refused.
const REFUSED: u8 = 2;

/// The words of the command line, the program's name first.
fn words<R: Env + AllocGlobal>(rt: &R) -> io::Result<Vec<String>> {
    Ok(env::args(rt)?.collect(rt.alloc())?)
}

/// What the program does for want of memory.
fn no_memory(rt: &HostRuntime) -> u8 {
    print_failure(Failure::NoMemory, &mut rt.stderr())
}

/// What it does where the command line is refused, also where that asks for help.
fn print_refusal(rt: &HostRuntime, error: &Error) -> u8 {
    if let ErrorKind::OutOfMemory = error.kind() {
        return no_memory(rt);
    }
    let _ = error.print(rt);
    REFUSED
}

/// What the command line asks for, or the exit status where it is refused.
fn asked(rt: &HostRuntime, alloc: Global) -> Result<Options, u8> {
    let words = match words(rt) {
        Ok(words) => words,
        Err(error) => {
            return Err(match error.kind() {
                io::ErrorKind::OutOfMemory => no_memory(rt),
                _ => print_refusal(rt, &not_text(alloc)),
            });
        }
    };
    match options(alloc, words.as_slice()) {
        Ok(options) => Ok(options),
        Err(error) => Err(print_refusal(rt, &error)),
    }
}

/// Runs what the words of the command line ask for, and gives the exit status. Who sits at a terminal is told all that there is to say, and how
/// far the run has come. `threads` is by what threads are made, and waited for.
pub fn run_on_host<R: Threads + Wait + Clock + Sync>(threads: &R, rt: HostRuntime) -> u8 {
    let alloc = rt.alloc();
    let mut options = match asked(&rt, alloc) {
        Ok(options) => options,
        Err(status) => return status,
    };
    options.explain = options.explain || rt.stderr().is_terminal();
    let mut watch = Progress::new(threads, &rt, &options);
    let mut host = StdHost::new(rt);
    main_of(threads, alloc, &mut host, &options, &mut watch)
}
