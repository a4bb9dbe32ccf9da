//! The program on the host that it runs on, from its command line on.

use crate::flags::asks_for_status;
use crate::options::status_options;
use crate::program::main_of;
use clap::Error;
use clap::error::ErrorKind;
use host::StdHost;
use std::alloc::Global;
use std::io::{IsTerminal, Write};
use std::rt::Env;
use std::{env, io};

/// The exit status where the command line is refused, and where there is no memory.
const REFUSED: u8 = 2;

const FAILED: u8 = 1;

/// The words of the command line, the program's name first, where they are text.
fn words<R: Env + AllocGlobal>(rt: &R) -> io::Result<Vec<String>> {
    Ok(env::args(rt)?.collect(rt.alloc())?)
}

/// What the program does for want of memory.
fn no_memory(rt: &HostRuntime) -> u8 {
    let _ = rt.stderr().write_all(b"no memory\n");
    FAILED
}

/// What it does where the command line is refused, also where that asks for help.
fn print_refusal(rt: &HostRuntime, error: &Error) -> u8 {
    if let ErrorKind::OutOfMemory = error.kind() {
        return no_memory(rt);
    }
    let _ = error.print(rt);
    REFUSED
}

/// Does what these words ask for, which ask for a status. Who sits at a terminal is told all that there is to say.
fn status_by_words(rt: HostRuntime, alloc: Global, words: &[String]) -> u8 {
    let mut options = match status_options(alloc, words) {
        Ok(options) => options,
        Err(error) => return print_refusal(&rt, &error),
    };
    options.explain = options.explain || rt.stderr().is_terminal();
    let mut host = StdHost::new(rt);
    main_of(alloc, &mut host, &options)
}

/// Does what the words of the command line ask for, where they ask what a folder holds, and gives the exit status. Where they ask for anything
/// else, or are no text, nothing is done.
pub fn status_on_host(rt: HostRuntime) -> Option<u8> {
    let alloc = rt.alloc();
    match words(&rt) {
        Ok(words) => {
            if asks_for_status(words.as_slice()) {
                Some(status_by_words(rt, alloc, words.as_slice()))
            } else {
                None
            }
        }
        Err(error) => {
            if let io::ErrorKind::OutOfMemory = error.kind() {
                Some(no_memory(&rt))
            } else {
                None
            }
        }
    }
}
