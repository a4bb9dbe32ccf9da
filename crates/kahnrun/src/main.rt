//! `kahnrun [--script FILE] [--state FOLDER] [--sync] [--rounds N] [--items N] [--room N] [--plain] [--approx N] [--explain] [--history FILE] [--quiet] NET INPUTS` runs the network of one file on
//! the inputs of the other, each node on a thread of its own (`--plain`: all on one), lets fail what the script says, and prints
//! what each output released, and whether the run is complete. With `--approx` it runs nothing, and prints that approximation of
//! each output's history, and whether it is a solution. With `--state` what left is kept in a folder too, and a further run with
//! that folder goes on behind what it has.
//!
//! With `--explain` a second line says of a text that is refused at which column, and in words. With `--history` what happens in the run
//! is written into a file, a line for each event. On a terminal a line says how far a run of more than a second has come, if it isn't to
//! be `--quiet`.
//!
//! `kahnrun --status FOLDER` says what such a folder holds and how far its run has come, also while a run is at work there.
//!
//! The exit status is 0 where the last line is `complete`, 3 where it is `partial`, 2 where a text or the command line is
//! refused (or help is asked for), and 1 for any other failure, as where a line can't be written.
#![tactic(auto)]

use status_program::status_on_host;
use std::process::ExitCode;
use stream_program::run_on_host;

fn main(rt: HostRuntime) -> ExitCode {
    ExitCode::from(match status_on_host(rt) {
        Some(status) => status,
        None => run_on_host(&rt, rt),
    })
}
