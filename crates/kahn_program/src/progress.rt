// How far a run has come, in one line of the terminal.

use crate::asked::Options;
use cobaltmidge::{Net, Outlet, Port, RunHandle, RunWatch, SlotCell, TurnWatch, World};
use std::alloc::{AllocError, Global};
use std::io::{IsTerminal, Write};
use std::sync::Wait;
use std::time::{Clock, Duration, Instant};

/// How many milliseconds a run goes on before the line comes.
const FIRST: u64 = 1_000;

/// How many the line stands before it is written anew.
const NEXT: u64 = 200;

/// How many characters the line has at most before the two points that stand for further outputs, so that no terminal breaks it.
const WIDTH: usize = 75;

/// The line that says how far a run has come, where standard error is a terminal and the run isn't to be quiet. Once the run is over it
/// is wiped away.
#[derive(Drop)]
pub struct Progress<'a, R: Wait + Clock> {
    rt: &'a R,
    host: &'a HostRuntime,
    shows: bool,
    // Of a run by turns: when the line was written last, or else when the run was first looked at; and whether it stands.
    since: Option<Instant>,
    stands: bool,
}

// How many items have left by each channel of a run with threads.
fn left_of_run<H: RunHandle>(alloc: Global, run: &mut H) -> Result<Vec<u64>, AllocError> {
    let channels = run.net().program.channels.len();
    let mut left = Vec::new(alloc);
    for channel in 0..channels {
        left.push(run.left(channel as u8))?;
    }
    Ok(left)
}

// How many have left by each channel of a world.
fn left_of_world<C: SlotCell, O: Outlet>(
    alloc: Global,
    world: &World<C, O>,
) -> Result<Vec<u64>, AllocError> {
    let mut left = Vec::new(alloc);
    for channel in 0..world.net().program.channels.len() {
        left.push(world.released(channel as u8).len() as u64)?;
    }
    Ok(left)
}

// The line of a run in this round, by whose channels so many items have left: as many of its outputs as fit.
fn line_of(alloc: Global, net: &Net, round: u64, left: &[u64]) -> Result<String, AllocError> {
    let mut line = format!(in alloc; "round {round}, items left:")?;
    let channels = net.program.channels.iter();
    for ((channel, name), left) in channels.zip(net.channel_names.iter()).zip(left) {
        if let Port::Outside = channel.consumer {
            let name = name.as_str();
            let output = format!(in alloc; " {name} {left}")?;
            if line.len() + output.len() > WIDTH {
                line.push_str(" ..")?;
                return Ok(line);
            }
            line.push_str(output.as_str())?;
        }
    }
    Ok(line)
}

impl<'a, R: Wait + Clock> Progress<'a, R> {
    pub fn new(rt: &'a R, host: &'a HostRuntime, options: &Options) -> Progress<'a, R> {
        Progress {
            rt,
            host,
            shows: !options.quiet && host.stderr().is_terminal(),
            since: None,
            stands: false,
        }
    }

    // Writes the line over the one that stands. Whether it could.
    fn write(&self, line: Result<String, AllocError>) -> bool {
        match line {
            Ok(line) => write!(self.host.stderr(), "\r{line}\x1b[K").is_ok(),
            Err(_) => false,
        }
    }

    // Wipes it away.
    fn wipe(&self) {
        let _ = write!(self.host.stderr(), "\r\x1b[K");
    }

    // The line of a run with threads.
    fn line_of_run<H: RunHandle>(&self, run: &mut H) -> Result<String, AllocError> {
        let alloc = self.host.alloc();
        let left = left_of_run(alloc, run)?;
        line_of(alloc, run.net(), run.round(self.rt), &left)
    }

    // That of a world.
    fn line_of_world<C: SlotCell, O: Outlet>(
        &self,
        world: &World<C, O>,
    ) -> Result<String, AllocError> {
        let alloc = self.host.alloc();
        let left = left_of_world(alloc, world)?;
        line_of(alloc, world.net(), world.round(), &left)
    }

    // Whether the line of a run by turns is to be written now.
    fn is_due(&mut self) -> bool {
        let Ok(now) = Instant::now(self.rt) else {
            return false;
        };
        let Some(since) = self.since else {
            self.since = Some(now);
            return false;
        };
        let pause = if self.stands { NEXT } else { FIRST };
        if now.duration_since(since) < Duration::from_millis(pause) {
            return false;
        }
        self.since = Some(now);
        true
    }
}

impl<Rt: Wait + Clock> RunWatch for Progress<'_, Rt> {
    ghost use Rattle.std.specs.Prelude.{false};

    ghost may_stop = { false };

    fn watches(&self) -> bool {
        self.shows
    }

    fn watch<H: RunHandle, R: Wait>(&self, rt: &R, run: &mut H) {
        let mut pause = FIRST;
        let mut stands = false;
        for _ in rt.forever() {
            if !run.wait_for_end(self.rt, Duration::from_millis(pause)) {
                break;
            }
            stands |= self.write(self.line_of_run(run));
            pause = NEXT;
        }
        if stands {
            self.wipe();
        }
    }
}

impl<Rt: Wait + Clock> TurnWatch for Progress<'_, Rt> {
    fn look<C: SlotCell, O: Outlet>(&mut self, world: &World<C, O>) {
        if self.shows && self.is_due() {
            self.stands |= self.write(self.line_of_world(world));
        }
    }

    fn over(&mut self) {
        if self.stands {
            self.wipe();
        }
        self.stands = false;
    }
}
