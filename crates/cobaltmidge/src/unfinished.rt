//! A run that came to no end.

ghost use Rattle.std.specs.Prelude.{◌≡◌, Some};
ghost use Rattle.cobaltmidge.specs.Errors.{error_text, run_error};

use crate::ending::RunWorld;
use crate::error::{Error, run_error};
use crate::fault::RunFault;
use crate::going_on::NotBegun;
use outlet::Outlet;
use runtime::History;
use std::{error, fmt};
use world::Output;

/// A run that came to no end: why, and what is left of it.
#[derive(Drop)]
pub struct Unfinished<O: Outlet> {
    pub fault: RunFault,
    pub left: Left<O>,
}

/// What is left of a run that came to no end.
#[derive(Drop)]
pub enum Left<O: Outlet> {
    /// It didn't begin. These are its outlets, as they were handed in.
    Outputs(Vec<Output<O>>),
    /// It began. This is the world to which it came, with its disks and outlets, and what happened by then, where that was to be kept.
    World(RunWorld<O>, History),
}

/// A run that doesn't go on behind what its outlets hold, or comes to no end.
#[derive(Drop)]
pub enum Unresumed<O: Outlet> {
    /// It didn't begin.
    NotBegun(NotBegun<O>),
    /// It began.
    Unfinished(Unfinished<O>),
}

impl<O: Outlet> fmt::Debug for Unfinished<O> {
    fn fmt<W: fmt::Write>(&self, f: &mut fmt::Formatter<W>) -> fmt::Result {
        write!(f, "{:?}", self.fault)
    }
}

// It reads as its fault does.
impl<O: Outlet> fmt::Display for Unfinished<O> {
    ghost output = { λ unfinished. Some (error_text (run_error unfinished.fault)) };

    fn fmt<W: fmt::Write>(&self, f: &mut fmt::Formatter<W>) -> fmt::Result {
        write!(f, "{}", run_error(self.fault))
    }
}

impl<O: Outlet> error::Error for Unfinished<O> {}

impl<O: Outlet> fmt::Debug for Unresumed<O> {
    fn fmt<W: fmt::Write>(&self, f: &mut fmt::Formatter<W>) -> fmt::Result {
        match self {
            Unresumed::NotBegun(refused) => write!(f, "{:?}", refused.fault),
            Unresumed::Unfinished(unfinished) => write!(f, "{unfinished:?}"),
        }
    }
}

// It reads as its fault does.
impl<O: Outlet> fmt::Display for Unresumed<O> {
    fn fmt<W: fmt::Write>(&self, f: &mut fmt::Formatter<W>) -> fmt::Result {
        match self {
            Unresumed::NotBegun(refused) => write!(f, "{}", refused.fault),
            Unresumed::Unfinished(unfinished) => write!(f, "{unfinished}"),
        }
    }
}

impl<O: Outlet> error::Error for Unresumed<O> {}

impl<O: Outlet> From<Unfinished<O>> for Error {
    ghost from_gives = { λ unfinished e. e ≡ run_error unfinished.fault };

    fn from(unfinished: Unfinished<O>) -> Self {
        let Unfinished { fault, .. } = unfinished;
        run_error(fault)
    }
}
