//! Where a process stands.

ghost use Rattle.std.specs.Prelude.{◌≡◌, ◌↔◌, IsTrue, IfOk, List, ℤ};
ghost use Rattle.kahn_net.specs.States.{point_of, standing_in, standing_of};

use crate::same::{is_same_passes, is_same_values};
use std::alloc::{AllocError, Global};

/// A place among the statements of a process. A site is a get or a put; a process's sites are
/// numbered from 0 in order of the text.
#[derive(Debug, Drop)]
pub struct Place {
    pub site: usize,
    /// The passes that remain of each repetition round the site, the outermost first: none in
    /// edition 1, which has no repetitions.
    pub left: Vec<u16>,
}

/// How far a process is.
#[derive(Debug, Drop)]
pub enum Mode {
    /// Before its first statement.
    NotBegun,
    /// Before the get or put of this place, which is still to be done.
    At(Place),
    /// Past its last statement, or past a stop.
    Finished,
}

/// A process's state: how far it is, and its variables there, in order of declaration.
#[derive(Debug)]
pub struct ProcState {
    pub mode: Mode,
    pub variables: Vec<i64>,
}

// Written out, since each crate above would go through a derived one again.
impl Drop for ProcState {
    fn drop(self) {
        let Self { mode, variables } = self;
    }
}

impl Place {
    /// Whether two places are the same.
    pub fn is_same(&self, other: &Place) -> bool
        ensures { IsTrue result ↔ (point_of self.now ≡ point_of other.now) }
    {
        self.site == other.site && is_same_passes(&self.left, &other.left)
    }

    /// The same place once more, in memory of its own.
    pub fn copy(&self, alloc: Global) -> Result<Place, AllocError>
        ensures { IfOk result (λ copy. point_of copy ≡ point_of self.now) }
    {
        Ok(Place {
            site: self.site,
            left: Vec::from_slice(alloc, self.left.as_slice())?,
        })
    }
}

impl Mode {
    /// Whether two modes are the same.
    pub fn is_same(&self, other: &Mode) -> bool
        ensures { (vars : List ℤ) → IsTrue result
            ↔ (standing_in self.now vars ≡ standing_in other.now vars) }
    {
        match self {
            Mode::NotBegun => matches!(other, Mode::NotBegun),
            Mode::At(place) => match other {
                Mode::At(there) => place.is_same(there),
                _ => false,
            },
            Mode::Finished => matches!(other, Mode::Finished),
        }
    }

    /// The same mode once more, in memory of its own.
    pub fn copy(&self, alloc: Global) -> Result<Mode, AllocError>
        ensures { IfOk result (λ copy. (vars : List ℤ) → standing_in copy vars
            ≡ standing_in self.now vars) }
    {
        match self {
            Mode::NotBegun => Ok(Mode::NotBegun),
            Mode::At(place) => Ok(Mode::At(place.copy(alloc)?)),
            Mode::Finished => Ok(Mode::Finished),
        }
    }
}

impl ProcState {
    /// Whether two states are the same: the mode, and the variables there.
    pub fn is_same(&self, other: &ProcState) -> bool
        ensures { IsTrue result ↔ (standing_of self.now ≡ standing_of other.now) }
    {
        self.mode.is_same(&other.mode) && is_same_values(&self.variables, &other.variables)
    }

    /// The same state once more, in memory of its own.
    pub fn copy(&self, alloc: Global) -> Result<ProcState, AllocError>
        ensures standing { IfOk result (λ copy. standing_of copy ≡ standing_of self.now) }
        ensures variables { IfOk result (λ copy. copy.variables.items ≡ self.now.variables.items) }
    {
        Ok(ProcState {
            mode: self.mode.copy(alloc)?,
            variables: Vec::from_slice(alloc, self.variables.as_slice())?,
        })
    }
}
