//! The code of a process.

ghost use Rattle.std.specs.Prelude.{◌≡◌};
ghost use Rattle.kahn_net.specs.Syntax.{Code as Syntax};
ghost use Rattle.proc_code.specs.Translation.{flat_code, entry_of};

use crate::instruction::{Instruction, Site};

/// The code of a process: its instructions, its sites by number, how many values its stack holds at most, and how many
/// repetitions stand round an instruction at most.
#[derive(Debug)]
pub struct Code {
    pub instructions: Vec<Instruction>,
    pub sites: Vec<Site>,
    pub deepest: usize,
    pub nesting: usize,
}

// Written out, since each crate above would go through a derived one again.
impl Drop for Code {
    fn drop(self) {
        let Self {
            instructions,
            sites,
            deepest,
            nesting,
        } = self;
    }
}

impl Code {
    ghost use Rattle.proc_code.specs.CodeView.{code_view};

    /// The instruction from which a process goes on that stands at this site. Where it has no such site, that is the
    /// last one: nothing is left but to begin the loop again, or to finish.
    pub fn entry(&self, site: usize) -> usize
        ensures { (process : Syntax) → code_view self.now ≡ flat_code process
            → result ≡ entry_of process site }
    {
        match self.sites.get(site) {
            Some(site) => site.entry,
            None => self.instructions.len().saturating_sub(1),
        }
    }
}
