//! A network that is valid, by its type.

ghost use Rattle.std.specs.Prelude.{◌≡◌, length, map};
ghost use Rattle.net_check.specs.Resolution.{AllDifferent};
ghost use Rattle.kahn_net.specs.Common.{network_of, IsValid};
ghost use Rattle.proc_code.specs.CodeView.{code_view};
ghost use Rattle.proc_code.specs.Translation.{flat_code};

use kahn_net::Program;
use net_text::Name;
use proc_code::Code;

/// A valid network, with the names of its channels and of its processes, in order of declaration, and with each
/// process's code, so that whoever has a share of the network has one of the code.
#[derive(Debug)]
pub struct Net {
    pub program: Program,
    pub channel_names: Vec<Name>,
    pub process_names: Vec<Name>,
    pub codes: Vec<Code>,
    pub ghost valid: { IsValid (network_of program) },
    pub ghost channels_named: { length channel_names.items ≡ length program.channels.items },
    pub ghost processes_named: { length process_names.items ≡ length program.processes.items },
    pub ghost channels_differ: { AllDifferent channel_names.items },
    pub ghost processes_differ: { AllDifferent process_names.items },
    pub ghost compiled: { map code_view codes.items ≡ map flat_code (network_of program).codes },
}

// Written out, since each crate above would go through a derived one again.
impl Drop for Net {
    fn drop(self) {
        let Self {
            program,
            channel_names,
            process_names,
            codes,
        } = self;
    }
}
