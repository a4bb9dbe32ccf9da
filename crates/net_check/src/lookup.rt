//! Names among the names declared. At most 256 channels and 64 variables are declared, so each use is looked up by
//! going through them.

ghost use Rattle.std.specs.Prelude.{ℕ, ◌<◌, IfSome, MatchOption, length, map};
ghost use Rattle.net_check.specs.Resolution.{Reads, channel_names, process_names, variable_names};
ghost use Rattle.net_text.specs.Trees.{process_tree};

use net_text::{ChannelText, Name, ProcessText, VariableText};

/// The number of the channel that reads like this name.
pub(crate) fn find_channel(channels: &[ChannelText], name: &Name) -> Option<usize>
    ensures within { IfSome result (λ i. i < length channels.now) }
    ensures found { MatchOption result
        ((i : ℕ) → Reads (channel_names channels.now) i name.now.text → ⊥)
        (λ i. Reads (channel_names channels.now) i name.now.text) }
{
    for (i, channel) in channels.iter().enumerate() {
        if channel.name.is_same(name) {
            return Some(i);
        }
    }
    None
}

/// The number of the process that reads like this name.
pub(crate) fn find_process(processes: &[ProcessText], name: &Name) -> Option<usize>
    ensures { MatchOption result
        ((i : ℕ) → Reads (process_names (map process_tree processes.now)) i name.now.text → ⊥)
        (λ i. Reads (process_names (map process_tree processes.now)) i name.now.text) }
{
    for (i, process) in processes.iter().enumerate() {
        if process.name.is_same(name) {
            return Some(i);
        }
    }
    None
}

/// The number of the variable that reads like this name.
pub(crate) fn find_variable(variables: &[VariableText], name: &Name) -> Option<usize>
    ensures { MatchOption result
        ((i : ℕ) → Reads (variable_names variables.now) i name.now.text → ⊥)
        (λ i. Reads (variable_names variables.now) i name.now.text) }
{
    for (i, variable) in variables.iter().enumerate() {
        if variable.name.is_same(name) {
            return Some(i);
        }
    }
    None
}

/// The number of the name that reads like this one.
pub(crate) fn find_name(names: &[Name], name: &Name) -> Option<usize>
    ensures within { IfSome result (λ i. i < length names.now) }
    ensures found { MatchOption result ((i : ℕ) → Reads names.now i name.now.text → ⊥)
        (λ i. Reads names.now i name.now.text) }
{
    for (i, known) in names.iter().enumerate() {
        if known.is_same(name) {
            return Some(i);
        }
    }
    None
}
